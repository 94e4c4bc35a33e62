//! The text of a line, word by word, as numbers.
use crate::errors::Failure;
use lines::words::parse_word;

/// Adds the numbers of a line. A line that begins with `#` has none. The line's number goes into an error.
pub(crate) fn parse_numbers(
    line: usize,
    text: &str,
    numbers: &mut Vec<u32>,
) -> Result<(), Failure> {
    if text.starts_with('#') {
        return Ok(());
    }
    let text = text.strip_suffix('\r').unwrap_or(text);
    // Blanks that follow one another have nothing between them.
    let words = text.split([' ', '\t']).filter(|word| !word.is_empty());
    for (word, place) in words.zip(1..) {
        let number = parse_word(word.as_bytes()).map_err(|error| Failure::Line {
            line,
            error: error.at(place),
        })?;
        numbers.push(number)?;
    }
    Ok(())
}
