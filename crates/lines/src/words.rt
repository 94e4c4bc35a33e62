//! Words of decimal digits.
ghost use Rattle.lines.specs.Words.{error_at, word_of};
ghost use Rattle.std.specs.Prelude.{◌≡◌};

use crate::errors::LineError;

/// Anything from here on is too large; the sum of a word's digits stays here once it comes so far.
const TOO_LARGE: u64 = 4_294_967_296;

/// Why a word is no number that the program takes.
// Beside the two cases of `LineError`, which say the word's place too: a word does not know it.
#[derive(Clone, Copy, Debug, PartialEq, Eq)]
pub enum WordError {
    /// It is empty, or has something else than digits.
    NotNumber,
    /// It is above 4,294,967,295.
    TooLarge,
}

impl WordError {
    /// What is wrong with the line, where this is wrong with the word of this number.
    pub fn at(self, word: usize) -> LineError
        ensures { result ≡ error_at word self }
    {
        match self {
            WordError::NotNumber => LineError::NotNumber { word },
            WordError::TooLarge => LineError::TooLarge { word },
        }
    }
}

/// The number that a word of decimal digits stands for.
// By hand, since std's parse takes a leading plus, and calls a word too large before it has seen a letter behind the digits.
#[tactic(auto, using(crate::proofs::Digits::goes))]
pub fn parse_word(word: &[u8]) -> Result<u32, WordError>
    ensures { result ≡ word_of word.now }
{
    if word.is_empty() {
        return Err(WordError::NotNumber);
    }
    let mut value: u64 = 0;
    for byte in word {
        if !byte.is_ascii_digit() {
            return Err(WordError::NotNumber);
        }
        let digit = u64::from(*byte - b'0');
        value = (value * 10 + digit).min(TOO_LARGE);
    }
    if value < TOO_LARGE {
        Ok(value as u32)
    } else {
        Err(WordError::TooLarge)
    }
}
