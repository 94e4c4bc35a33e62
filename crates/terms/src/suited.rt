//! Whether operands suit a code: they are entries, and as many as the code has.
ghost use Rattle.std.specs.Prelude.{◌≡◌};
ghost use Rattle.sink.specs.Laws.{fitting};
ghost use Rattle.world.specs.Tells.{arity};

/// How many operands a told code has.
// Codes are the numbers that are told, and their operands go by ranges.
fn operand_count(code: u32) -> Option<usize>
    ensures { result ≡ arity code }
{
    match code {
        1..=5 | 7 => Some(0),
        12..=13 => Some(1),
        14..=29 => Some(2),
        _ => None,
    }
}

/// Do the operands suit the code, in a sink of so many entries?
pub(crate) fn suited(entries: u32, code: u32, operands: &[u32]) -> bool
    ensures { result ≡ fitting entries code operands.now }
{
    operand_count(code) == Some(operands.len()) && operands.iter().all(|x| *x < entries)
}
