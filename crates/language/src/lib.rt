//! The types and the expression codes of the language.
#![tactic(auto)]

ghost use Rattle.language.specs.CommandChecking.{ExactCommands};
ghost use Rattle.language.specs.Codes.{result_of};
ghost use Rattle.std.specs.Prelude.{◌≡◌};

/// The type of a value, by its number.
// A number and no enum: a lent list may hold any number as a type, which then fits itself alone, and further types are
// to come.
#[derive(Clone, Copy, PartialEq, Eq, Debug)]
pub struct ValueType {
    pub number: u32,
}

impl ValueType {
    pub const BOOL: ValueType = ValueType { number: 1 };

    pub const INT: ValueType = ValueType { number: 2 };

    pub const REF: ValueType = ValueType { number: 3 };

    pub const NAME: ValueType = ValueType { number: 4 };
}

/// The types of a code's operands, in their order.
// An enum of its own: none, one or two, for which an `Option` has no case and a list has too many.
#[derive(Clone, Copy, PartialEq, Eq, Debug)]
pub enum Operands {
    None,
    One(ValueType),
    Two(ValueType, ValueType),
}

/// The type of the result of an expression code on operands of these types, where they suit it.
// Codes are the numbers that a page holds, and this one match over their ranges is the table of all that take no name.
pub fn result_type(code: u32, operands: Operands) -> Option<ValueType>
    ensures { result ≡ result_of code operands }
{
    match (code, operands) {
        (1..=2, Operands::None) => Some(ValueType::BOOL),
        (3, Operands::None) => Some(ValueType::REF),
        (4, Operands::None) => Some(ValueType::INT),
        (12, Operands::One(x)) if x == ValueType::BOOL => Some(ValueType::BOOL),
        (13, Operands::One(x)) if x == ValueType::INT => Some(ValueType::INT),
        (14..=15, Operands::Two(x, y)) if x == y => Some(ValueType::BOOL),
        (16..=19, Operands::Two(x, y)) if x == ValueType::INT && y == ValueType::INT => {
            Some(ValueType::BOOL)
        }
        (20, Operands::Two(x, y)) if x == ValueType::NAME && y == ValueType::NAME => {
            Some(ValueType::BOOL)
        }
        (21..=25, Operands::Two(x, y)) if x == ValueType::INT && y == ValueType::INT => {
            Some(ValueType::INT)
        }
        (26..=29, Operands::Two(x, y)) if x == ValueType::BOOL && y == ValueType::BOOL => {
            Some(ValueType::BOOL)
        }
        _ => None,
    }
}

/// A command page of at most 1,024 entries is accepted, entry by entry, exactly where it is the postfix form of
/// commands that are right in their body. (The check itself comes with the bodies.)
pub fn command_pages_are_exact()
    ensures { ExactCommands }
{}
