ghost use Rattle.records.specs.Book.{constants, globals, procedures};
ghost use Rattle.records.specs.Held.{book_of};
ghost use Rattle.records.specs.Sizes.{few};
ghost use Rattle.std.specs.Prelude.{◌≡◌, true, length};

use crate::lists::{HeldBook, Totals};

/// A held book with its totals, which are within the limits: what is known of a book that was found sound.
#[derive(Clone, Copy)]
pub struct SoundBook<'a> {
    pub held: HeldBook<'a>,
    pub totals: Totals,
    pub ghost constants_are: { totals.constants ≡ length (constants (book_of held)) },
    pub ghost globals_are: { totals.globals ≡ length (globals (book_of held)) },
    pub ghost procedures_are: { totals.procedures ≡ length (procedures (book_of held)) },
    pub ghost within: { few totals ≡ true },
}
