//! The page reader: a page of numbers taken apart where it lies, with nothing copied.
#![tactic(auto)]

ghost use Rattle.std.specs.Prelude.{◌≡◌, ◌+◌, ◌≤◌, length};

/// The most entries that a page may have.
pub const MOST_ENTRIES: usize = 1024;

/// One entry of a page: the left and the right number at its index.
#[derive(Clone, Copy)]
pub struct Entry {
    pub left: u32,
    pub right: u32,
}

/// A part of the page's own numbers, and the index in the page at which it begins.
#[derive(Clone, Copy)]
pub struct Part<'a> {
    pub place: usize,
    pub numbers: &'a [u32],
}

/// A page, read: its two sizes, and the left and the right numbers of its a + b entries.
// Two halves and no list of entries, since they are parts of the page's own numbers, as the page's form has them.
#[derive(Clone, Copy)]
pub struct Page<'a> {
    pub a: u32,
    pub b: u32,
    pub left: Part<'a>,
    pub right: Part<'a>,
    pub ghost lefts: { length left.numbers.now ≡ a + b },
    pub ghost rights: { length right.numbers.now ≡ a + b },
    pub ghost few: { a + b ≤ 1024 },
}

impl<'a> Page<'a> {
    ghost use Rattle.page.specs.Pages.{page_of, shown};
    ghost use Rattle.std.specs.Option.{option_map};

    /// The page in these numbers, or `None` where they do not have the form of one.
    pub fn read(numbers: &'a [u32]) -> Option<Page<'a>>
        ensures { option_map shown result ≡ page_of numbers.now }
    {
        let [a, b, rest @ ..] = numbers else {
            return None;
        };
        let count = *a as usize + *b as usize;
        if count > MOST_ENTRIES {
            return None;
        }
        if rest.len() != 2 * count {
            return None;
        }
        let (left, right) = rest.split_at(count);
        Some(Page {
            a: *a,
            b: *b,
            left: Part {
                place: 2,
                numbers: left,
            },
            right: Part {
                place: 2 + count,
                numbers: right,
            },
        })
    }
}
