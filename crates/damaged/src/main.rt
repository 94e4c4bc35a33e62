//! Declares into lists that were changed by others, and prints what Declare says of them.
#![tactic(auto)]

ghost use Rattle.std.specs.Prelude.{◌≤◌};

use book::Open;
use fault::{Fault, Report};
use page::Entry;
use records::lists::{Clause, ClauseKind, Declaration, DeclarationKind, Lists};
use std::io;

const CONSTANTS: Declaration = Declaration {
    kind: DeclarationKind::Constants,
    name: 0,
    start: 0,
    a: 3,
    b: 0,
};

/// A requires clause of the first procedure: its one entry is that of `true`.
const REQUIRES: Clause = Clause {
    kind: ClauseKind::Requires,
    procedure: 0,
    start: 1030,
    count: 1,
};

/// How much of each list is lent.
#[derive(Clone, Copy)]
struct Lengths {
    declarations: usize,
    clauses: usize,
    entries: usize,
    ghost within: { (declarations ≤ 8) × (clauses ≤ 16) × (entries ≤ 2048) },
}

const WHOLE: Lengths = Lengths {
    declarations: 8,
    clauses: 16,
    entries: 2048,
};

/// The lists of a book, and how much of them the next call is lent.
// Arrays, which stand for what a caller lends.
#[derive(Drop)]
struct Held {
    declarations: [Declaration; 8],
    clauses: [Clause; 16],
    entries: [Entry; 2048],
    lent: Lengths,
}

/// Writes a page of 1,024 entries, true, and 1,023 times not, over zeros.
// Where the caller has it, since an array that is handed back is filled and copied several times.
fn write_long_page(page: &mut [u32; 2050]) {
    page[0] = 1024;
    page[2] = 2;
    page[3..1026].fill(12);
}

/// Declares three constants, a procedure, two axioms and seven requires clauses: 1,038 entries.
fn declare_all(book: &mut Open, lists: &mut Lists) -> Result<(), Fault> {
    book.declare(lists, 3, 0, &[3, 0, 10, 11, 12, 1, 2, 3])?;
    book.declare(lists, 6, 100, &[2, 1, 20, 21, 22, 1, 2, 2])?;
    let mut page = [0u32; 2050];
    write_long_page(&mut page);
    book.declare(lists, 7, 0, &page)?;
    book.declare(lists, 7, 0, &[1, 0, 2, 0])?;
    for _ in 0..7 {
        book.declare(lists, 8, 100, &[1, 0, 2, 0])?;
    }
    Ok(())
}

/// One more constant, after the damage; `None` where a declaration of the book itself was refused.
fn declare_after<F: FnOnce(&mut Held)>(damage: F) -> Option<Result<usize, Fault>>
    requires { F.IsAlwaysCallable damage }
{
    let mut held = Held {
        declarations: [CONSTANTS; 8],
        clauses: [REQUIRES; 16],
        entries: [Entry { left: 0, right: 0 }; 2048],
        lent: WHOLE,
    };
    let mut book = Open::new();
    // Lists are made where they are used, here and after the damage: a method of `Held` could not hand out what it borrows.
    let mut lists = Lists {
        declarations: &mut held.declarations,
        clauses: &mut held.clauses,
        entries: &mut held.entries,
    };
    declare_all(&mut book, &mut lists).ok()?;
    damage(&mut held);
    let lengths = held.lent;
    let mut lists = Lists {
        declarations: &mut held.declarations[..lengths.declarations],
        clauses: &mut held.clauses[..lengths.clauses],
        entries: &mut held.entries[..lengths.entries],
    };
    Some(book.declare(&mut lists, 3, 0, &[1, 0, 50, 2]))
}

/// Prints what the call after the damage comes to.
fn show<F: FnOnce(&mut Held)>(rt: &HostRuntime, text: &str, damage: F) -> io::Result<()>
    requires { F.IsAlwaysCallable damage }
{
    match declare_after(damage) {
        None => println!(rt; "{text}: the book was not declared"),
        Some(Ok(number)) => println!(rt; "{text}: ok {number}"),
        Some(Err(fault)) => println!(rt; "{text}: refused {}", Report::from(fault)),
    }
}

/// Lists that nobody changed, and lists that are lent too short.
fn show_lengths(rt: &HostRuntime) -> io::Result<()> {
    show(rt, "nothing changed", |_| {})?;
    show(
        rt,
        "a declaration list that is too short",
        |held| held.lent.declarations = 1,
    )?;
    show(
        rt,
        "a clause list that is too short",
        |held| held.lent.clauses = 8,
    )?;
    show(
        rt,
        "an entry list that is too short",
        |held| held.lent.entries = 1037,
    )
}

/// Declaration records that were changed.
fn show_declarations(rt: &HostRuntime) -> io::Result<()> {
    show(
        rt,
        "entries outside the table",
        |held| held.declarations[0].start = 1036,
    )?;
    show(rt, "sizes whose sum passes 2^32", |held| {
        held.declarations[0].a = 4_294_967_295;
        held.declarations[0].b = 4_294_967_295;
    })?;
    show(rt, "17 in-parameters", |held| held.declarations[1].a = 17)?;
    show(rt, "257 constants", |held| held.declarations[0].a = 257)
}

/// Clause records that were changed.
fn show_clauses(rt: &HostRuntime) -> io::Result<()> {
    show(
        rt,
        "a clause of a procedure that is not there",
        |held| held.clauses[2].procedure = 1,
    )?;
    show(
        rt,
        "nine requires clauses of one procedure",
        |held| held.clauses = [REQUIRES; 16],
    )?;
    show(rt, "a clause of 1,025 entries", |held| {
        held.clauses[0].start = 0;
        held.clauses[0].count = 1025;
    })
}

/// Lists that hold another book.
fn show_other_book(rt: &HostRuntime) -> io::Result<()> {
    show(
        rt,
        "constants that became globals",
        |held| held.declarations[0].kind = DeclarationKind::Globals,
    )
}

fn main(rt: HostRuntime) -> io::Result<()> {
    show_lengths(&rt)?;
    show_declarations(&rt)?;
    show_clauses(&rt)?;
    show_other_book(&rt)
}
