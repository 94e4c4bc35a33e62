use page::Entry;

/// What a declaration record declares.
#[derive(Clone, Copy, PartialEq, Eq)]
pub enum DeclarationKind {
    Constants = 3,
    Globals = 4,
    Procedure = 6,
}

/// What a clause record states.
#[derive(Clone, Copy, PartialEq, Eq)]
pub enum ClauseKind {
    Axiom = 7,
    Requires = 8,
    Ensures = 9,
    Modifies = 10,
}

/// A declaration: its kind, its name (0 but for procedures), and its a + b entries, from `start` on in the table of entries.
// A place in the table and no list of its own, here and in a clause, since the entries of all records lie in one lent
// slice. The name is the number that the call was given, whose rule is that it is 0 for constants and globals.
#[derive(Clone, Copy)]
pub struct Declaration {
    pub kind: DeclarationKind,
    pub name: u32,
    pub start: u32,
    pub a: u32,
    pub b: u32,
}

/// A clause: its kind, the number of its procedure (0 for axioms), and its entries, from `start` on in the table of entries.
// Kind and procedure apart, as plain numbers of a lent record: look-ups ask for both, and that of an axiom is not looked at.
#[derive(Clone, Copy)]
pub struct Clause {
    pub kind: ClauseKind,
    pub procedure: u32,
    pub start: u32,
    pub count: u32,
}

/// The lists in which the book's records lie. The caller lends them to each call.
// Lent slices, since nothing here allocates: how many of their records are in use stands beside them, in `Counts`.
#[derive(Drop)]
pub struct Lists<'a> {
    pub declarations: &'a mut [Declaration],
    pub clauses: &'a mut [Clause],
    pub entries: &'a mut [Entry],
}

/// How many records of each list are in use.
#[derive(Clone, Copy, Default)]
pub struct Counts {
    pub declarations: usize,
    pub clauses: usize,
    pub entries: u32,
}

/// How many constants, globals and procedures there are.
#[derive(Clone, Copy, Default)]
pub struct Totals {
    pub constants: usize,
    pub globals: usize,
    pub procedures: usize,
}

/// The book that the lists hold: the records in use, read where they lie.
// Slices of what the caller lent, here and below, since nothing here allocates.
#[derive(Clone, Copy)]
pub struct HeldBook<'a> {
    pub declarations: &'a [Declaration],
    pub clauses: &'a [Clause],
    pub entries: &'a [Entry],
}

/// A procedure of a held book: its number, how many of its parameters are in-parameters, and all of them.
#[derive(Clone, Copy)]
pub struct Procedure<'a> {
    pub number: usize,
    pub ins: u32,
    pub parameters: &'a [Entry],
}
