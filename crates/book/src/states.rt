use records::lists::Counts;

// Two types of the same numbers, since the type is the state: only an open book has the calls that declare.

/// A book that takes declarations: how many records of each list are in use.
#[derive(Drop)]
pub struct Open {
    pub(crate) counts: Counts,
}

/// A book that takes no more declarations.
#[derive(Drop)]
pub struct Settled {
    pub(crate) counts: Counts,
}
