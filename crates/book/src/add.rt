ghost use Rattle.std.specs.Prelude.{◌≡◌, ◌+◌, ◌≤◌, length};
ghost use Rattle.book.specs.Declare.{ClauseRoom, DeclarationRoom, clause_added, declaration_added, written};
ghost use Rattle.page.specs.Pages.{entries_of, paired, shown};
ghost use Rattle.records.specs.Held.{Same, stored};

use crate::rules::Request;
use crate::states::Open;
use page::{Entry, Page};
use records::lists::{Clause, ClauseKind, Declaration, DeclarationKind, Lists};

/// Copies a page's left and right numbers, entry by entry.
// By an index into what is written, since std says nothing of the elements that `iter_mut` gives when it is zipped.
fn copy_entries(into: &mut [Entry], page: Page)
    requires { page.a + page.b ≡ length into.old }
    ensures { into.new ≡ entries_of (shown page.entry) }
{
    let pairs = page.left.numbers.iter().zip(page.right.numbers);
    for (i, (left, right)) in pairs.enumerate() {
        into[i] = Entry {
            left: *left,
            right: *right,
        };
    }
}

impl Open {
    /// Writes a page's entries behind those in use.
    fn add_entries(&mut self, entries: &mut [Entry], page: Page)
        requires fits { self.old.counts.entries + (page.a + page.b) ≤ 65536 }
        requires room { self.old.counts.entries + (page.a + page.b) ≤ length entries.old }
        ensures counts { self.new.counts ≡ record self.old.counts { entries = self.old.counts.entries + (page.entry.a + page.entry.b) } }
        ensures written { entries.new ≡ written entries.old self.old.counts.entries (entries_of (shown page.entry)) }
    {
        let start = self.counts.entries as usize;
        let end = start + page.left.numbers.len();
        copy_entries(&mut entries[start..end], page);
        self.counts.entries += page.a + page.b;
    }

    /// Adds a declaration record and its entries.
    pub(crate) fn add_declaration(
        &mut self,
        lists: &mut Lists,
        kind: DeclarationKind,
        request: Request,
    )
        requires { DeclarationRoom self.old.counts (stored lists.old) (shown request.page) }
        ensures counts { self.new.counts ≡ (declaration_added kind request.entry.name (shown request.entry.page) 0 self.old.counts (stored lists.old)).counts }
        ensures lists { stored lists.new ≡ (declaration_added kind request.entry.name (shown request.entry.page) 0 self.old.counts (stored lists.old)).lists }
        ensures lent { Same lists.old lists.new }
    {
        let Request { name, page } = request;
        let at = self.counts.declarations;
        lists.declarations[at] = Declaration {
            kind,
            name,
            start: self.counts.entries,
            a: page.a,
            b: page.b,
        };
        self.counts.declarations += 1;
        self.add_entries(lists.entries, page);
    }

    /// Adds a clause record and its entries.
    // Apart from `add_declaration`, since the records have other fields and lie in another list: what is the same in both
    // is `add_entries`.
    pub(crate) fn add_clause(
        &mut self,
        lists: &mut Lists,
        kind: ClauseKind,
        procedure: u32,
        page: Page,
    )
        requires { ClauseRoom self.old.counts (stored lists.old) (shown page) }
        ensures counts { self.new.counts ≡ (clause_added kind procedure (shown page.entry) 0 self.old.counts (stored lists.old)).counts }
        ensures lists { stored lists.new ≡ (clause_added kind procedure (shown page.entry) 0 self.old.counts (stored lists.old)).lists }
        ensures lent { Same lists.old lists.new }
    {
        let at = self.counts.clauses;
        lists.clauses[at] = Clause {
            kind,
            procedure,
            start: self.counts.entries,
            count: page.a + page.b,
        };
        self.counts.clauses += 1;
        self.add_entries(lists.entries, page);
    }
}
