// What terms were made into, while names keep their values.
ghost use Rattle.std.specs.Prelude.{◌≡◌, ◌<◌, length, IfOk};
ghost use Rattle.spx_steps.specs.Memos.{known, IsMade, IsNew, NothingKnown};

use spx_arena::TermId;
use sqlite_items::Items;
use std::alloc::{AllocError, Global};
use std::marker::Model;

/// What a term was made into, and in which turn.
#[derive(Clone, Copy)]
struct Entry {
    turn: u64,
    into: TermId,
}

/// The entry of a term that was not made in any turn.
const NOT_MADE: Entry = Entry {
    turn: 0,
    into: TermId(0),
};

/// What terms were made into since all was forgotten last, in a table by their ids. Only what was made in the present turn is known, so that
/// all is forgotten where the next turn begins. Contracts see the list of what is known.
#[derive(Drop)]
pub struct Memo {
    entries: Items<Entry>,
    turn: u64,
}

impl Model for Memo {
    ghost use Rattle.std.specs.Prelude.{List, Option};
    ghost use Rattle.spx_arena.specs.declared.terms.TermId.{TermId};
    ghost use Rattle.spx_steps.specs.Entries.{table_of, NoneLater};

    ghost Value = { List (Option TermId) };

    ghost view = { λ a. table_of a.turn a.entries };

    ghost invariant = { λ a. NoneLater a.turn a.entries };
}

/// Entries of terms that were not made in any turn.
fn clear(entries: &mut Items<Entry>)
    ensures { IsNew (length entries.old) entries.new }
{
    for at in 0..entries.len() {
        entries.set(at, NOT_MADE);
    }
}

impl Memo {
    /// Nothing is known of so many terms.
    pub fn new(alloc: Global, count: usize) -> Result<Memo, AllocError>
        ensures { IfOk result (NothingKnown count) }
    {
        let mut entries = Items::new(alloc);
        for at in 0..count {
            let _ = at;
            entries.push(NOT_MADE)?;
        }
        Ok(Memo { entries, turn: 1 })
    }

    /// What a term was made into, if it is known.
    pub fn get(&self, id: TermId) -> Option<TermId>
        requires { id.0 < length self.now }
        ensures { result ≡ known self.now id }
    {
        let entry = self.entries.as_slice()[id.0];
        if entry.turn == self.turn {
            Some(entry.into)
        } else {
            None
        }
    }

    /// Keeps what a term was made into.
    pub fn set(&mut self, id: TermId, into: TermId)
        requires { id.0 < length self.old }
        ensures { IsMade self.old self.new id into }
    {
        let turn = self.turn;
        self.entries.set(id.0, Entry { turn, into });
    }

    /// Nothing is known any more.
    pub fn forget(&mut self)
        ensures { NothingKnown (length self.old) self.new }
    {
        if self.turn == u64::MAX {
            clear(&mut self.entries);
            self.turn = 1;
            return;
        }
        self.turn += 1;
    }
}
