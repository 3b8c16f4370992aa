// Facts that are known for a while.
ghost use Rattle.std.specs.Prelude.{List, length, IfOk, OnOk};
ghost use Rattle.spx_term.specs.declared.term.Term.{Term};
ghost use Rattle.spx_arena.specs.Claims.{AreIds, trees_at};
ghost use Rattle.spx_simplify.specs.Tables.{Sized, Knows, AreChanges, Assumed, LeadsBack};

use crate::known::{Change, Known};
use spx_arena::{TermId, Terms};
use sqlite_items::Items;
use std::alloc::{AllocError, Global};

/// Adds facts. The changes say how they are taken back.
pub fn assume(
    alloc: Global,
    known: &mut Known,
    terms: &Terms,
    facts: &[TermId],
) -> Result<Items<Change>, AllocError>
    requires within { AreIds (length terms.now) facts.now }
    requires sized { Sized (length terms.now) known.old }
    ensures sized { OnOk result (Sized (length terms.now) known.new) }
    ensures changes { IfOk result (AreChanges (length terms.now)) }
    ensures assumed { IfOk result (λ changes. (hyps : List Term) → Knows terms.now hyps known.old → Assumed terms.now hyps (trees_at terms.now facts.now) known.new changes) }
{
    let mut changes = Items::new(alloc);
    for fact in facts {
        let change = known.saved(terms, *fact);
        changes.push(change)?;
        known.add(terms, *fact);
    }
    Ok(changes)
}

/// Takes facts back, the last one first.
pub fn take_back(known: &mut Known, terms: &Terms, mut changes: Items<Change>)
    requires changes { AreChanges (length terms.now) changes }
    requires sized { Sized (length terms.now) known.old }
    ensures sized { Sized (length terms.now) known.new }
    ensures knows { (hyps : List Term) → LeadsBack terms.now hyps known.old changes → Knows terms.now hyps known.new }
{
    'back: while let Some(change) = changes.pop() {
        known.undo(terms, change);
    }
}
