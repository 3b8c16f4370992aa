// A relation whose unions of rows are counted.
ghost use Rattle.std.specs.Prelude.{◌≡◌, ℕ, ◌+◌, ◌<◌, ◌≤◌, IsTrue, length, ◌↔◌};
ghost use Rattle.spx_rows.specs.Relations.{Holds, Gains};

use crate::relation::Relation;
use crate::steps::Steps;
use std::sync::ledger::Ledger;

/// A relation that is being closed. Only `unite` unites rows of it, and counts that.
#[derive(Drop)]
pub(crate) struct Counted<'a> {
    relation: &'a mut Relation,
}

impl<'a> Counted<'a> {
    pub(crate) fn of(relation: &'a mut Relation) -> Counted<'a>
        ensures same_reference { result.relation.ghost_name ≡ relation.entry.ghost_name }
        ensures same { result.relation.now ≡ relation.old }
    {
        Counted { relation }
    }

    pub(crate) fn size(&self) -> usize
        ensures size { result ≡ length self.now.relation.now }
        ensures limit { result ≤ 65536 }
    {
        self.relation.size()
    }

    /// Whether the pair is there.
    pub(crate) fn has(&self, u: usize, w: usize) -> bool
        requires u { u < length self.now.relation.now }
        requires w { w < length self.now.relation.now }
        ensures { IsTrue result ↔ Holds self.now.relation.now u w }
    {
        self.relation.has(u, w)
    }

    /// Whether `u` stands with itself and no other number.
    pub(crate) fn is_alone(&self, u: usize) -> bool
        requires { u < length self.now.relation.now }
        ensures { IsTrue result → (w : ℕ) → Holds self.now.relation.now u w → u ≡ w }
    {
        self.relation.is_alone(u)
    }

    /// Adds the pair of a number with itself.
    pub(crate) fn add_itself(&mut self, k: usize)
        requires { k < length self.old.relation.now }
        ensures same_reference { self.new.relation.ghost_name ≡ self.old.relation.ghost_name }
        ensures size { length self.new.relation.now ≡ length self.old.relation.now }
        ensures pairs { Gains self.old.relation.now self.new.relation.now (λ a b. (k ≡ a) × (k ≡ b)) }
    {
        self.relation.add(k, k);
    }

    /// Adds one row to another, which is one step.
    pub(crate) fn unite<L: Ledger>(&mut self, to: usize, from: usize, steps: &mut Steps<L>)
        requires to { to < length self.old.relation.now }
        requires from { from < length self.old.relation.now }
        ensures same_reference { self.new.relation.ghost_name ≡ self.old.relation.ghost_name }
        ensures size { length self.new.relation.now ≡ length self.old.relation.now }
        ensures pairs { Gains self.old.relation.now self.new.relation.now (λ a b. (to ≡ a) × Holds self.old.relation.now from b) }
        ensures counted { steps.new ≡ steps.old + 1 }
    {
        steps.tick();
        self.relation.add_row(to, from);
    }
}
