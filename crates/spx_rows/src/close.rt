// How a relation is closed, through one number after another. All that is known of it here is `Counted`, so that no rows are united
// without a count.
ghost use Rattle.std.specs.Prelude.{◌≡◌, ℕ, ◌+◌, ◌*◌, ◌<◌, ◌≤◌, length, ◌↔◌};
ghost use Rattle.spx_rows.specs.Relations.{Holds, Star, Through};

use crate::counted::Counted;
use crate::steps::Steps;
use std::sync::ledger::Ledger;

/// Adds the pairs that lead through `k`.
fn add_through<L: Ledger>(rows: &mut Counted<'_>, k: usize, steps: &mut Steps<L>)
    requires { k < length rows.old.relation.now }
    ensures same_reference { rows.new.relation.ghost_name ≡ rows.old.relation.ghost_name }
    ensures through { Through rows.old.relation.now rows.new.relation.now k (length rows.old.relation.now) }
    ensures cost { steps.new ≤ steps.old + length rows.old.relation.now }
{
    for u in 0..rows.size() {
        if rows.has(u, k) {
            rows.unite(u, k, steps);
        }
    }
}

/// The same, where a number that leads on to itself alone takes no step.
fn close_through<L: Ledger>(rows: &mut Counted<'_>, k: usize, steps: &mut Steps<L>)
    requires { k < length rows.old.relation.now }
    ensures same_reference { rows.new.relation.ghost_name ≡ rows.old.relation.ghost_name }
    ensures through { Through rows.old.relation.now rows.new.relation.now k (length rows.old.relation.now) }
    ensures cost { steps.new ≤ steps.old + length rows.old.relation.now }
{
    if !rows.is_alone(k) {
        add_through(rows, k, steps);
    }
}

/// Makes it the reflexive transitive closure of what it was.
pub(crate) fn close_rows<L: Ledger>(rows: &mut Counted<'_>, steps: &mut Steps<L>)
    ensures same_reference { rows.new.relation.ghost_name ≡ rows.old.relation.ghost_name }
    ensures size { length rows.new.relation.now ≡ length rows.old.relation.now }
    ensures pairs { (a b : ℕ) → Holds rows.new.relation.now a b ↔ ((a < length rows.old.relation.now) × Star (Holds rows.old.relation.now) a b) }
    ensures cost { steps.new ≤ steps.old + length rows.old.relation.now * length rows.old.relation.now }
{
    for k in 0..rows.size() {
        rows.add_itself(k);
        close_through(rows, k, steps);
    }
}
