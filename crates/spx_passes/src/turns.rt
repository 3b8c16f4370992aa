// The turns of a loop, which both passes make of one turn.
ghost use Rattle.std.specs.Prelude.{◌≡◌, ◌↔◌, ℕ, ◌<◌, IfOk, OnOk, length};
ghost use Rattle.spx_rows.specs.Relations.{Holds, Star};
ghost use Rattle.spx_passes.specs.Occurrences.{AreRows};
ghost use Rattle.spx_passes.specs.Loops.{Begun, Carries, Turns};

use crate::occurrence::Occurrence;
use crate::rows::composed;
use spx_lower::Read;
use spx_rows::{Relation, Steps};
use sqlite_items::Items;
use std::alloc::{AllocError, Global};
use std::marker::Brand;
use std::sync::ledger::{Blank, Ledger};

/// Makes one turn any number of turns, with a count of steps that nobody reads.
fn close_counted<L: Ledger>(turn: &mut Relation, blank: Blank)
    requires name { blank.name ≡ L.name }
    requires parts { blank.parts ≡ L.parts }
    requires some { 0 < blank.parts }
    ensures size { length turn.new ≡ length turn.old }
    ensures pairs { (a b : ℕ) → Holds turn.new a b ↔ ((a < length turn.old) × Star (Holds turn.old) a b) }
{
    let mut steps: Steps<L> = Steps::none(blank);
    turn.close(&mut steps);
}

/// Makes one turn any number of turns.
pub(crate) fn close_turns(turn: &mut Relation)
    ensures size { length turn.new ≡ length turn.old }
    ensures pairs { (a b : ℕ) → Holds turn.new a b ↔ ((a < length turn.old) × Star (Holds turn.old) a b) }
{
    close_counted::<Brand>(turn, Blank::new(1));
}

/// Adds occurrences, each with the union of the rows at what it is listed with.
pub(crate) fn carry(
    alloc: Global,
    inner: &[Occurrence],
    through: &Relation,
    list: &mut Items<Occurrence>,
) -> Result<(), AllocError>
    requires inner { AreRows (length through.now) inner.now }
    requires list { AreRows (length through.now) list.old }
    ensures { OnOk result (Carries (length through.now) through.now inner.now list.old list.new) }
{
    for occurrence in inner {
        let vars = through.union_through(alloc, &occurrence.vars)?;
        list.push(Occurrence {
            place: occurrence.place,
            vars,
        })?;
    }
    Ok(())
}

/// One turn of a loop.
#[derive(Drop)]
pub(crate) struct Turn {
    /// From its beginning to its end.
    pub(crate) flow: Relation,
    /// The occurrences in it.
    pub(crate) inner: Items<Occurrence>,
}

/// Any number of turns, and then `last`. The occurrences in a turn are carried through both.
pub(crate) fn turned(
    alloc: Global,
    turn: &Turn,
    last: &Relation,
    list: &mut Items<Occurrence>,
) -> Result<Relation, AllocError>
    requires size { length turn.now.flow ≡ length last.now }
    requires inner { AreRows (length last.now) turn.now.inner }
    requires list { AreRows (length last.now) list.old }
    ensures { IfOk result (λ head. Turns turn.now.flow turn.now.inner last.now head list.old list.new) }
{
    let mut turns = turn.flow.copy(alloc)?;
    close_turns(&mut turns);
    let head = composed(alloc, &turns, last)?;
    carry(alloc, turn.inner.as_slice(), &head, list)?;
    Ok(head)
}

/// What leads on from before a loop over a parameter, or has come to its end, where `rest` stands for some number of turns: where no
/// bounds are written there is one turn more.
pub(crate) fn begun(
    alloc: Global,
    bounds: &Option<Items<Read>>,
    turn: &Relation,
    rest: Relation,
) -> Result<Relation, AllocError>
    requires { length turn.now ≡ length rest }
    ensures { IfOk result (λ head. (length head ≡ length rest) × ((a b : ℕ) → Holds head a b ↔ Begun bounds.now (Holds turn.now) (Holds rest) a b)) }
{
    match bounds {
        Some(_) => Ok(rest),
        None => {
            let head = composed(alloc, turn, &rest)?;
            Ok(head)
        }
    }
}
