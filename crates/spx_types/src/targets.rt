// What an assignment names: an object, and a way from there to a part of it (Ada 95 RM 5.2).
ghost use Rattle.std.specs.Prelude.{◌≡◌};
ghost use Rattle.spx_core.specs.Judged as rules;
ghost use Rattle.spx_types.specs.Ways.{FoundAtStep};

use crate::expression::judge;
use crate::names::{breach_of, keeps, named_target};
use crate::parts::indexed;
use crate::types::is_type_at;
use spx_core::{Breach, FaultyName, PartStep, RuleName, Subtype, Target};
use spx_text::Place;
use sqlite_items::Boxed;

/// The type of the part to which a step leads from an object of this type. Any way goes on from there.
fn judged_step(place: Place, subtype: Subtype, step: &PartStep) -> Result<Subtype, Breach>
    ensures { FoundAtStep place subtype step.now result }
{
    match step {
        PartStep::Index(_, index, indexing) => {
            let x = *indexing.get();
            keeps(RuleName::N10, place, is_type_at(x.array, subtype.base))?;
            indexed(x, judge(index.get())?)?;
            Ok(x.element)
        }
        PartStep::Field(_, selection) => {
            let x = *selection.get();
            keeps(RuleName::N10, place, is_type_at(x.record, subtype.base))?;
            Ok(x.field)
        }
    }
}

/// The type of the part to which a way leads from an object of this type, which is named at the place.
pub fn judged_way(place: Place, subtype: Subtype, way: &[PartStep]) -> Result<Subtype, Breach>
    ensures { result ≡ rules.judged_way place subtype way.now }
{
    let mut part = subtype;
    for step in way {
        part = judged_step(place, part, step)?;
    }
    Ok(part)
}

/// The name denotes a part.
fn leads(faulty: &Option<Boxed<FaultyName>>) -> Result<(), Breach>
    ensures { result ≡ rules.leads faulty.now }
{
    match faulty {
        None => Ok(()),
        Some(faulty) => Err(breach_of(faulty.get())),
    }
}

/// The type of what is assigned to: the root denotes a whole object, and the way leads to a part of it.
pub fn referred_target(target: &Target) -> Result<Subtype, Breach>
    ensures { result ≡ rules.referred_target target.now }
{
    let place = target.root.name.place;
    let object = named_target(&target.root)?;
    leads(&target.faulty)?;
    judged_way(place, object, target.way.as_slice())
}
