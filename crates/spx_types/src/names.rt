// What names denote, or the first rule that is broken in them (Ada 95 RM 4.1, 8.3).
ghost use Rattle.std.specs.Prelude.{◌≡◌, ok_or};
ghost use Rattle.spx_core.specs.Judged as rules;

use crate::types::has_parts;
use crate::values::position_in;
use spx_core::{
    Breach, CoreName, Entity, ExprType, FaultyName, NameFault, Object, Reference, RuleName,
    Subtype, Typing, UNIVERSAL,
};
use spx_text::Place;
use spx_tree::NameStep;

/// Whether a rule is kept at the place: its breach, where it is not.
pub fn keeps(rule: RuleName, place: Place, kept: bool) -> Result<(), Breach>
    ensures { result ≡ rules.keeps rule place kept }
{
    if kept {
        Ok(())
    } else {
        Err(Breach { rule, place })
    }
}

/// What a name denotes, which has to be something.
fn entity_of(name: &CoreName) -> Result<Entity, Breach>
    ensures { result ≡ ok_or name.now.entity (record { rule = RuleName.N1; place = name.now.name.place }) }
{
    name.entity.ok_or(Breach {
        rule: RuleName::N1,
        place: name.name.place,
    })
}

/// The type that a name denotes.
pub fn named_type(name: &CoreName) -> Result<Subtype, Breach>
    ensures { result ≡ rules.named_type name.now }
{
    match entity_of(name)? {
        Entity::TypeName(subtype) => Ok(subtype),
        _ => Err(Breach {
            rule: RuleName::N3,
            place: name.name.place,
        }),
    }
}

/// The object that a name denotes.
fn named_object(name: &CoreName) -> Result<Object, Breach>
    ensures { result ≡ rules.named_object name.now }
{
    match entity_of(name)? {
        Entity::Variable(_, object) => Ok(object),
        _ => Err(Breach {
            rule: RuleName::N3,
            place: name.name.place,
        }),
    }
}

/// The type of what an assignment may name: a variable, or, as far as names and types go, a constant.
pub fn named_target(name: &CoreName) -> Result<Subtype, Breach>
    ensures { result ≡ rules.named_target name.now }
{
    match entity_of(name)? {
        Entity::Variable(_, object) => Ok(object.subtype),
        Entity::Constant(subtype, _) => Ok(subtype),
        Entity::NamedNumber(_) => Ok(UNIVERSAL),
        _ => Err(Breach {
            rule: RuleName::N3,
            place: name.name.place,
        }),
    }
}

/// What stands for a static value of a type without parts: that of a Boolean type is a position.
fn standing_at(place: Place, subtype: Subtype, n: i128) -> Result<Typing, Breach>
    ensures { result ≡ rules.standing_at place subtype n }
{
    let class = subtype.base.class;
    keeps(RuleName::N10, place, !has_parts(class))?;
    Ok(Typing {
        of: ExprType::Of(subtype.base),
        value: Some(position_in(class, n)),
        place,
    })
}

/// The value that a name denotes: an object has one, a constant and a named number stand for one, and a literal is one.
pub fn named_value(name: &CoreName) -> Result<Typing, Breach>
    ensures { result ≡ rules.named_value name.now }
{
    let place = name.name.place;
    match entity_of(name)? {
        Entity::Variable(_, object) => Ok(Typing {
            of: ExprType::Of(object.subtype.base),
            value: None,
            place,
        }),
        Entity::Constant(subtype, n) => standing_at(place, subtype, n),
        Entity::Literal(subtype, position) => standing_at(place, subtype, position),
        Entity::NamedNumber(n) => Ok(Typing {
            of: ExprType::Universal,
            value: Some(n),
            place,
        }),
        _ => Err(Breach {
            rule: RuleName::N3,
            place,
        }),
    }
}

/// The value that a variable has on entry, where it may be named so.
pub fn entry_value(name: &CoreName, allowed: bool) -> Result<Typing, Breach>
    ensures { result ≡ rules.entry_value name.now allowed }
{
    let place = name.name.place;
    let object = named_object(name)?;
    keeps(RuleName::N18, place, allowed)?;
    Ok(Typing {
        of: ExprType::Of(object.subtype.base),
        value: None,
        place,
    })
}

pub fn is_whole(steps: &[NameStep]) -> bool
    ensures { result ≡ rules.is_whole steps.now }
{
    matches!(steps, [])
}

/// Nothing may follow the identifier.
fn whole(reference: &Reference) -> Result<(), Breach>
    ensures { result ≡ rules.whole reference.now }
{
    let kept = is_whole(reference.steps.as_slice());
    keeps(RuleName::N3, reference.root.name.place, kept)
}

/// The rule that a name breaks whose first identifier denotes something.
fn rule_of(fault: NameFault) -> RuleName
    ensures { result ≡ rules.rule_of fault }
{
    match fault {
        NameFault::NoField => RuleName::N1,
        NameFault::WrongArguments => RuleName::N14,
        NameFault::NoPart => RuleName::N3,
    }
}

/// The breach of a name that denotes nothing.
pub fn breach_of(faulty: &FaultyName) -> Breach
    ensures { result ≡ rules.breach_of faulty.now }
{
    let rule = match faulty.root {
        None => RuleName::N1,
        Some(_) => rule_of(faulty.fault),
    };
    Breach {
        rule,
        place: faulty.name.path.root.place,
    }
}

/// The type that a whole name denotes.
pub fn referred_type(reference: &Reference) -> Result<Subtype, Breach>
    ensures { result ≡ rules.referred_type reference.now }
{
    let subtype = named_type(&reference.root)?;
    whole(reference)?;
    Ok(subtype)
}

/// The object that a whole name denotes.
pub fn referred_object(reference: &Reference) -> Result<Object, Breach>
    ensures { result ≡ rules.referred_object reference.now }
{
    let object = named_object(&reference.root)?;
    whole(reference)?;
    Ok(object)
}
