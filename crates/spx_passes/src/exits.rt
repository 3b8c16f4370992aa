// Where statements leave the loops around them.
ghost use Rattle.std.specs.Prelude.{◌≡◌, ◌||◌};
ghost use Rattle.spx_lower.specs.Meaning.{effect_in, effect_of};
ghost use Rattle.spx_passes.specs.Positions.{exits_in};
ghost use Rattle.spx_passes.specs.Targets.{arms_exit};

use spx_lower::{Arm, Item};

/// Whether the item leaves the loop around it, or, where `deep`, one of the loops in it.
#[cycle(exits)]
fn exits(deep: bool, item: &Item) -> bool
    ensures { result ≡ exits_in deep (effect_of item.now) }
{
    match item {
        Item::Nothing => false,
        Item::Assign(_) => false,
        Item::Observe(_) => false,
        Item::Branch(_, arms, _, otherwise) => {
            arms_exit(deep, arms.get().as_slice()) || have_exits(deep, otherwise.get().as_slice())
        }
        Item::Loop(_, body) => deep && have_exits(deep, body.as_slice()),
    }
}

/// Whether one of the arms does so.
#[cycle(exits)]
fn arms_exit(deep: bool, arms: &[Arm]) -> bool
    ensures { result ≡ arms_exit deep arms.now }
{
    for arm in arms {
        if arm.is_exit || have_exits(deep, arm.body.as_slice()) {
            return true;
        }
    }
    false
}

/// Whether one of the items leaves the loop around it, or, where `deep`, one of the loops in it.
#[cycle(exits)]
pub fn have_exits(deep: bool, items: &[Item]) -> bool
    ensures { result ≡ exits_in deep (effect_in items.now) }
{
    for item in items {
        if exits(deep, item) {
            return true;
        }
    }
    false
}
