// Membership tests (Ada 95 RM 4.5.2).
ghost use Rattle.std.specs.Prelude.{◌≡◌};
ghost use Rattle.spx_core.specs.Judged as rules;

use crate::names::{keeps, referred_type};
use crate::types::{has_numbers, is_of, met, three_fit};
use crate::values::{lies_in, member_value};
use spx_core::{BOOLEAN, Breach, ExprType, Reference, RuleName, Subtype, Typing};
use spx_text::Place;
use spx_tree::MemberOp;

/// The type that a whole name denotes, which has to have an order.
pub fn ordered_type(reference: &Reference) -> Result<Subtype, Breach>
    ensures { result ≡ rules.ordered_type reference.now }
{
    let subtype = referred_type(reference)?;
    let kept = has_numbers(subtype.base.class);
    keeps(RuleName::N10, reference.root.name.place, kept)?;
    Ok(subtype)
}

/// `tested in subtype`
pub fn member_of_type(
    op: MemberOp,
    place: Place,
    tested: Typing,
    subtype: Subtype,
) -> Result<Typing, Breach>
    ensures { result ≡ rules.member_of_type op place tested subtype }
{
    let of = ExprType::Of(subtype.base);
    keeps(RuleName::N10, place, is_of(subtype.base, tested.of))?;
    keeps(RuleName::N12, tested.place, lies_in(of, tested.value))?;
    Ok(Typing {
        of: ExprType::Of(BOOLEAN.base),
        value: member_value(op, tested.value, Some(subtype.first), Some(subtype.last)),
        place,
    })
}

/// `tested in low .. high`
pub fn member_of_range(
    op: MemberOp,
    place: Place,
    tested: Typing,
    low: Typing,
    high: Typing,
) -> Result<Typing, Breach>
    ensures { result ≡ rules.member_of_range op place tested low high }
{
    let of = met(met(tested.of, low.of), high.of);
    keeps(RuleName::N10, place, three_fit(tested.of, low.of, high.of))?;
    keeps(RuleName::N12, tested.place, lies_in(of, tested.value))?;
    keeps(RuleName::N12, low.place, lies_in(of, low.value))?;
    keeps(RuleName::N12, high.place, lies_in(of, high.value))?;
    Ok(Typing {
        of: ExprType::Of(BOOLEAN.base),
        value: member_value(op, tested.value, low.value, high.value),
        place,
    })
}
