// Parts of arrays and records (Ada 95 RM 4.1.1, 4.1.3).
ghost use Rattle.std.specs.Prelude.{◌≡◌};
ghost use Rattle.spx_core.specs.Judged as rules;

use crate::names::keeps;
use crate::types::{is_of, is_typed_at};
use crate::values::lies_in;
use spx_core::{Breach, ExprType, Indexing, RuleName, Selection, Typing};

/// An index of this array type is needed.
pub fn indexed(x: Indexing, index: Typing) -> Result<(), Breach>
    ensures { result ≡ rules.indexed x index }
{
    let base = x.index.base;
    keeps(RuleName::N10, index.place, is_of(base, index.of))?;
    let kept = lies_in(ExprType::Of(base), index.value);
    keeps(RuleName::N12, index.place, kept)
}

/// An element of a value of this array type.
pub fn element(x: Indexing, prefix: Typing, index: Typing) -> Result<Typing, Breach>
    ensures { result ≡ rules.element x prefix index }
{
    let place = prefix.place;
    keeps(RuleName::N10, place, is_typed_at(x.array, prefix.of))?;
    indexed(x, index)?;
    Ok(Typing {
        of: ExprType::Of(x.element.base),
        value: None,
        place,
    })
}

/// A field of a value of this record type.
pub fn selected(x: Selection, prefix: Typing) -> Result<Typing, Breach>
    ensures { result ≡ rules.selected x prefix }
{
    let place = prefix.place;
    keeps(RuleName::N10, place, is_typed_at(x.record, prefix.of))?;
    Ok(Typing {
        of: ExprType::Of(x.field.base),
        value: None,
        place,
    })
}
