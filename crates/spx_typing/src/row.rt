// The rows of declared types (Ada 95 RM 3.2).
ghost use Rattle.std.specs.Prelude.{◌≡◌, Some, IfOk};
ghost use Rattle.spx_typing.specs.declared.row.TypeFault.TheVariants as reason;
ghost use Rattle.spx_typing.specs.Rows.{Gives, row_declared};
ghost use Rattle.spx_core.specs.ResolvedDeclarations.{form_of, row_with};

use crate::declaration::judge_decl;
use spx_core::{Breach, CoreDecl, CoreTypeDef, Defining, Program, RuleName, TypeForm, TypeRow};
use spx_types::{form_of, row_with};
use std::alloc::{AllocError, Global};
use thiserror::Error;

/// Why a declaration has no row in the table of types.
#[derive(Clone, Copy, Debug, PartialEq, Eq, Error)]
pub enum TypeFault {
    /// The first rule that is broken in it; N3 where it breaks none and declares no type.
    #[error("a rule on names or types is broken")]
    Breach(Breach),
    #[error("out of memory")]
    Memory,
}

impl From<Breach> for TypeFault {
    ghost from_gives = { λ breach fault. fault ≡ reason.Breach breach };

    fn from(breach: Breach) -> TypeFault {
        TypeFault::Breach(breach)
    }
}

impl From<AllocError> for TypeFault {
    ghost from_gives = { λ _ fault. fault ≡ reason.Memory };

    fn from(_: AllocError) -> TypeFault {
        TypeFault::Memory
    }
}

fn row_of_type(
    alloc: Global,
    name: &Defining,
    definition: &CoreTypeDef,
) -> Result<TypeRow, AllocError>
    ensures { IfOk result (λ row. row ≡ row_with (form_of definition.now) name.now) }
{
    let form = form_of(alloc, definition)?;
    row_with(alloc, form, name)
}

/// The row that a declaration of a type or subtype adds to the table of types, or the first rule that is broken in it.
/// The program is not needed, since each node keeps the facts of its declaration.
pub fn type_row(alloc: Global, _program: &Program, decl: &CoreDecl) -> Result<TypeRow, TypeFault>
    ensures { Gives (row_declared decl.now) result }
{
    judge_decl(decl)?;
    match decl {
        CoreDecl::FullType(name, definition) => {
            Ok(row_of_type(alloc, name.get(), definition.get())?)
        }
        CoreDecl::Subtype(name, _, _) => Ok(row_with(alloc, TypeForm::Scalar, name.get())?),
        CoreDecl::Variables(_, type_name, _) => Err(TypeFault::Breach(Breach {
            rule: RuleName::N3,
            place: type_name.get().root.name.place,
        })),
        CoreDecl::Constants(_, _, value) => Err(TypeFault::Breach(Breach {
            rule: RuleName::N3,
            place: value.get().place(),
        })),
    }
}
