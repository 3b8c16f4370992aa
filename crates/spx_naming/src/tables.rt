// The tables of a program: its variables and its types.
ghost use Rattle.std.specs.Prelude.{◌≡◌, ◌∷◌, ◌++◌, [], IfOk, OnOk, map};
ghost use Rattle.spx_core.specs.declared.program.TypeForm.TheVariants.{Scalar};
ghost use Rattle.spx_core.specs.ResolvedDeclarations.{row_with};
ghost use Rattle.spx_core.specs.Resolved.{standard_types, var_of};

use spx_core::{
    BOOLEAN, Defining, Entity, INTEGER, NATURAL, POSITIVE, Subtype, TypeForm, TypeRow, UNIVERSAL,
    Var, VarKind,
};
use spx_text::Text;
use spx_types::row_with;
use sqlite_items::Items;
use std::alloc::{AllocError, Global};

/// The tables of a program, as far as they are made.
#[derive(Drop)]
pub struct Tables {
    pub vars: Items<Var>,
    pub types: Items<TypeRow>,
}

/// One more predefined type. It has no parts.
fn add_type(
    alloc: Global,
    types: &mut Items<TypeRow>,
    name: &[u8],
    subtype: Subtype,
) -> Result<(), AllocError>
    ensures { OnOk result (types.new ≡ types.old ++ (record { name = name.now; subtype = subtype; form = Scalar }) ∷ []) }
{
    let name = Text::new(alloc, name)?;
    types.push(TypeRow {
        name,
        subtype,
        form: TypeForm::Scalar,
    })
}

/// The table of the predefined types, each at the position that is its id.
fn predefined_types(alloc: Global) -> Result<Items<TypeRow>, AllocError>
    ensures { IfOk result (λ types. types ≡ standard_types) }
{
    let mut types = Items::new(alloc);
    add_type(alloc, &mut types, b"universal_integer", UNIVERSAL)?;
    add_type(alloc, &mut types, b"Boolean", BOOLEAN)?;
    add_type(alloc, &mut types, b"Integer", INTEGER)?;
    add_type(alloc, &mut types, b"Natural", NATURAL)?;
    add_type(alloc, &mut types, b"Positive", POSITIVE)?;
    Ok(types)
}

impl Tables {
    /// Before the first unit, only predefined types.
    pub fn new(alloc: Global) -> Result<Tables, AllocError>
        ensures { IfOk result (λ tables. (tables.vars ≡ []) × (tables.types ≡ standard_types)) }
    {
        Ok(Tables {
            vars: Items::new(alloc),
            types: predefined_types(alloc)?,
        })
    }
}

/// The variable that a declared name is.
fn var_of(alloc: Global, name: &Defining) -> Result<Var, AllocError>
    ensures { IfOk result (λ var. var ≡ var_of name.now) }
{
    let word = name.name.text.copy(alloc)?;
    match name.entity {
        Entity::Variable(_, object) => Ok(Var {
            name: word,
            kind: object.kind,
            type_id: object.subtype.id,
        }),
        _ => Ok(Var {
            name: word,
            kind: VarKind::Local,
            type_id: UNIVERSAL.id,
        }),
    }
}

/// The variables that are declared come after those before them.
pub fn add_variables(
    alloc: Global,
    vars: &mut Items<Var>,
    declared: &[Defining],
) -> Result<(), AllocError>
    ensures { OnOk result (vars.new ≡ vars.old ++ map var_of declared.now) }
{
    for name in declared {
        vars.push(var_of(alloc, name)?)?;
    }
    Ok(())
}

/// The type that is declared comes after those before it. Its values are made of this.
pub fn add_row(
    alloc: Global,
    types: &mut Items<TypeRow>,
    form: TypeForm,
    name: &Defining,
) -> Result<(), AllocError>
    ensures { OnOk result (types.new ≡ types.old ++ row_with form name.now ∷ []) }
{
    types.push(row_with(alloc, form, name)?)
}
