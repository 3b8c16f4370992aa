// The rows of declared types, and what their values are made of (Ada 95 RM 3.2, 3.6, 3.8).
ghost use Rattle.std.specs.Prelude.{◌≡◌, ◌++◌, IfOk, OnOk, map};
ghost use Rattle.std.specs.List.{flat_map};
ghost use Rattle.spx_core.specs.declared.program.TypeForm.TheVariants as form;
ghost use Rattle.spx_core.specs.DeclaredNames.{subtype_of};
ghost use Rattle.spx_core.specs.ResolvedDeclarations.{field_with, fields_by, form_of, referred_subtype, row_with};

use spx_core::{
    CoreFieldDecl, CoreTypeDef, Defining, Entity, Field, Reference, Subtype, TypeForm, TypeRow,
    UNIVERSAL,
};
use sqlite_items::{Boxed, Items};
use std::alloc::{AllocError, Global};

/// The subtype that a name denotes; where it denotes none, a rule is broken, and it counts as that of universal numbers.
pub fn subtype_of(entity: Option<Entity>) -> Subtype
    ensures { result ≡ subtype_of entity }
{
    match entity {
        Some(Entity::TypeName(subtype)) => subtype,
        _ => UNIVERSAL,
    }
}

/// The type that a reference names, in a box.
fn boxed_subtype(alloc: Global, reference: &Reference) -> Result<Boxed<Subtype>, AllocError>
    ensures { IfOk result (λ subtype. subtype ≡ referred_subtype reference.now) }
{
    Boxed::new(alloc, subtype_of(reference.root.entity))
}

fn array_form(alloc: Global, index: &Reference, element: &Reference) -> Result<TypeForm, AllocError>
    ensures { IfOk result (λ made. made ≡ form.Array (referred_subtype index.now) (referred_subtype element.now)) }
{
    let index = boxed_subtype(alloc, index)?;
    let element = boxed_subtype(alloc, element)?;
    Ok(TypeForm::Array(index, element))
}

/// Fields of this type come after those before them.
fn add_fields(
    alloc: Global,
    fields: &mut Items<Field>,
    subtype: Subtype,
    names: &[Defining],
) -> Result<(), AllocError>
    ensures { OnOk result (fields.new ≡ fields.old ++ map (field_with subtype) names.now) }
{
    for name in names {
        let name = name.name.text.copy(alloc)?;
        fields.push(Field { name, subtype })?;
    }
    Ok(())
}

fn record_form(alloc: Global, decls: &[CoreFieldDecl]) -> Result<TypeForm, AllocError>
    ensures { IfOk result (λ made. made ≡ form.Record (flat_map fields_by decls.now)) }
{
    let mut fields = Items::new(alloc);
    for decl in decls {
        let subtype = subtype_of(decl.type_name.root.entity);
        add_fields(alloc, &mut fields, subtype, decl.names.as_slice())?;
    }
    Ok(TypeForm::Record(fields))
}

/// What the values of a type with this definition are made of.
pub fn form_of(alloc: Global, definition: &CoreTypeDef) -> Result<TypeForm, AllocError>
    ensures { IfOk result (λ made. made ≡ form_of definition.now) }
{
    match definition {
        CoreTypeDef::Integer(_) => Ok(TypeForm::Scalar),
        CoreTypeDef::Enumeration(_, _) => Ok(TypeForm::Scalar),
        CoreTypeDef::Array(_, index, element) => array_form(alloc, index, element),
        CoreTypeDef::Record(fields, _) => record_form(alloc, fields.as_slice()),
    }
}

/// The row of a type with this name, whose values are made of this.
pub fn row_with(alloc: Global, form: TypeForm, name: &Defining) -> Result<TypeRow, AllocError>
    ensures { IfOk result (λ row. row ≡ row_with form name.now) }
{
    Ok(TypeRow {
        name: name.name.text.copy(alloc)?,
        subtype: subtype_of(Some(name.entity)),
        form,
    })
}
