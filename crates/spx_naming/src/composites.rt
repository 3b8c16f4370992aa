// Declarations of array and record types (Ada 95 RM 3.6, 3.8).
ghost use Rattle.std.specs.Prelude.{◌≡◌, ◌∷◌, ◌++◌, [], IfOk, length};
ghost use Rattle.spx_core.specs.declared.entity.Entity.TheVariants as entity;
ghost use Rattle.spx_core.specs.declared.statement.CoreDecl.TheVariants as decl;
ghost use Rattle.spx_core.specs.ResolvedExpressions.{resolved_reference};
ghost use Rattle.spx_core.specs.DeclaredNames.{around_names, declaring_all, defining};
ghost use Rattle.spx_core.specs.ResolvedDeclarations.{array_decl, composite_type, declared_by, declared_by_definition, record_decl, resolved_field, resolved_fields, rows_by};
ghost use Rattle.spx_scope.specs.Seen.{seen};

use crate::meaning::composite_type;
use crate::names::declare_all;
use crate::parts::resolve_type_name;
use crate::types::declare_type;
use spx_core::{CoreDecl, CoreFieldDecl, CoreTypeDef, Entity, Meaning, TypeRow};
use spx_scope::{Region, Scope};
use spx_text::Place;
use spx_tree::{FieldDecl, Identifier, Name};
use spx_types::{form_of, subtype_of};
use sqlite_items::{Boxed, Items};
use std::alloc::{AllocError, Global};
use std::slice;

/// A type of values with parts, which these are. They declare no name around the type.
fn declare_composite(
    alloc: Global,
    region: &mut Region,
    types: &mut Items<TypeRow>,
    outer: &Scope<'_>,
    name: &Identifier,
    definition: Boxed<CoreTypeDef>,
) -> Result<CoreDecl, AllocError>
    requires { declared_by_definition definition ≡ [] }
    ensures { IfOk result (λ d. (d ≡ decl.FullType (defining region.old (entity.TypeName (composite_type (length types.old))) name.now) definition) × (region.new ≡ declaring_all region.old (declared_by d)) × (types.new ≡ types.old ++ rows_by d)) }
{
    let form = form_of(alloc, definition.get())?;
    let subtype = composite_type(types.len());
    let name = declare_type(alloc, region, types, outer, subtype, form, name)?;
    Ok(CoreDecl::FullType(name, definition))
}

/// An array type with this index and these elements.
pub fn resolve_array(
    alloc: Global,
    region: &mut Region,
    types: &mut Items<TypeRow>,
    outer: &Scope<'_>,
    name: &Identifier,
    place: Place,
    index: &Name,
    element: &Name,
) -> Result<CoreDecl, AllocError>
    ensures { IfOk result (λ d. (d ≡ array_decl region.old (length types.old) name.now place (resolved_reference (around_names (seen outer.now) region.old (name.now ∷ [])) index.now) (resolved_reference (around_names (seen outer.now) region.old (name.now ∷ [])) element.now)) × (region.new ≡ declaring_all region.old (declared_by d)) × (types.new ≡ types.old ++ rows_by d)) }
{
    let hidden = slice::from_ref(name);
    let index = resolve_type_name(alloc, region, outer, hidden, index)?;
    let element = resolve_type_name(alloc, region, outer, hidden, element)?;
    let definition = CoreTypeDef::Array(place, index.into_inner(), element.into_inner());
    let definition = Boxed::new(alloc, definition)?;
    declare_composite(alloc, region, types, outer, name, definition)
}

/// Fields of one type, in a region inside others.
fn resolve_field(
    alloc: Global,
    region: &mut Region,
    outer: &Scope<'_>,
    field: &FieldDecl,
) -> Result<CoreFieldDecl, AllocError>
    ensures { IfOk result (λ f. (f ≡ resolved_field (seen outer.now) region.old field.now) × (region.new ≡ declaring_all region.old f.names)) }
{
    let names = field.names.as_slice();
    let type_name = resolve_type_name(alloc, region, outer, names, &field.type_name)?;
    let meaning = Meaning::Each(Entity::Field(subtype_of(type_name.get().root.entity)));
    let names = declare_all(alloc, region, outer, meaning, 0, names)?;
    let type_name = type_name.into_inner();
    Ok(CoreFieldDecl { names, type_name })
}

/// The fields of a record type, in a region of its own: each sees the names of those before it.
fn resolve_fields(
    alloc: Global,
    outer: &Scope<'_>,
    fields: &[FieldDecl],
) -> Result<Items<CoreFieldDecl>, AllocError>
    ensures { IfOk result (λ fs. fs ≡ resolved_fields (seen outer.now) [] fields.now) }
{
    let mut region = Region::new(alloc)?;
    let mut resolved = Items::new(alloc);
    for field in fields {
        resolved.push(resolve_field(alloc, &mut region, outer, field)?)?;
    }
    Ok(resolved)
}

/// The fields of a record type with this name, which is hidden around them.
fn resolve_parts(
    alloc: Global,
    region: &Region,
    outer: &Scope<'_>,
    name: &Identifier,
    fields: &[FieldDecl],
) -> Result<Items<CoreFieldDecl>, AllocError>
    ensures { IfOk result (λ fs. fs ≡ resolved_fields (around_names (seen outer.now) region.now (name.now ∷ [])) [] fields.now) }
{
    let around = Scope::inside(region, outer);
    let around = Scope::hiding(slice::from_ref(name), &around);
    resolve_fields(alloc, &around, fields)
}

/// A record type with these fields, the last of which is followed by `end`.
pub fn resolve_record(
    alloc: Global,
    region: &mut Region,
    types: &mut Items<TypeRow>,
    outer: &Scope<'_>,
    name: &Identifier,
    fields: &[FieldDecl],
    end: Place,
) -> Result<CoreDecl, AllocError>
    ensures { IfOk result (λ d. (d ≡ record_decl region.old (length types.old) name.now (resolved_fields (around_names (seen outer.now) region.old (name.now ∷ [])) [] fields.now) end) × (region.new ≡ declaring_all region.old (declared_by d)) × (types.new ≡ types.old ++ rows_by d)) }
{
    let fields = resolve_parts(alloc, region, outer, name, fields)?;
    let definition = Boxed::new(alloc, CoreTypeDef::Record(fields, end))?;
    declare_composite(alloc, region, types, outer, name, definition)
}
