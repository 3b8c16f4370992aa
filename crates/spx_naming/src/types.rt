// Declarations of types, subtypes and constants: none sees itself (Ada 95 RM 3.2, 3.3, 3.5).
ghost use Rattle.std.specs.Prelude.{◌≡◌, ◌∷◌, ◌++◌, [], IfOk, length, option_map};
ghost use Rattle.spx_core.specs.declared.entity.Entity.TheVariants as entity;
ghost use Rattle.spx_core.specs.declared.rule.ExprType.TheVariants.{Universal};
ghost use Rattle.spx_core.specs.ResolvedExpressions.{in_declaration, resolved_range, resolved_reference, resolved_static};
ghost use Rattle.spx_core.specs.DeclaredNames.{around_names, declaring, declaring_all, defining};
ghost use Rattle.spx_core.specs.ResolvedDeclarations.{constants_of, declared_by, enumeration_decl, integer_decl, row_with, rows_by, subtype_decl};
ghost use Rattle.spx_scope.specs.Seen.{seen};

use crate::meaning::{constant_of, enumeration_type, narrowed, range_type, static_value};
use crate::names::{declare, declare_all};
use crate::parts::{
    declared_constraint, declared_range, declared_value, resolve_type_mark, resolve_type_name,
};
use crate::tables::add_row;
use spx_core::{
    CoreDecl, CoreRange, CoreTypeDef, Defining, Entity, Meaning, Subtype, TypeForm, TypeRow,
};
use spx_scope::{Region, Scope};
use spx_text::Place;
use spx_tree::{Expr, Identifier, Name, Range};
use spx_types::subtype_of;
use sqlite_items::{Boxed, Items};
use std::alloc::{AllocError, Global};
use std::slice;

/// Declares the name of a type, which comes after those before it. Its values are made of this.
pub fn declare_type(
    alloc: Global,
    region: &mut Region,
    types: &mut Items<TypeRow>,
    outer: &Scope<'_>,
    subtype: Subtype,
    form: TypeForm,
    name: &Identifier,
) -> Result<Boxed<Defining>, AllocError>
    ensures { IfOk result (λ d. (d ≡ defining region.old (entity.TypeName subtype) name.now) × (region.new ≡ declaring region.old d) × (types.new ≡ types.old ++ row_with form d ∷ [])) }
{
    let defined = declare(alloc, region, outer, Entity::TypeName(subtype), name)?;
    add_row(alloc, types, form, &defined)?;
    Boxed::new(alloc, defined)
}

/// A type of the numbers of a resolved range.
fn declare_integer(
    alloc: Global,
    region: &mut Region,
    types: &mut Items<TypeRow>,
    outer: &Scope<'_>,
    name: &Identifier,
    range: CoreRange,
) -> Result<CoreDecl, AllocError>
    ensures { IfOk result (λ d. (d ≡ integer_decl region.old (length types.old) name.now range) × (region.new ≡ declaring_all region.old (declared_by d)) × (types.new ≡ types.old ++ rows_by d)) }
{
    let subtype = range_type(types.len(), &range);
    let form = TypeForm::Scalar;
    let name = declare_type(alloc, region, types, outer, subtype, form, name)?;
    let definition = Boxed::new(alloc, CoreTypeDef::Integer(range))?;
    Ok(CoreDecl::FullType(name, definition))
}

/// A type of the numbers of a range.
pub fn resolve_integer(
    alloc: Global,
    region: &mut Region,
    types: &mut Items<TypeRow>,
    outer: &Scope<'_>,
    name: &Identifier,
    range: &Range,
) -> Result<CoreDecl, AllocError>
    ensures { IfOk result (λ d. (d ≡ integer_decl region.old (length types.old) name.now (resolved_range (in_declaration types.old) Universal (around_names (seen outer.now) region.old (name.now ∷ [])) range.now)) × (region.new ≡ declaring_all region.old (declared_by d)) × (types.new ≡ types.old ++ rows_by d)) }
{
    let hidden = slice::from_ref(name);
    let range = declared_range(alloc, types.as_slice(), region, outer, hidden, range)?;
    declare_integer(alloc, region, types, outer, name, range)
}

/// A type of these literals, the name of which is declared before them.
pub fn resolve_enumeration(
    alloc: Global,
    region: &mut Region,
    types: &mut Items<TypeRow>,
    outer: &Scope<'_>,
    name: &Identifier,
    place: Place,
    literals: &[Identifier],
) -> Result<CoreDecl, AllocError>
    ensures { IfOk result (λ d. (d ≡ enumeration_decl region.old (length types.old) name.now place literals.now) × (region.new ≡ declaring_all region.old (declared_by d)) × (types.new ≡ types.old ++ rows_by d)) }
{
    let subtype = enumeration_type(types.len(), literals.len());
    let form = TypeForm::Scalar;
    let name = declare_type(alloc, region, types, outer, subtype, form, name)?;
    let meaning = Meaning::Literals(subtype);
    let literals = declare_all(alloc, region, outer, meaning, 0, literals)?;
    let definition = Boxed::new(alloc, CoreTypeDef::Enumeration(place, literals))?;
    Ok(CoreDecl::FullType(name, definition))
}

/// A subtype of the one that is named.
pub fn resolve_subtype(
    alloc: Global,
    region: &mut Region,
    types: &mut Items<TypeRow>,
    outer: &Scope<'_>,
    name: &Identifier,
    parent: &Name,
    range: &Option<Boxed<Range>>,
) -> Result<CoreDecl, AllocError>
    ensures { IfOk result (λ d. (d ≡ subtype_decl region.old (length types.old) name.now (resolved_reference (around_names (seen outer.now) region.old (name.now ∷ [])) parent.now) (option_map (resolved_range (in_declaration types.old) Universal (around_names (seen outer.now) region.old (name.now ∷ []))) range.now)) × (region.new ≡ declaring_all region.old (declared_by d)) × (types.new ≡ types.old ++ rows_by d)) }
{
    let hidden = slice::from_ref(name);
    let parent = resolve_type_name(alloc, region, outer, hidden, parent)?;
    let range = declared_constraint(alloc, types.as_slice(), region, outer, hidden, range)?;
    let subtype = narrowed(types.len(), subtype_of(parent.get().root.entity), &range);
    let form = TypeForm::Scalar;
    let name = declare_type(alloc, region, types, outer, subtype, form, name)?;
    Ok(CoreDecl::Subtype(name, parent, range))
}

/// Constants of this value.
pub fn resolve_constants(
    alloc: Global,
    types: &[TypeRow],
    region: &mut Region,
    outer: &Scope<'_>,
    names: &[Identifier],
    type_name: &Option<Boxed<Name>>,
    value: &Expr,
) -> Result<CoreDecl, AllocError>
    ensures { IfOk result (λ d. (d ≡ constants_of region.old names.now (option_map (resolved_reference (around_names (seen outer.now) region.old names.now)) type_name.now) (resolved_static (in_declaration types.now) (around_names (seen outer.now) region.old names.now) value.now)) × (region.new ≡ declaring_all region.old (declared_by d))) }
{
    let type_name = resolve_type_mark(alloc, region, outer, names, type_name)?;
    let value = declared_value(alloc, types, region, outer, names, value)?;
    let meaning = Meaning::Each(constant_of(&type_name, static_value(value.get())));
    let names = declare_all(alloc, region, outer, meaning, 0, names)?;
    let names = Boxed::new(alloc, names)?;
    Ok(CoreDecl::Constants(names, type_name, value))
}
