// What declarations of array types and record types are judged to be, declare and add to the table of types, each as the contract of a function that does
// nothing. specs/CompositeTypes.antt says at which columns the parts stand.
#![tactic(auto, unfolding(spx_core::specs::Regions::standard))]

ghost use Rattle.std.specs.Prelude.{◌≡◌, Ok, None, [], ◌∷◌, codes};
ghost use Rattle.spx_core.specs.declared.entity.TheConstants.{BOOLEAN, INTEGER, NATURAL};
ghost use Rattle.spx_core.specs.declared.program.TypeForm.TheVariants.{Array, Record};
ghost use Rattle.spx_core.specs.declared.rule.RuleName.TheVariants.{N1, N2, N3, N10};
ghost use Rattle.spx_core.specs.Regions.{declared_in};
ghost use Rattle.spx_examples.specs.CompositeTypes.{array_of, broken, fields_in, judgement_of, record_of, region_after, row_of_parts, rows_of};

/// The index is of a type that has an order, and comes before the elements, which are of any type. The type is hidden in both.
pub fn an_index_has_an_order()
    ensures number { judgement_of (array_of (codes "Natural") (codes "Boolean")) ≡ Ok tt }
    ensures truth { judgement_of (array_of (codes "Boolean") (codes "Y")) ≡ broken N10 20 }
    ensures literal { judgement_of (array_of (codes "True") (codes "Y")) ≡ broken N3 20 }
    ensures undeclared { judgement_of (array_of (codes "Y") (codes "Z")) ≡ broken N1 20 }
    ensures itself { judgement_of (array_of (codes "T") (codes "Integer")) ≡ broken N1 20 }
    ensures undeclared_element { judgement_of (array_of (codes "Integer") (codes "Y")) ≡ broken N1 40 }
    ensures literal_element { judgement_of (array_of (codes "Integer") (codes "False")) ≡ broken N3 40 }
    ensures itself_as_element { judgement_of (array_of (codes "Integer") (codes "t")) ≡ broken N1 40 }
{}

/// Each field has a name that no field before it has, and that is not declared everywhere. It may be that of the record type.
pub fn a_field_has_a_name_of_its_own()
    ensures two { judgement_of (record_of (fields_in 10 (codes "P" ∷ codes "Q" ∷ []) (codes "Integer") ∷ fields_in 40 (codes "R" ∷ []) (codes "Boolean") ∷ [])) ≡ Ok tt }
    ensures together { judgement_of (record_of (fields_in 10 (codes "P" ∷ codes "p" ∷ []) (codes "Y") ∷ [])) ≡ broken N2 13 }
    ensures again { judgement_of (record_of (fields_in 10 (codes "P" ∷ []) (codes "Integer") ∷ fields_in 40 (codes "P" ∷ []) (codes "Y") ∷ [])) ≡ broken N2 40 }
    ensures everywhere { judgement_of (record_of (fields_in 10 (codes "P" ∷ []) (codes "Integer") ∷ fields_in 40 (codes "Natural" ∷ []) (codes "Integer") ∷ [])) ≡ broken N2 40 }
    ensures its_type { judgement_of (record_of (fields_in 10 (codes "T" ∷ []) (codes "Integer") ∷ [])) ≡ Ok tt }
{}

/// A field sees those before it, which are no types. The names that are declared with it, and the record type, are hidden in its type.
pub fn a_field_sees_those_before_it()
    ensures earlier { judgement_of (record_of (fields_in 10 (codes "P" ∷ []) (codes "Integer") ∷ fields_in 40 (codes "Q" ∷ []) (codes "P") ∷ [])) ≡ broken N3 60 }
    ensures later { judgement_of (record_of (fields_in 10 (codes "P" ∷ []) (codes "Q") ∷ fields_in 40 (codes "Q" ∷ []) (codes "Integer") ∷ [])) ≡ broken N1 30 }
    ensures itself { judgement_of (record_of (fields_in 10 (codes "P" ∷ []) (codes "P") ∷ [])) ≡ broken N1 30 }
    ensures beside { judgement_of (record_of (fields_in 10 (codes "P" ∷ codes "Q" ∷ []) (codes "P") ∷ [])) ≡ broken N1 30 }
    ensures its_record { judgement_of (record_of (fields_in 10 (codes "P" ∷ []) (codes "T") ∷ [])) ≡ broken N1 30 }
    ensures earlier_of_its_name { judgement_of (record_of (fields_in 10 (codes "T" ∷ []) (codes "Integer") ∷ fields_in 40 (codes "Q" ∷ []) (codes "T") ∷ [])) ≡ broken N3 60 }
{}

/// The row of the table of types says of what a value is made. Fields are in it in their order, and are not declared around the type.
pub fn a_row_says_the_parts()
    ensures array { rows_of (array_of (codes "Natural") (codes "Boolean")) ≡ row_of_parts (Array NATURAL BOOLEAN) }
    ensures record_type { rows_of (record_of (fields_in 10 (codes "P" ∷ codes "Q" ∷ []) (codes "Integer") ∷ fields_in 40 (codes "R" ∷ []) (codes "Boolean") ∷ [])) ≡ row_of_parts (Record (record { name = codes "P"; subtype = INTEGER } ∷ record { name = codes "Q"; subtype = INTEGER } ∷ record { name = codes "R"; subtype = BOOLEAN } ∷ [])) }
    ensures hidden { declared_in (region_after (record_of (fields_in 10 (codes "P" ∷ []) (codes "Integer") ∷ []))) (codes "P") ≡ None }
{}
