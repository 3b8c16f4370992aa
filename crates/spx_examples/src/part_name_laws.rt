//! What names of parts denote. A is an array of integers at 1, 2 and 3, R a record of an integer F and a truth value G, L an array of such records, X an integer, and T the type of A.
ghost use Rattle.std.specs.Prelude.{◌≡◌, ℕ, pos, false, [], ◌∷◌, Some, None, Ok, Err, codes};
ghost use Rattle.spx_tree.specs.declared.expression.NameStep.TheVariants as step;
ghost use Rattle.spx_core.specs.declared.entity.Entity.TheVariants as entity;
ghost use Rattle.spx_core.specs.declared.entity.VarId.{VarId};
ghost use Rattle.spx_core.specs.declared.expression.CoreExpr.{CoreExpr};
ghost use Rattle.spx_core.specs.declared.expression.CoreExpr.TheVariants.{ArrayAttribute, Attribute, Entry, Name, Selected};
ghost use Rattle.spx_core.specs.declared.name.NameFault.TheVariants.{NoField, NoPart, WrongArguments};
ghost use Rattle.spx_core.specs.declared.part.PartStep.TheVariants.{Field};
ghost use Rattle.spx_core.specs.declared.program.Program.{Program};
ghost use Rattle.spx_core.specs.declared.rule.ExprType.TheVariants.{Of};
ghost use Rattle.spx_core.specs.declared.rule.RuleName.TheVariants.{N1, N3, N14};
ghost use Rattle.spx_core.specs.Judged.{judged, referred_target, typing};
ghost use Rattle.spx_core.specs.Reads.{names_read};
ghost use Rattle.spx_term.specs.declared.term.Term.{Term};
ghost use Rattle.spx_term.specs.declared.term.Term.TheVariants as term;
ghost use Rattle.spx_term.specs.declared.value.Value.TheVariants as value;
ghost use Rattle.spx_term.specs.Steps.{Tree};
ghost use Rattle.spx_meaning.specs.Evaluation.{Gives, eval};
ghost use Rattle.spx_meaning.specs.Frames.{Frame};
ghost use Rattle.spx_meaning.specs.Stores.{Store};
ghost use Rattle.spx_formula.specs.Terms.{term_of};
ghost use Rattle.spx_paths.specs.Checks.{checks};
ghost use Rattle.spx_examples.specs.Increment.{place, word};
ghost use Rattle.spx_examples.specs.PartNames.{a, a_element, annotated, applying, attribute_step, by_formal, declared, declared_ends, ends_of, f_of, l, l_element, no_target, no_value, part_at, r, selecting, t, targeted, the_f, the_g, unknown, valued, x};
ghost use Rattle.spx_examples.specs.PartPrograms.{array_type, index_type};

/// `A (I)` is an element, `R.F` the first field and `R.g` the second, and `L (I).F` a field of an element. A value on entry has parts as a present one has.
pub fn a_name_leads_to_a_part()
    ensures element { (i : CoreExpr) → valued a (applying 1 ∷ []) (i ∷ []) ≡ a_element i }
    ensures field { valued r (selecting (codes "F") ∷ []) [] ≡ f_of (Name r) }
    ensures second_field { valued r (selecting (codes "g") ∷ []) [] ≡ Selected (Name r) (word (codes "g") 6 9) the_g }
    ensures field_of_element { (i : CoreExpr) → valued l (applying 1 ∷ selecting (codes "F") ∷ []) (i ∷ []) ≡ f_of (l_element i) }
    ensures on_entry { annotated r (step.Entry ∷ selecting (codes "F") ∷ []) [] ≡ f_of (Entry r false) }
    ensures whole { valued a [] [] ≡ Name a }
{}

/// `A'First` is an attribute of the array, which is static, but in a declaration. `T'First` is that of the index of T, and `T'Pos` none of it.
pub fn an_array_has_the_ends_of_its_index()
    ensures object { valued a (attribute_step (codes "First") ∷ []) [] ≡ ArrayAttribute (Name a) (word (codes "First") 6 9) (ends_of array_type) }
    ensures in_declaration { declared a (attribute_step (codes "Last") ∷ []) [] ≡ ArrayAttribute (Name a) (word (codes "Last") 6 9) declared_ends }
    ensures of_type { valued t (attribute_step (codes "First") ∷ []) [] ≡ Attribute (record t { entity = Some (entity.TypeName index_type) }) (word (codes "First") 6 9) }
    ensures no_end { valued t (attribute_step (codes "Pos") ∷ []) [] ≡ Attribute t (word (codes "Pos") 6 9) }
    ensures first { judged (valued a (attribute_step (codes "First") ∷ []) []) ≡ Ok (typing (Of index_type.base) (Some (pos 1)) (place 6 4)) }
    ensures last { judged (valued a (attribute_step (codes "Last") ∷ []) []) ≡ Ok (typing (Of index_type.base) (Some (pos 3)) (place 6 4)) }
    ensures not_static { judged (declared a (attribute_step (codes "Last") ∷ []) []) ≡ Ok (typing (Of index_type.base) None (place 6 4)) }
{}

/// What stands before such an attribute is not evaluated and not read, and has no checks, whatever it is.
pub fn an_array_is_not_read_for_its_ends()
    ensures value { (f : Frame) (n : ℕ) (s : Store) (prefix : CoreExpr) → eval f n s (ArrayAttribute prefix (word (codes "Last") 6 9) (ends_of array_type)) ≡ Gives (value.Number (pos 3)) }
    ensures reads { (prefix : CoreExpr) → names_read (ArrayAttribute prefix (word (codes "Last") 6 9) (ends_of array_type)) ≡ [] }
    ensures term { (p : Program) (entered : VarId → Term) (prefix : CoreExpr) → term_of p entered (ArrayAttribute prefix (word (codes "First") 6 9) (ends_of array_type)) ≡ term.Number (pos 1) }
    ensures check { (p : Program) (entered : VarId → Term) (prefix : CoreExpr) (rest : Tree) → checks p entered [] (ArrayAttribute prefix (word (codes "First") 6 9) (ends_of array_type)) rest ≡ rest }
{}

/// A record has no other field, which breaks N1. An array takes one index, and it by no name, which breaks N14. A number has no parts, a record no elements, an array no fields and an
/// element no ends, which breaks N3. All are broken at the first identifier, and each name is kept as it is written.
pub fn a_name_that_leads_nowhere_is_kept()
    ensures no_field { valued r (selecting (codes "H") ∷ []) [] ≡ no_value r NoField (selecting (codes "H") ∷ []) [] }
    ensures two { (i k : CoreExpr) → valued a (applying 2 ∷ []) (i ∷ k ∷ []) ≡ no_value a WrongArguments (applying 2 ∷ []) (i ∷ k ∷ []) }
    ensures by_name { (i : CoreExpr) → valued a (by_formal ∷ []) (i ∷ []) ≡ no_value a WrongArguments (by_formal ∷ []) (i ∷ []) }
    ensures of_number { valued x (selecting (codes "F") ∷ []) [] ≡ no_value x NoPart (selecting (codes "F") ∷ []) [] }
    ensures of_record { (i : CoreExpr) → valued r (applying 1 ∷ []) (i ∷ []) ≡ no_value r NoPart (applying 1 ∷ []) (i ∷ []) }
    ensures of_array { valued a (selecting (codes "F") ∷ []) [] ≡ no_value a NoPart (selecting (codes "F") ∷ []) [] }
    ensures of_element { (i : CoreExpr) → valued a (applying 1 ∷ attribute_step (codes "First") ∷ []) (i ∷ []) ≡ no_value a NoPart (applying 1 ∷ attribute_step (codes "First") ∷ []) (i ∷ []) }
    ensures after_element { (i : CoreExpr) → valued l (applying 1 ∷ selecting (codes "H") ∷ []) (i ∷ []) ≡ no_value l NoField (applying 1 ∷ selecting (codes "H") ∷ []) (i ∷ []) }
    ensures after_entry { annotated x (step.Entry ∷ selecting (codes "F") ∷ []) [] ≡ no_value x NoPart (step.Entry ∷ selecting (codes "F") ∷ []) [] }
{}

/// The rules that such names break.
pub fn a_name_that_leads_nowhere_breaks_a_rule()
    ensures no_field { judged (valued r (selecting (codes "H") ∷ []) []) ≡ Err (record { rule = N1; place = place 6 4 }) }
    ensures two { (i k : CoreExpr) → judged (valued a (applying 2 ∷ []) (i ∷ k ∷ [])) ≡ Err (record { rule = N14; place = place 6 4 }) }
    ensures of_number { judged (valued x (selecting (codes "F") ∷ []) []) ≡ Err (record { rule = N3; place = place 6 4 }) }
    ensures of_element { (i : CoreExpr) → judged (valued a (applying 1 ∷ attribute_step (codes "First") ∷ []) (i ∷ [])) ≡ Err (record { rule = N3; place = place 6 4 }) }
    ensures undeclared { judged (valued unknown (selecting (codes "F") ∷ []) []) ≡ Err (record { rule = N1; place = place 6 4 }) }
    ensures target { referred_target (targeted r (selecting (codes "H") ∷ []) []) ≡ Err (record { rule = N1; place = place 6 4 }) }
{}

/// A target leads to a part as a value does, and nowhere where a value leads nowhere. An attribute and a value on entry are no targets, and a type has no parts.
pub fn a_target_leads_to_a_part()
    ensures field { targeted r (selecting (codes "F") ∷ []) [] ≡ part_at r (Field (word (codes "F") 6 9) the_f ∷ []) }
    ensures whole { targeted a [] [] ≡ part_at a [] }
    ensures no_field { targeted r (selecting (codes "H") ∷ []) [] ≡ no_target r NoField (selecting (codes "H") ∷ []) [] }
    ensures two { (i k : CoreExpr) → targeted a (applying 2 ∷ []) (i ∷ k ∷ []) ≡ no_target a WrongArguments (applying 2 ∷ []) (i ∷ k ∷ []) }
    ensures of_number { targeted x (selecting (codes "F") ∷ []) [] ≡ no_target x NoPart (selecting (codes "F") ∷ []) [] }
    ensures attribute { targeted a (attribute_step (codes "First") ∷ []) [] ≡ no_target a NoPart (attribute_step (codes "First") ∷ []) [] }
    ensures on_entry { targeted r (step.Entry ∷ selecting (codes "F") ∷ []) [] ≡ no_target r NoPart (step.Entry ∷ selecting (codes "F") ∷ []) [] }
    ensures of_type { targeted t (selecting (codes "F") ∷ []) [] ≡ no_target t NoPart (selecting (codes "F") ∷ []) [] }
{}
