// That `NeverBad` is false of programs of which a call can be bad, each law as the contract of a function that does nothing. There is a law for each kind of
// failure. Each law says from which store a call is bad, and that for this reason the program is not `NeverBad`.
ghost use Rattle.std.specs.Prelude.{◌≡◌, ◌≢◌, ℕ, suc, pos, negsuc, [], ◌∷◌, Option, None};
ghost use Rattle.spx_text.specs.declared.place.Place.{Place};
ghost use Rattle.spx_core.specs.declared.rule.RuleName.TheVariants.{U11};
ghost use Rattle.spx_core.specs.Obeyed.{first_rule_breach};
ghost use Rattle.spx_term.specs.declared.value.Value.{Value};
ghost use Rattle.spx_meaning.specs.declared.bad.BadKind.{BadKind};
ghost use Rattle.spx_meaning.specs.declared.bad.BadKind.TheVariants.{Assert, Check, Division, Overflow, Post, Pre, Range, Unset};
ghost use Rattle.spx_meaning.specs.Laws.{NeverBad, Start};
ghost use Rattle.spx_meaning.specs.Runs.{Bad, Ended, Later, call};
ghost use Rattle.spx_meaning.specs.Stores.{Store, look};
ghost use Rattle.spx_examples.specs.Assertions.{program_of};
ghost use Rattle.spx_examples.specs.BadPrograms.{asserting_in_turns, bad_first, bad_last, checking_natural, demanding, demanding_program, dividing, promising_too_much};
ghost use Rattle.spx_examples.specs.Increment.{place, x};
ghost use Rattle.spx_examples.specs.NameRules.{breach};
ghost use Rattle.spx_examples.specs.Refused.{inc_without_pre, increment_without_pre, x_is_last};
ghost use Rattle.spx_examples.specs.Variants.{number, local_sub, local_program, only_null, giving, the_local, out_sub, out_program, natural_sub, natural_program};

/// `X := 1 / X` is bad at the operator where X is 0.
pub fn a_division_can_be_bad()
    ensures start { Start (program_of dividing) dividing (number (pos 0) ∷ []) }
    ensures bad { (n : ℕ) → call (program_of dividing) n dividing (number (pos 0) ∷ []) ≡ Bad Division (place 6 11) }
    ensures fails { ¬ NeverBad (program_of dividing) }
{}

/// `X := X + 1` is bad at the operator where X has the last value of its type.
pub fn a_sum_can_be_bad()
    ensures start { Start increment_without_pre inc_without_pre x_is_last }
    ensures bad { (n : ℕ) → call increment_without_pre n inc_without_pre x_is_last ≡ Bad Overflow (place 6 11) }
    ensures fails { ¬ NeverBad increment_without_pre }
{}

/// `X := - X` for an X of `Natural` is bad at the value where X is 41.
pub fn a_value_outside_its_type_can_be_bad()
    ensures start { Start natural_program natural_sub (number (pos 41) ∷ []) }
    ensures bad { (n : ℕ) → call natural_program n natural_sub (number (pos 41) ∷ []) ≡ Bad Range (place 6 9) }
    ensures fails { ¬ NeverBad natural_program }
{}

/// `X := Y` is bad at the name Y, a local that nothing sets.
pub fn a_read_of_an_unset_local_can_be_bad()
    ensures start { Start (local_program (giving the_local)) (local_sub (giving the_local)) (number (pos 0) ∷ []) }
    ensures bad { (n : ℕ) → call (local_program (giving the_local)) n (local_sub (giving the_local)) (number (pos 0) ∷ []) ≡ Bad Unset (place 6 9) }
    ensures fails { ¬ NeverBad (local_program (giving the_local)) }
{}

/// `null` leaves an `out` formal unset, which is bad at `end`, though each statement ends.
pub fn an_export_left_unset_can_be_bad()
    ensures start { Start (out_program only_null) (out_sub only_null) (None ∷ []) }
    ensures bad { (n : ℕ) (x : Option Value) → call (out_program only_null) n (out_sub only_null) (x ∷ []) ≡ Bad Unset (place 7 1) }
    ensures fails { ¬ NeverBad (out_program only_null) }
{}

/// `X := X + 1` with the postcondition `X = X~` is bad at the word `post`.
pub fn a_postcondition_can_be_bad()
    ensures start { Start (program_of promising_too_much) promising_too_much (number (pos 41) ∷ []) }
    ensures bad { (n : ℕ) → call (program_of promising_too_much) n promising_too_much (number (pos 41) ∷ []) ≡ Bad Post (place 3 5) }
    ensures fails { ¬ NeverBad (program_of promising_too_much) }
{}

/// `loop assert X > 0; end loop` is bad in its first turn where X is 0, and so at each bound above 0. At the bound 0 there is no turn, and no call is bad from
/// any store: one bound is not enough.
pub fn a_turn_can_be_bad()
    ensures at_0 { (s : Store) → call (program_of asserting_in_turns) 0 asserting_in_turns s ≡ Later }
    ensures start { Start (program_of asserting_in_turns) asserting_in_turns (number (pos 0) ∷ []) }
    ensures bad { (n : ℕ) → call (program_of asserting_in_turns) (suc n) asserting_in_turns (number (pos 0) ∷ []) ≡ Bad Assert (place 6 8) }
    ensures fails { ¬ NeverBad (program_of asserting_in_turns) }
{}

/// `check X >= 0` is bad at its word where X is -1. From where X is not negative no call is bad, at any bound: stores without a negative value are not enough.
pub fn a_negative_value_can_be_bad()
    ensures ended { (n m : ℕ) (rest : Store) → call (program_of checking_natural) n checking_natural (number (pos m) ∷ rest) ≡ Ended (number (pos m) ∷ rest) }
    ensures from_others { (n : ℕ) (s : Store) → Start (program_of checking_natural) checking_natural s → ((m : ℕ) → look s x ≢ number (negsuc m)) →
        (kind : BadKind) (at : Place) → call (program_of checking_natural) n checking_natural s ≢ Bad kind at }
    ensures start { Start (program_of checking_natural) checking_natural (number (negsuc 0) ∷ []) }
    ensures bad { (n : ℕ) → call (program_of checking_natural) n checking_natural (number (negsuc 0) ∷ []) ≡ Bad Check (place 6 8) }
    ensures fails { ¬ NeverBad (program_of checking_natural) }
{}

/// A call may start where the precondition is true in the store of the caller, and looks at it once more where `out` formals are unset. So with the precondition
/// `X > 0` on an `out` formal a call that may start is bad at the word `pre`. Rule U11 refuses such a precondition: it allows imports alone, which have the same
/// values in both stores. So there is no such program among those that obey the rules.
pub fn a_precondition_on_an_out_formal_can_be_bad()
    ensures refused { first_rule_breach demanding_program ≡ breach U11 3 9 }
    ensures start { Start demanding_program demanding (number (pos 1) ∷ []) }
    ensures bad { (n : ℕ) → call demanding_program n demanding (number (pos 1) ∷ []) ≡ Bad Pre (place 3 5) }
    ensures fails { ¬ NeverBad demanding_program }
{}

/// One subprogram of which a call can be bad is enough, be it the first or the last.
pub fn each_subprogram_counts()
    ensures last { ¬ NeverBad bad_last }
    ensures first { ¬ NeverBad bad_first }
{}
