// Which sequents are valid, and which of them need no proof, each as the contract of a function that does nothing. X, Y and Z are integers, B
// and C truth values, each the value of a variable on entry.
ghost use Rattle.std.specs.Prelude.{pos, false, [], ◌∷◌};
ghost use Rattle.spx_term.specs.declared.term.Term.{Term};
ghost use Rattle.spx_term.specs.declared.term.Term.TheVariants as term;
ghost use Rattle.spx_term.specs.declared.term.TermOp.TheVariants.{Equal};
ghost use Rattle.spx_term.specs.Meaning.{Holds, Respects, Valid};
ghost use Rattle.spx_term.specs.Plain.{Plain};
ghost use Rattle.spx_examples.specs.Types.{no_composites};
ghost use Rattle.spx_examples.specs.Increment.{entry_x};
ghost use Rattle.spx_examples.specs.Sequents.{entry_y, entry_z, entry_c, at_most, x_at_most, in_order, in_both_cases, in_both_orders, contradictory, below_next, where_x_is};

/// `X <= 5 ⊢ X <= 10` is valid and needs no proof: the interval of X lies below 10.
pub fn a_bound_within_a_bound_is_plain()
    ensures plain { Plain (x_at_most (pos 5) ∷ []) (x_at_most (pos 10)) }
    ensures valid { Valid no_composites (x_at_most (pos 5) ∷ []) (x_at_most (pos 10)) }
{}

/// `X <= Y, Y <= Z ⊢ X <= Z` is valid, and yet it is not closed: X, Y and Z have no bounds. It takes both hypotheses.
pub fn a_chain_is_valid_and_not_plain()
    ensures valid { Valid no_composites in_order (at_most entry_x entry_z) }
    ensures not_plain { ¬ Plain in_order (at_most entry_x entry_z) }
{}

/// `B -> C, not B -> C ⊢ C` is valid by cases of B, and is not closed.
pub fn cases_are_valid_and_not_plain()
    ensures valid { Valid no_composites in_both_cases entry_c }
    ensures not_plain { ¬ Plain in_both_cases entry_c }
{}

/// `X <= Y ⊢ Y <= X` is not valid. X as 0 and Y as 1 refute it: they are of their sorts, the hypothesis holds, and the goal does not.
pub fn a_converse_is_not_valid()
    ensures sorted { Respects no_composites (where_x_is (pos 0) (pos 1)) }
    ensures hypothesis { Holds no_composites (at_most entry_x entry_y) (where_x_is (pos 0) (pos 1)) }
    ensures goal { ¬ Holds no_composites (at_most entry_y entry_x) (where_x_is (pos 0) (pos 1)) }
    ensures not_valid { ¬ Valid no_composites (at_most entry_x entry_y ∷ []) (at_most entry_y entry_x) }
{}

/// Validity is over every valuation: `X <= 5` holds where X is 0 and not where X is 6, and so `⊢ X <= 5` is not valid.
pub fn one_valuation_is_not_enough()
    ensures holds { Holds no_composites (x_at_most (pos 5)) (where_x_is (pos 0) (pos 0)) }
    ensures fails { ¬ Holds no_composites (x_at_most (pos 5)) (where_x_is (pos 6) (pos 0)) }
    ensures not_valid { ¬ Valid no_composites [] (x_at_most (pos 5)) }
{}

/// But it is over values of the sorts of the names only: `X <= Y, Y <= X ⊢ X = Y` is valid since X and Y are integers.
pub fn names_have_values_of_their_sorts()
    ensures { Valid no_composites in_both_orders (term.Infix Equal entry_x entry_y) }
{}

/// With no hypotheses, what always holds is valid: `⊢ X <= X`, which folding closes, and `⊢ X < X + 1`, since integers have no bound.
pub fn some_goals_need_no_hypotheses()
    ensures plain { Plain [] (at_most entry_x entry_x) }
    ensures valid { Valid no_composites [] (at_most entry_x entry_x) }
    ensures no_bound { Valid no_composites [] below_next }
{}

/// Under `X <= 0, X >= 1`, which never hold together, each goal is valid. That they contradict each other takes a proof: `false` is not closed.
pub fn contradictory_hypotheses_prove_all()
    ensures valid { (goal : Term) → Valid no_composites contradictory goal }
    ensures not_plain { ¬ Plain contradictory (term.Truth false) }
{}
