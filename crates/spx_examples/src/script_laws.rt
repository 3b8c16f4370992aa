//! What the steps of proofs do to the sequents of a loop that doubles, one step after another. Each law is the contract of a function that does nothing.
//! N, S and I are integers. Each turn adds 1 to I and 2 to S, and `S = 2 * I` is asserted in the loop. It ends where I is N.
ghost use Rattle.std.specs.Prelude.{◌≡◌, pos, negsuc, Ok, [], ◌∷◌};
ghost use Rattle.spx_term.specs.Values.{Types};
ghost use Rattle.spx_kernel.specs.declared.rule.RuleOf.TheVariants as rule;
ghost use Rattle.spx_kernel.specs.Sequents.{refused, IsValid};
ghost use Rattle.spx_kernel.specs.Steps.{step};
ghost use Rattle.spx_examples.specs.LinearExamples.{integer_s, equal, at_most, at_least};
ghost use Rattle.spx_examples.specs.ScriptExamples.{both, from_first, to_last, s_and_two, twice_next, twice_n, sequent, before_sum, after_sum, after_loop, of_hyp, of_goal};

/// `S + 2` is in range: `split` leaves its two bounds, the lower one is plain, and a linear step closes the upper one. With a negative multiplier of an
/// inequality that step does not apply.
pub fn a_sum_in_range_is_proved()
    ensures split { step (sequent before_sum (both (from_first s_and_two) (to_last s_and_two))) rule.Split ≡ Ok (sequent before_sum (from_first s_and_two) ∷ sequent before_sum (to_last s_and_two) ∷ []) }
    ensures first { step (sequent before_sum (from_first s_and_two)) rule.Plain ≡ Ok [] }
    ensures last { step (sequent before_sum (to_last s_and_two)) (rule.Linear (of_goal (pos 1) ∷ of_hyp 11 (negsuc 0) ∷ of_hyp 8 (pos 2) ∷ of_hyp 10 (pos 2) ∷ [])) ≡ Ok [] }
    ensures negative { step (sequent before_sum (to_last s_and_two)) (rule.Linear (of_goal (pos 1) ∷ of_hyp 11 (negsuc 0) ∷ of_hyp 8 (pos 2) ∷ of_hyp 9 (negsuc 1) ∷ [])) ≡ refused }
{}

/// `S + 2 = 2 * (I + 1)`, the assertion at the end of the next turn: `split` leaves two inequalities, and a linear step closes each.
pub fn the_next_turn_is_proved()
    ensures split { step (sequent after_sum (equal s_and_two twice_next)) rule.Split ≡ Ok (sequent after_sum (at_most s_and_two twice_next) ∷ sequent after_sum (at_least s_and_two twice_next) ∷ []) }
    ensures at_most { step (sequent after_sum (at_most s_and_two twice_next)) (rule.Linear (of_goal (pos 1) ∷ of_hyp 11 (negsuc 0) ∷ [])) ≡ Ok [] }
    ensures at_least { step (sequent after_sum (at_least s_and_two twice_next)) (rule.Linear (of_goal (pos 1) ∷ of_hyp 11 (pos 1) ∷ [])) ≡ Ok [] }
{}

/// `S = 2 * N` after the loop, in the same way, by multiples of two equations.
pub fn the_end_of_the_loop_is_proved()
    ensures split { step (sequent after_loop (equal integer_s twice_n)) rule.Split ≡ Ok (sequent after_loop (at_most integer_s twice_n) ∷ sequent after_loop (at_least integer_s twice_n) ∷ []) }
    ensures at_most { step (sequent after_loop (at_most integer_s twice_n)) (rule.Linear (of_goal (pos 1) ∷ of_hyp 11 (negsuc 0) ∷ of_hyp 12 (negsuc 1) ∷ [])) ≡ Ok [] }
    ensures at_least { step (sequent after_loop (at_least integer_s twice_n)) (rule.Linear (of_goal (pos 1) ∷ of_hyp 11 (pos 1) ∷ of_hyp 12 (pos 2) ∷ [])) ≡ Ok [] }
{}

/// The sequent that these steps prove is valid.
pub fn after_the_loop_s_is_twice_n()
    ensures { (types : Types) → IsValid types (sequent after_loop (equal integer_s twice_n)) }
{}
