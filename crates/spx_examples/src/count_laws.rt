// What loops over a parameter do, flow and ask for, mostly as commands. Each law is the contract of a function that does nothing.
ghost use Rattle.std.specs.Prelude.{◌≡◌, ℕ, pos, true, false, [], ◌∷◌, Some, None, length, slice_get};
ghost use Rattle.spx_tree.specs.Form.{forms_of};
ghost use Rattle.spx_tree.specs.Grammar.{IsFile};
ghost use Rattle.spx_tree.specs.Spells.{Spells};
ghost use Rattle.spx_tree.specs.Written.{written};
ghost use Rattle.spx_core.specs.declared.entity.VarId.{VarId};
ghost use Rattle.spx_core.specs.Commands.{Counted, Skip, commands};
ghost use Rattle.spx_core.specs.Effects.{effect};
ghost use Rattle.spx_core.specs.Flow.{MayFlow};
ghost use Rattle.spx_core.specs.Marks.{Occurs};
ghost use Rattle.spx_core.specs.Resolved.{resolved};
ghost use Rattle.spx_core.specs.Ways.{Free, Goes, Reaches};
ghost use Rattle.spx_term.specs.declared.term.Term.TheVariants as term;
ghost use Rattle.spx_term.specs.Steps.{Tree};
ghost use Rattle.spx_meaning.specs.declared.bad.BadKind.TheVariants.{Range};
ghost use Rattle.spx_meaning.specs.Runs.{Bad, Ended, Later};
ghost use Rattle.spx_paths.specs.Conditions.{conditions_of};
ghost use Rattle.spx_formula.specs.Terms.{last_name, now_term};
ghost use Rattle.spx_paths.specs.Walks.{again, arrivals, high_term};
ghost use Rattle.spx_examples.specs.CountedLoops.{after, between_numbers, each, i, only, over, runs_at, taking_i, to_next, to_previous, up_to_x, up_to_y, with_parameter};
ghost use Rattle.spx_examples.specs.Doubling.{double, double_command, double_program, post_after_turn, post_without_turn};
ghost use Rattle.spx_examples.specs.DoublingText.{double_bytes, double_tokens, double_units};
ghost use Rattle.spx_examples.specs.Flag.{flag, y};
ghost use Rattle.spx_examples.specs.Increment.{place, x};

/// `for I in Positive range 1 .. 2 loop Y := I; end loop` takes two turns, the second with 2, and in reverse the second with 1. It ends at the bound 2, and
/// not at 1. After it I is unset.
pub fn a_loop_takes_each_value()
    ensures up { runs_at 2 (each false (between_numbers (pos 1) (pos 2)) taking_i) ≡ Ended (after (pos 2)) }
    ensures down { runs_at 2 (each true (between_numbers (pos 1) (pos 2)) taking_i) ≡ Ended (after (pos 1)) }
    ensures later { runs_at 1 (each false (between_numbers (pos 1) (pos 2)) taking_i) ≡ Later }
{}

/// The bounds must lie in the type, but only where there is a value between them: `0 .. 1` is bad at its lower bound, and over `2 .. 0` there is no turn.
pub fn bounds_are_checked_where_there_is_a_value()
    ensures outside { runs_at 2 (each false (between_numbers (pos 0) (pos 1)) taking_i) ≡ Bad Range (place 5 28) }
    ensures empty { runs_at 0 (each false (between_numbers (pos 2) (pos 0)) taking_i) ≡ Ended (after (pos 0)) }
{}

/// What a bound reads comes to what the body sets, even where the body does not read the parameter. After the loop the parameter is gone: nothing comes to it,
/// and it comes to nothing.
pub fn bounds_flow_to_what_the_body_sets()
    ensures to_y { MayFlow (effect (each false up_to_x taking_i)) x y }
    ensures gone { (u : VarId) → ¬ MayFlow (effect (each false up_to_x taking_i)) u i }
    ensures from_none { ¬ MayFlow (effect (each false up_to_x taking_i)) i y }
{}

/// A loop with bounds may have no turn, so that what only its body sets may be unset after it; one without has a turn. In the body the parameter is set, and
/// after it is not.
pub fn a_loop_without_bounds_has_a_turn()
    ensures with_bounds { Free (Goes (effect (each false up_to_x taking_i))) y }
    ensures without { ¬ Free (Goes (effect (each false None taking_i))) y }
    ensures inside { ¬ Free (Reaches (effect (each false up_to_x taking_i)) (place 6 12) i) i }
    ensures after { Free (Goes (effect (each false None taking_i))) i }
{}

/// Bounds that are written are an occurrence, at the word `for`; a loop without bounds is none.
pub fn written_bounds_are_an_occurrence()
    ensures with_bounds { Occurs (effect (each false up_to_x (only Skip))) (place 5 4) }
    ensures without { ¬ Occurs (effect (each false None (only Skip))) (place 5 4) }
{}

/// A bound stands for itself where all that it reads keeps its value, as an import that is not exported does; one over an export has a name.
pub fn a_bound_that_may_change_has_a_name()
    ensures import { high_term with_parameter flag (over false up_to_x) ≡ now_term with_parameter x }
    ensures export { high_term with_parameter flag (over false up_to_y) ≡ term.Variable (last_name i) }
{}

/// At the end of a turn the parameter takes the next value, or is the last one; in reverse the one before, or is the first one.
pub fn a_turn_goes_on_to_the_next_value()
    ensures up { (into out : ℕ → Tree) (made : ℕ) → again with_parameter flag (Counted (over false up_to_x)) into out made ≡ to_next (now_term with_parameter x) (into made) (out made) }
    ensures down { (into out : ℕ → Tree) (made : ℕ) → again with_parameter flag (Counted (over true up_to_x)) into out made ≡ to_previous (term.Number (pos 1)) (into made) (out made) }
{}

/// Past a loop with bounds there are two paths, one to the cut in it and one that makes no turn; past one without there is the first alone.
pub fn a_loop_without_bounds_cannot_be_passed()
    ensures with_bounds { arrivals (each false up_to_x taking_i) 1 1 ≡ 2 }
    ensures without { arrivals (each false None taking_i) 1 1 ≡ 1 }
{}

/// The procedure `Double`, which adds up in a loop over `1 .. N` with an `assert`, has ten conditions. The sixth is its postcondition at the end of the path
/// that takes no turn, where 1 exceeds N. The last one is that at the end of the path from the `assert` out of the loop, where the parameter is N.
pub fn a_loop_asks_for_conditions()
    ensures ten { length (conditions_of double_program double) ≡ 10 }
    ensures without_turn { slice_get (conditions_of double_program double) 5 ≡ Some post_without_turn }
    ensures after_turn { slice_get (conditions_of double_program double) 9 ≡ Some post_after_turn }
{}

/// The text of `Double`: it is these tokens, units of three levels are written with these tokens, those units are resolved to its program, in which the
/// parameter of the loop is the variable after the formals, and its body is this as a command.
pub fn a_loop_over_a_parameter_is_read()
    ensures spelled { Spells 0 double_bytes double_tokens }
    ensures grammatical { IsFile 3 double_units }
    ensures as_written { written double_units ≡ forms_of double_bytes double_tokens }
    ensures made { resolved double_units ≡ double_program }
    ensures command { commands double.statements ≡ double_command }
{}
