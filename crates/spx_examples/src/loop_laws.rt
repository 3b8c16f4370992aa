// What `while` loops do, flow and ask for, mostly as commands. Each law is the contract of a function that does nothing.
ghost use Rattle.std.specs.Prelude.{◌≡◌, ◌↔◌, ◌⊎◌, ℕ, pos, [], ◌∷◌, length};
ghost use Rattle.spx_tree.specs.Form.{forms_of};
ghost use Rattle.spx_tree.specs.Grammar.{IsFile};
ghost use Rattle.spx_tree.specs.Spells.{Spells};
ghost use Rattle.spx_tree.specs.Written.{written};
ghost use Rattle.spx_core.specs.declared.entity.VarId.{VarId};
ghost use Rattle.spx_core.specs.Commands.{commands};
ghost use Rattle.spx_core.specs.Effects.{effect};
ghost use Rattle.spx_core.specs.Flow.{MayFlow};
ghost use Rattle.spx_core.specs.Marks.{marked};
ghost use Rattle.spx_core.specs.Resolved.{resolved};
ghost use Rattle.spx_core.specs.Ways.{Free, Goes, Reaches};
ghost use Rattle.spx_term.specs.Steps.{Tree};
ghost use Rattle.spx_meaning.specs.Frames.{Frame};
ghost use Rattle.spx_meaning.specs.Runs.{Ended, Later, run};
ghost use Rattle.spx_meaning.specs.Stores.{Store};
ghost use Rattle.spx_paths.specs.Walks.{arrivals, cut_arrivals, cuts};
ghost use Rattle.spx_examples.specs.Flag.{y};
ghost use Rattle.spx_examples.specs.Increment.{place, x};
ghost use Rattle.spx_examples.specs.Loops.{asserting, asserting_from_cut, asserting_in_arm, branching, branching_and_asserting, copying_after, copying_in, counting, counting_again, counting_from_cut, deciding, endless, m, only, passing_on, passing_turn_by_turn, runs_from};
ghost use Rattle.spx_examples.specs.LoopText.{loop_bytes, loop_command, loop_program, loop_sub, loop_tokens, loop_units};
ghost use Rattle.spx_examples.specs.Refused.{inc_without_pre, increment_without_pre};
ghost use Rattle.spx_examples.specs.VariableRules.{z};
ghost use Rattle.spx_examples.specs.Variants.{number};

/// `while X < 100 loop X := X + 1; end loop` from 98 takes two turns: it ends at the bound 2, and not at 1. From 100 it takes none. The statement after a
/// loop has the whole bound again, and so has a second loop.
pub fn a_loop_ends_within_its_bound()
    ensures ended { runs_from 2 (pos 98) counting ≡ Ended (number (pos 100) ∷ []) }
    ensures later { runs_from 1 (pos 98) counting ≡ Later }
    ensures no_turn { runs_from 0 (pos 100) counting ≡ Ended (number (pos 100) ∷ []) }
    ensures again { runs_from 2 (pos 98) counting_again ≡ Ended (number (pos 100) ∷ []) }
{}

/// `while True loop null; end loop` ends at no bound, and nothing fails in it.
pub fn a_loop_without_end_is_later()
    ensures { (f : Frame) (n : ℕ) (s : Store) → run f n s endless ≡ Later }
{}

/// `while Y > 0 loop X := 1; end loop`: Y, which only the test reads, comes to X, which the body sets, and stays in Y; it comes to nothing else.
pub fn what_a_test_reads_comes_to_what_the_body_sets()
    ensures { (v : VarId) → MayFlow (effect deciding) y v ↔ ((v ≡ x) ⊎ (v ≡ y)) }
{}

/// `X := Y; Y := Z`: from Z to X there is no flow. Where these are the body of a loop there is one, which needs two turns; and what Y is given in one turn
/// comes to X in the next.
pub fn a_flow_may_need_two_turns()
    ensures one { ¬ MayFlow (effect passing_on) z x }
    ensures two { MayFlow (effect passing_turn_by_turn) z x }
    ensures marked { MayFlow (marked (place 7 7) m (effect passing_turn_by_turn)) m x }
{}

/// A way past a loop needs no turn: what only its body sets may be unset after it. In the body it is set where a statement before has set it.
pub fn a_loop_may_have_no_turn()
    ensures past { Free (Goes (effect deciding)) x }
    ensures read_after { Free (Reaches (effect copying_after) (place 8 9) x) x }
    ensures read_in { ¬ Free (Reaches (effect copying_in) (place 7 12) x) x }
{}

/// A loop has one cut before its body, from which neither its test nor anything before it is known. Where one of the statements of its body is an `assert`,
/// that is its cut, and there is no other; one in an arm is a second cut.
pub fn a_loop_has_a_cut()
    ensures without { (rest leave : ℕ → Tree) → cuts increment_without_pre inc_without_pre [] counting rest leave ≡ counting_from_cut (rest 0) ∷ [] }
    ensures own { (rest leave : ℕ → Tree) → cuts increment_without_pre inc_without_pre [] asserting rest leave ≡ asserting_from_cut (rest 0) ∷ [] }
    ensures in_arm { (rest leave : ℕ → Tree) → length (cuts increment_without_pre inc_without_pre [] asserting_in_arm rest leave) ≡ 2 }
{}

/// Paths are counted so. Before a loop with a branch in its body there are the path to its cut and the path past it; each arm goes on from the cut to both.
/// With an `assert` after the branch there are two paths to that and one past the loop, and from the `assert` these three again.
pub fn paths_of_loops_are_counted()
    ensures without { arrivals branching 1 1 ≡ 2 }
    ensures from_cut { cut_arrivals branching 1 1 ≡ 4 }
    ensures own { arrivals branching_and_asserting 1 1 ≡ 3 }
    ensures from_own { cut_arrivals branching_and_asserting 1 1 ≡ 3 }
{}

/// The text of a procedure with a loop: it is these tokens, units of two levels are written with these tokens, those units are resolved to the program, and
/// the body of the program is this loop as a command.
pub fn a_loop_is_read()
    ensures spelled { Spells 0 loop_bytes loop_tokens }
    ensures grammatical { IsFile 2 loop_units }
    ensures as_written { written loop_units ≡ forms_of loop_bytes loop_tokens }
    ensures made { resolved loop_units ≡ loop_program }
    ensures command { commands loop_sub.statements ≡ only loop_command }
{}
