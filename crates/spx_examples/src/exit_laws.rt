// What loops without a head and exits do, flow, ask for and break, as commands. Each law is the contract of a function that does nothing.
ghost use Rattle.std.specs.Prelude.{◌≡◌, ℕ, pos, [], ◌∷◌, List, None};
ghost use Rattle.spx_tree.specs.Form.{forms_of};
ghost use Rattle.spx_tree.specs.Grammar.{IsFile};
ghost use Rattle.spx_tree.specs.Spells.{Spells};
ghost use Rattle.spx_tree.specs.Written.{written};
ghost use Rattle.spx_core.specs.declared.entity.VarId.{VarId};
ghost use Rattle.spx_core.specs.declared.rule.RuleName.TheVariants.{U4};
ghost use Rattle.spx_core.specs.Commands.{Choose, Skip, Then, commands};
ghost use Rattle.spx_core.specs.Effects.{effect};
ghost use Rattle.spx_core.specs.Flow.{MayFlow};
ghost use Rattle.spx_core.specs.Resolved.{resolved};
ghost use Rattle.spx_core.specs.Ways.{Free, Goes, Reaches};
ghost use Rattle.spx_term.specs.Steps.{Tree};
ghost use Rattle.spx_meaning.specs.Frames.{Frame};
ghost use Rattle.spx_meaning.specs.Runs.{Ended, Later, run};
ghost use Rattle.spx_meaning.specs.Stores.{Store};
ghost use Rattle.spx_paths.specs.Walks.{arrivals, cut_arrivals, walk};
ghost use Rattle.spx_examples.specs.Exits.{after_never_left, exit_alone, exit_below, exit_first, exit_in_each, exit_last, first_breach, half_turn, loop, never_left, past_exit, set_and_exit, step_and_exit, where_below};
ghost use Rattle.spx_examples.specs.ExitText.{exit_bytes, exit_command, exit_program, exit_sub, exit_tokens, exit_units};
ghost use Rattle.spx_examples.specs.Flag.{y};
ghost use Rattle.spx_examples.specs.Increment.{place, x};
ghost use Rattle.spx_examples.specs.Loops.{only, runs_from};
ghost use Rattle.spx_examples.specs.NameRules.{breach};
ghost use Rattle.spx_examples.specs.Next.{below_hundred, forked};
ghost use Rattle.spx_examples.specs.Refused.{inc_without_pre, increment_without_pre};
ghost use Rattle.spx_examples.specs.VariableRules.{z};
ghost use Rattle.spx_examples.specs.Variants.{number};

/// `loop X := X + 1; exit when X < 100; X := X + 1; end loop` from 98 is left in the middle of its first turn, and from 99 at no bound. An exit leaves the loop
/// around it and no other: after that in the inner loop, the outer one goes on.
pub fn an_exit_leaves_the_loop_around_it()
    ensures half { runs_from 1 (pos 98) half_turn ≡ Ended (number (pos 99) ∷ []) }
    ensures later { runs_from 1 (pos 99) half_turn ≡ Later }
    ensures inner { runs_from 2 (pos 98) exit_in_each ≡ Ended (number (pos 99) ∷ []) }
    ensures with_step { runs_from 1 (pos 98) (loop (only step_and_exit)) ≡ Ended (number (pos 99) ∷ []) }
{}

/// `loop null; end loop` ends at no bound, and nothing fails in it.
pub fn a_loop_without_an_exit_is_later()
    ensures { (f : Frame) (n : ℕ) (s : Store) → run f n s never_left ≡ Later }
{}

/// What the condition of an exit reads comes to what the loop sets. What is set before the exit comes to what holds after the loop.
pub fn exits_flow()
    ensures from_test { MayFlow (effect exit_first) y x }
    ensures own { MayFlow (effect set_and_exit) z x }
{}

/// A loop without a head is left by an exit alone: where X is set before that, what it had before comes to nothing, and it is set after the loop. Where the exit
/// comes first, it may be unset.
pub fn a_loop_is_left_by_its_exits_alone()
    ensures gone { (v : VarId) → ¬ MayFlow (effect exit_last) x v }
    ensures set { ¬ Free (Goes (effect exit_last)) x }
    ensures unset { Free (Goes (effect exit_first)) x }
{}

/// After a loop that no way leaves nothing is read, so that nothing unset is.
pub fn nothing_is_read_after_a_loop_without_an_exit()
    ensures no_way { (way : List VarId) → ¬ Goes (effect never_left) way }
    ensures no_read { ¬ Free (Reaches (effect after_never_left) (place 8 9) x) x }
{}

/// Past `exit when` the way that goes on comes first; past an `if` with an exit, its arm.
pub fn the_way_past_an_exit_comes_first()
    ensures alone { (rest leave : ℕ → Tree) (made : ℕ) → walk increment_without_pre inc_without_pre exit_below rest leave made ≡ past_exit (rest made) (leave made) }
    ensures arm { (rest leave : ℕ → Tree) (made : ℕ) → walk increment_without_pre inc_without_pre (where_below (only exit_alone)) rest leave made ≡ forked (leave made) (rest made) }
{}

/// Before a loop without a head there is the path to its cut alone. From the cut there is one back to it, and through each exit those after the loop, here seven.
pub fn paths_of_exits_are_counted()
    ensures before { arrivals half_turn 7 9 ≡ 1 }
    ensures from_cut { cut_arrivals half_turn 7 9 ≡ 8 }
    ensures without { cut_arrivals never_left 7 9 ≡ 1 }
{}

/// An exit with a condition stands directly in a loop; one without is the last statement of an `if` that has no `else` and stands directly in a loop.
pub fn an_exit_elsewhere_breaks_u4()
    ensures direct { first_breach (loop (only exit_below)) ≡ None }
    ensures in_arm { first_breach (loop (only (where_below (only exit_alone)))) ≡ None }
    ensures outside { first_breach exit_below ≡ breach U4 6 7 }
    ensures with_condition { first_breach (loop (only (where_below (only exit_below)))) ≡ breach U4 6 7 }
    ensures without_if { first_breach (loop (only exit_alone)) ≡ breach U4 7 10 }
    ensures not_last { first_breach (loop (only (where_below (Then exit_alone (only Skip))))) ≡ breach U4 7 10 }
    ensures with_else { first_breach (loop (only (Choose (place 6 7) below_hundred (only exit_alone) (only Skip)))) ≡ breach U4 7 10 }
    ensures deeper { first_breach (loop (only (where_below (only (where_below (only exit_alone)))))) ≡ breach U4 7 10 }
{}

/// The text of a procedure with an exit: it is these tokens, units of two levels are written with these tokens, those units are resolved to the program, and the
/// body of the program is this loop as a command.
pub fn an_exit_is_read()
    ensures spelled { Spells 0 exit_bytes exit_tokens }
    ensures grammatical { IsFile 2 exit_units }
    ensures as_written { written exit_units ≡ forms_of exit_bytes exit_tokens }
    ensures made { resolved exit_units ≡ exit_program }
    ensures command { commands exit_sub.statements ≡ only exit_command }
{}
