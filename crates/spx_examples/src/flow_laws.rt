// What is found of the flow of small procedures, each as the contract of a function that does nothing.
ghost use Rattle.std.specs.Prelude.{◌≡◌, [], ◌∷◌, Some};
ghost use Rattle.spx_core.specs.declared.entity.Mode.TheVariants.{Out, InOut};
ghost use Rattle.spx_core.specs.declared.entity.VarKind.TheVariants.{Formal, Local};
ghost use Rattle.spx_core.specs.Dependency.{declared_pairs, pairs_of};
ghost use Rattle.spx_core.specs.FlowRules.{HasNoFlowFinding};
ghost use Rattle.spx_examples.specs.Increment.{place, x};
ghost use Rattle.spx_examples.specs.Flag.{y, flag, flag_program};
ghost use Rattle.spx_examples.specs.Found.{Finds, nothing_found};
ghost use Rattle.spx_examples.specs.Findings.{pair, from_nothing, all_from_all, declared, by_star, undeclared, overdeclared, with_formal, inc_with_local, with_local, reads_after_arm, out_with_local, gives_unset, gives_set, overwrites, decides_nothing, sets_in_both, as_flag};

/// An item declares each export with each import; with `*` an export with itself, and with no import an export with nothing. Each item counts.
pub fn each_pair_is_declared()
    ensures every_pair { pairs_of all_from_all ≡ pair x x ∷ pair y x ∷ pair x y ∷ pair y y ∷ [] }
    ensures two_exports { declared_pairs declared ≡ pair x x ∷ pair x y ∷ [] }
    ensures star { declared_pairs by_star ≡ pair x x ∷ pair x y ∷ [] }
    ensures no_import { declared_pairs undeclared ≡ pair x x ∷ from_nothing y ∷ [] }
{}

/// `X := X + 1; Y := X`. X comes to X and to Y, and this is declared, by one item or by two: nothing is found.
pub fn what_flows_as_declared_has_no_finding()
    ensures one_item { HasNoFlowFinding (with_formal declared) }
    ensures two_items { HasNoFlowFinding (with_formal by_star) }
{}

/// F1: the same body, but Y is declared to be derived from nothing. The flow from X to Y is found; the flow from X to X is declared, and so it is not.
pub fn an_undeclared_flow_is_missing()
    ensures { Finds (with_formal undeclared) undeclared (record nothing_found { missing = (x, y) ∷ [] }) }
{}

/// F2: `X := X + 1; Y := 1`, where X and Y are declared to be derived from X. That Y is, is found; X comes to X, and so this pair is not.
pub fn a_pair_that_does_not_flow_is_unused()
    ensures { Finds (with_formal overdeclared) overdeclared (record nothing_found { unused = (x, y) ∷ [] }) }
{}

/// F3: `Y := 1; Y := X`. The first value is overwritten and comes to no export, although Y is one. The second does.
pub fn an_overwritten_value_is_ineffective()
    ensures { Finds (as_flag overwrites) overwrites (record nothing_found { ineffective = place 5 4 ∷ [] }) }
{}

/// F3: `X := X + 1; Y := X` where Y is a local. The second value comes to no export, although nothing overwrites it.
pub fn a_value_of_a_local_is_ineffective()
    ensures { Finds (with_local inc_with_local) inc_with_local (record nothing_found { ineffective = place 7 4 ∷ [] }) }
{}

/// F3: `if X > 0 then null; end if; Y := X`. The condition decides nothing, although X comes to Y after it.
pub fn a_condition_that_decides_nothing_is_ineffective()
    ensures { Finds (as_flag decides_nothing) decides_nothing (record nothing_found { ineffective = place 5 4 ∷ [] }) }
{}

/// `if X > 0 then Y := 1; else Y := 0; end if`. Both arms set Y, which is not unset after them; and X comes to Y, by the condition: nothing is found.
pub fn what_both_arms_set_is_set()
    ensures { HasNoFlowFinding (as_flag sets_in_both) }
{}

/// F4: `if X > 0 then Y := 1; end if`. Y may be unset at the end. Past the arm it keeps what it held before, so that F1 is found too: from Y to Y.
pub fn what_one_arm_sets_may_be_unset()
    ensures { Finds flag_program flag (record nothing_found { missing = (y, y) ∷ []; unset = (flag.end, y) ∷ [] }) }
{}

/// F4: `if X > 0 then Y := 1; end if; X := Y` for a local Y. The way past the arm comes to the read and does not set Y.
pub fn what_one_arm_sets_is_read_unset()
    ensures { Finds (with_local reads_after_arm) reads_after_arm (record nothing_found { unset = (place 9 9, y) ∷ [] }) }
{}

/// F4: `X := Y` for a local Y, which is read before it is set. In `Y := 1; X := Y` nothing is found.
pub fn a_local_is_read_before_it_is_set()
    ensures unset { Finds (out_with_local gives_unset) gives_unset (record nothing_found { unset = (place 6 9, y) ∷ [] }) }
    ensures set { HasNoFlowFinding (out_with_local gives_set) }
{}
