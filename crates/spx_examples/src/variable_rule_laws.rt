// Which rule on variables is broken first, and where, each as the contract of a function that does nothing. The programs are
// variants of `Flag`; beside the breaches stand programs that come close and break nothing.
#![tactic(auto, unfolding(spx_core::specs::Obeyed::first_rule_breach))]

ghost use Rattle.std.specs.Prelude.{◌≡◌, [], ◌∷◌, None};
ghost use Rattle.spx_core.specs.declared.entity.Mode.TheVariants.{In, Out, InOut};
ghost use Rattle.spx_core.specs.declared.rule.RuleName.TheVariants.{U2, U7, U8, U11};
ghost use Rattle.spx_core.specs.Obeyed.{first_rule_breach};
ghost use Rattle.spx_examples.specs.Flag.{x_at, y_at, positive, relation, flag, flag_program};
ghost use Rattle.spx_examples.specs.Increment.{place, increment};
ghost use Rattle.spx_examples.specs.NameRules.{breach};
ghost use Rattle.spx_examples.specs.VariableRules.{only, x_of, y_of, z_of, item, starred, with_items, requiring, requiring_true, setting_x_if, never, with_modes, with_local_z, bare};

/// X has the mode `in`, so that `X := 1` breaks U2, also in an arm that is never run. A formal `out` or `in out` may be assigned.
pub fn an_assigned_formal_of_mode_in_breaks_u2()
    ensures broken { first_rule_breach (only (setting_x_if flag positive)) ≡ breach U2 6 7 }
    ensures never_run { first_rule_breach (only (setting_x_if flag never)) ≡ breach U2 6 7 }
    ensures mode_out { first_rule_breach flag_program ≡ None }
    ensures mode_in_out { first_rule_breach increment ≡ None }
{}

/// Y is an export twice, in `derives Y, Y from X` and in `derives Y from X & Y from X`.
pub fn an_export_named_twice_breaks_u7()
    ensures in_one_item { first_rule_breach (only (with_items (item (y_of Out 13 ∷ y_of Out 16 ∷ []) (x_of In 23 ∷ []) ∷ []))) ≡ breach U7 2 5 }
    ensures in_two_items { first_rule_breach (only (with_items (relation ∷ item (y_of Out 24 ∷ []) (x_of In 31 ∷ []) ∷ []))) ≡ breach U7 2 5 }
{}

/// An item names an import twice in `derives Y from X, X`, and also in `derives X from *, X, Y`, since `*` stands for X. Two items may
/// have an import in common.
pub fn an_import_named_twice_breaks_u7()
    ensures by_name { first_rule_breach (only (with_items (item (y_of Out 13 ∷ []) (x_of In 20 ∷ x_of In 23 ∷ []) ∷ []))) ≡ breach U7 2 5 }
    ensures by_star { first_rule_breach (with_modes InOut In (starred (x_of InOut 13 ∷ []) 20 (x_of InOut 23 ∷ y_of In 26 ∷ []) ∷ [])) ≡ breach U7 2 5 }
    ensures in_two_items { first_rule_breach (with_modes InOut Out (item (x_of InOut 13 ∷ []) (x_of InOut 20 ∷ []) ∷ item (y_of Out 24 ∷ []) (x_of InOut 31 ∷ []) ∷ [])) ≡ None }
{}

/// X is left out of `derives Y from;`. Where `derives` is not there, each formal is left out, and the place is that of the word
/// `procedure`; a procedure without formals needs none.
pub fn a_formal_left_out_breaks_u7()
    ensures left_out { first_rule_breach (only (with_items (item (y_of Out 13 ∷ []) [] ∷ []))) ≡ breach U7 2 5 }
    ensures no_relation { first_rule_breach (only (record flag { derives = None })) ≡ breach U7 1 1 }
    ensures no_formals { first_rule_breach bare ≡ None }
{}

/// Only formals are in the relation: Z in `derives Y from X, Z` is a local. No text has this program, since an annotation does not see
/// locals.
pub fn a_local_in_the_relation_breaks_u7()
    ensures { first_rule_breach (with_local_z (item (y_of Out 13 ∷ []) (x_of In 20 ∷ z_of 23 ∷ []) ∷ [])) ≡ breach U7 2 5 }
{}

/// A formal `in` is no export; `out` is no import, neither by its name nor by `*`; `in out` is both. The place is the first name that
/// shows it.
pub fn a_mode_against_the_relation_breaks_u8()
    ensures export_in { first_rule_breach (with_modes In Out (item (x_of In 13 ∷ y_of Out 16 ∷ []) (x_of In 23 ∷ []) ∷ [])) ≡ breach U8 2 13 }
    ensures import_out { first_rule_breach (with_modes In Out (item (y_of Out 13 ∷ []) (x_of In 20 ∷ y_of Out 23 ∷ []) ∷ [])) ≡ breach U8 2 23 }
    ensures star_out { first_rule_breach (with_modes In Out (starred (y_of Out 13 ∷ []) 20 (x_of In 23 ∷ []) ∷ [])) ≡ breach U8 2 13 }
    ensures export_before_import { first_rule_breach (with_modes In Out (item (x_of In 13 ∷ y_of Out 16 ∷ []) (x_of In 23 ∷ y_of Out 26 ∷ []) ∷ [])) ≡ breach U8 2 13 }
    ensures no_import { first_rule_breach (with_modes InOut Out (item (x_of InOut 13 ∷ y_of Out 16 ∷ []) [] ∷ [])) ≡ breach U8 2 13 }
    ensures no_export { first_rule_breach (with_modes InOut Out (item (y_of Out 13 ∷ []) (x_of InOut 20 ∷ []) ∷ [])) ≡ breach U8 2 20 }
{}

/// Relations with which the modes agree: `Y from X` where X is `in` and Y `out`, and where both are `in out`, `X from Y & Y from X`
/// and `X, Y from *`.
pub fn modes_agree_with_the_relation()
    ensures in_and_out { first_rule_breach (with_modes In Out (relation ∷ [])) ≡ None }
    ensures exchanged { first_rule_breach (with_modes InOut InOut (item (x_of InOut 13 ∷ []) (y_of InOut 20 ∷ []) ∷ item (y_of InOut 24 ∷ []) (x_of InOut 31 ∷ []) ∷ [])) ≡ None }
    ensures kept { first_rule_breach (with_modes InOut InOut (starred (x_of InOut 13 ∷ y_of InOut 16 ∷ []) 23 [] ∷ [])) ≡ None }
{}

/// Y is no import, so that `pre Y > 0;` breaks U11, and `pre X > 0;` does not. Nor does `pre True;`, which names no variable.
pub fn a_precondition_on_an_export_breaks_u11()
    ensures export { first_rule_breach (only (requiring flag (y_at 3 9))) ≡ breach U11 3 9 }
    ensures import { first_rule_breach (only (requiring flag (x_at 3 9))) ≡ None }
    ensures literal { first_rule_breach (only (requiring_true flag)) ≡ None }
{}

/// The rules come in the order U7, U8, U11, U2: each of these programs breaks one and those after it.
pub fn rules_on_variables_have_an_order()
    ensures u7 { first_rule_breach (only (setting_x_if (requiring (with_items (item (y_of Out 13 ∷ []) (y_of Out 20 ∷ []) ∷ [])) (x_at 3 9)) positive)) ≡ breach U7 2 5 }
    ensures u8 { first_rule_breach (only (setting_x_if (requiring (with_items (item (x_of In 13 ∷ y_of Out 16 ∷ []) (x_of In 23 ∷ []) ∷ [])) (y_at 3 9)) positive)) ≡ breach U8 2 13 }
    ensures u11 { first_rule_breach (only (setting_x_if (requiring flag (y_at 3 9)) positive)) ≡ breach U11 3 9 }
    ensures u2 { first_rule_breach (only (setting_x_if (requiring flag (x_at 3 9)) positive)) ≡ breach U2 6 7 }
{}

/// One procedure comes after another: a breach of U2 in the first comes before one of U7 in the second.
pub fn procedures_come_in_order()
    ensures { first_rule_breach (record flag_program { subs = setting_x_if flag positive ∷ record flag { place = place 9 1; derives = None } ∷ [] }) ≡ breach U2 6 7 }
{}
