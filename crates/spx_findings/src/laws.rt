// A law of the definitions, as the contract of a function that does nothing.
ghost use Rattle.std.specs.Prelude.{◌≡◌, List, [], ◌∷◌, codes};
ghost use Rattle.spx_term.specs.declared.condition.CondKind.TheVariants.{Overflow};
ghost use Rattle.spx_term.specs.declared.term.Term.{Term};
ghost use Rattle.spx_findings.specs.Listing.{header_line};

/// The header of a condition, as it is printed.
pub fn header_of_a_condition()
    ensures { (hyps goals : List Term) → header_line (codes "inc.adb" ∷ []) (record { name = codes "Inc.1"; kind = Overflow; place = record { file = 0; line = 6; column = 11 }; hyps = hyps; goals = goals }) ≡ codes "Inc.1 overflow inc.adb:6:11\n" }
{}
