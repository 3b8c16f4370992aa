//! Laws of the grammar, each as the contract of a function that does nothing.
ghost use Rattle.std.specs.Prelude.{◌≡◌, ℕ, List, Result};
ghost use Rattle.spx_tree.specs.Form.{Form, forms_of};
ghost use Rattle.spx_tree.specs.Goes.{Answers, Fault};
ghost use Rattle.spx_tree.specs.Grammar.{IsFile};
ghost use Rattle.spx_tree.specs.Written.{written};
ghost use Rattle.spx_tree.specs.declared.subprogram.Unit.{Unit};
ghost use Rattle.spx_tree.specs.declared.token.Token.{Token};

/// The tokens of a text are read in one way: as units and what stands after them, or up to one place where no file goes
/// on, or none within 200 levels.
pub fn one_answer()
    ensures { (source : List ℕ) (tokens : List Token) (a b : Result (List Unit × List Form) Fault)
        → Answers written IsFile 200 (forms_of source tokens) a → Answers written IsFile 200 (forms_of source tokens) b → a ≡ b }
{}

/// Tokens have an answer.
pub fn some_answer()
    ensures { (source : List ℕ) (tokens : List Token) → (answer : Result (List Unit × List Form) Fault) × Answers written IsFile 200 (forms_of source tokens) answer }
{}

/// Files of the grammar that are written with the same forms are equal.
pub fn one_tree()
    ensures { (m n : ℕ) (a b : List Unit) → IsFile m a → IsFile n b → written a ≡ written b → a ≡ b }
{}
