//! Laws of the definitions, each as the contract of a function that does nothing.
ghost use Rattle.std.specs.Prelude.{◌≡◌, ◌⊎◌, ℕ, List};
ghost use Rattle.spx_text.specs.declared.place.Place.{Place};
ghost use Rattle.spx_tree.specs.Spells.{Spells};
ghost use Rattle.spx_tree.specs.Stops.{Cause, too_wide, StopsAt};
ghost use Rattle.spx_tree.specs.declared.token.Token.{Token};
ghost use Rattle.spx_tree.specs.Stops.{HasMoreTokens, most_tokens};
ghost use Rattle.spx_lexer.specs.Least.{EndsInLeast};

/// A text has at most `MOST_TOKENS` tokens, or it is stopped somewhere after no more, or more come before its end or that place.
pub fn some_spelling()
    ensures { (file : ℕ) (bytes : List ℕ) →
        ((tokens : List Token) × Spells file bytes tokens × (¬ HasMoreTokens most_tokens file bytes))
        ⊎ (((cause : Cause) × (place : Place) × StopsAt file bytes cause place × (¬ HasMoreTokens most_tokens file bytes)) ⊎ HasMoreTokens most_tokens file bytes) }
{}

/// At most one list of tokens comes before the number `2**127` in which a text ends, and this number stops the text.
pub fn one_least()
    ensures one { (file : ℕ) (bytes : List ℕ) (a b : List Token) → EndsInLeast file bytes a → EndsInLeast file bytes b → a ≡ b }
    ensures stopped { (file : ℕ) (bytes : List ℕ) (tokens : List Token) → EndsInLeast file bytes tokens → (place : Place) × StopsAt file bytes too_wide place }
{}

/// A text ends in the number `2**127` after some tokens, or it does not end in it.
pub fn some_least()
    ensures { (file : ℕ) (bytes : List ℕ) → ((tokens : List Token) × EndsInLeast file bytes tokens) ⊎ ((tokens : List Token) → ¬ EndsInLeast file bytes tokens) }
{}
