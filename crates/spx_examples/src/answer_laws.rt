// What the clauses on answers and on loads say, and weaker ones would not. Each law is the contract of a function that does nothing.
ghost use Rattle.std.specs.Prelude.{◌≡◌, ⊤, ℕ, true, List, [], ◌∷◌, Option, Some};
ghost use Rattle.spx_examiner.specs.declared.status.Status.TheVariants.{Accepted, Refused};
ghost use Rattle.spx_examiner.specs.Causes.{AreLoaded, AskedForFirst, Exactly, EndsAtFailure, is_too_long};
ghost use Rattle.spx_examples.specs.Answers.{both_files, inputs_file, nothing_known, program_file};

/// An answer is not given exactly where its cause holds, if it is given without it, or not given with it. One direction of the two would allow one of these.
pub fn an_answer_and_its_cause_come_together()
    ensures without_cause { ¬ Exactly Accepted ⊥ Accepted }
    ensures without_answer { ¬ Exactly Accepted ⊤ Refused }
{}

/// A load that failed is that of a file which the words name.
pub fn a_load_that_failed_is_of_a_named_file()
    ensures { ¬ EndsAtFailure nothing_known (program_file ∷ []) [] (inputs_file ∷ []) [] (inputs_file ∷ []) }
{}

/// Where the inputs are asked for first, files are not loaded in their order, and no load fails in it.
pub fn the_program_is_loaded_first()
    ensures all { ¬ AreLoaded ⊤ nothing_known both_files [] (inputs_file ∷ program_file ∷ []) }
    ensures failed { ¬ EndsAtFailure nothing_known both_files [] (inputs_file ∷ []) [] (inputs_file ∷ []) }
{}

/// After a load that failed nothing more is asked for.
pub fn a_load_that_failed_is_the_last()
    ensures { ¬ EndsAtFailure nothing_known both_files [] both_files [] (program_file ∷ []) }
{}

/// After a file that is too long nothing more is asked for: no load of a later file fails, and not all are loaded.
pub fn a_file_that_is_too_long_is_the_last()
    ensures failed { (known : List ℕ → Option (List ℕ)) (bytes : List ℕ) → known program_file ≡ Some bytes → is_too_long bytes ≡ true → ¬ EndsAtFailure known both_files [] both_files [] (inputs_file ∷ []) }
    ensures loaded { (known : List ℕ → Option (List ℕ)) (bytes : List ℕ) → known program_file ≡ Some bytes → is_too_long bytes ≡ true → ¬ AreLoaded ⊤ known both_files [] both_files }
{}

/// Where memory runs out, no file was asked for before one that the words name earlier, and none that they do not name.
pub fn what_was_asked_for_comes_first()
    ensures later { ¬ AskedForFirst both_files [] (inputs_file ∷ []) }
    ensures other { ¬ AskedForFirst (program_file ∷ []) [] (program_file ∷ inputs_file ∷ []) }
{}
