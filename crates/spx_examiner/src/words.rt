// What the words of a command ask for.
ghost use Rattle.std.specs.Prelude.{◌≡◌, [], ◌∷◌, IfOk, option_map, option_to_list};
ghost use Rattle.spx_text.specs.Loads.{names};
ghost use Rattle.spx_words.specs.Words.{request_of, text_of};
ghost use Rattle.spx_examiner.specs.Words as spec;

use spx_words::{CommandWords, read_words};
use std::alloc::{AllocError, Global};

/// What is printed where the words have the form of no command.
pub const USAGE: &[u8] =
    b"usage: check [--proofs FILE] FILE... | conditions FILE... | run --entry NAME [--turns N] [--inputs FILE] FILE... | workload N\n";

/// The one name of a file.
pub fn one_name(alloc: Global, file: &str) -> Result<Vec<String>, AllocError>
    ensures { IfOk result (λ all. names all.items ≡ file.now ∷ []) }
{
    let mut all = Vec::new(alloc);
    all.push(String::from_str(alloc, file)?)?;
    Ok(all)
}

/// The name of a file, and that of its inputs where there is one.
fn with_inputs(alloc: Global, file: &str, inputs: Option<&str>) -> Result<Vec<String>, AllocError>
    ensures { IfOk result (λ all. names all.items ≡ file.now ∷ option_to_list (option_map text_of inputs.entry)) }
{
    let mut all = one_name(alloc, file)?;
    if let Some(inputs) = inputs {
        all.push(String::from_str(alloc, inputs)?)?;
    }
    Ok(all)
}

/// The names of the files that are asked about, in the order in which they are loaded.
pub fn file_names(alloc: Global, command: &CommandWords<'_>) -> Result<Vec<String>, AllocError>
    ensures { IfOk result (λ all. names all.items ≡ spec.files_in (request_of command.now)) }
{
    match command {
        CommandWords::Check { file } => one_name(alloc, file),
        CommandWords::Conditions { file } => one_name(alloc, file),
        CommandWords::Run { inputs, file, .. } => with_inputs(alloc, file, *inputs),
    }
}

/// What the words ask for, and nothing where they have the form of no command.
#[tactic(auto, unfolding(crate::specs::Words::asked))]
pub fn asked<'a>(alloc: Global, words: &'a [String]) -> Result<Option<CommandWords<'a>>, AllocError>
    ensures { IfOk result (λ command. option_map request_of command ≡ spec.asked (names words.entry.now)) }
{
    read_words(alloc, words)
}
