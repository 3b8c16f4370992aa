//! The words of a command, as `clap` reads them: `check FILE`, `conditions FILE` and
//! `run --entry NAME [--turns N] [--inputs FILE] FILE`, with options anywhere after the command word, each at most once.
//!
//! A layer above may rely on this: `read_words` gives a command exactly where the words have the form of one (`HasForm`), it is
//! what the words ask for (`request`), and the turns of a run are in their range (`IsWithin`). Two laws speak of the definitions
//! only: words ask for something exactly where they have a form (`each_form_asks`), and what plain words ask for (`plain_words`).
//!
//! A command takes one file. For several, `file` gets the action `Append`, the variants of `CommandWords` and `Request` get a
//! list, and `file_in` becomes clap's `all_of`, which `get_strs` reads. A further command is one more subcommand of `spx`, one
//! more variant of both types, and one more line of `request_in`.
#![tactic(auto)]

mod command;
mod laws;
mod words;

pub use laws::{each_form_asks, plain_words};
pub use words::{CommandWords, read_words};
