//! The lexer: from the bytes of a file to its tokens (Ada 95 RM 2), those of annotation text among them.
//!
//! A layer above may rely on this: the tokens that `lex` answers are the ones that spell the text, and lie within it.
//! A fault says where and why the text is stopped, that it has more than `MOST_TOKENS` tokens, or that memory ran out. `lex_least` answers
//! the tokens of a text that ends in the number `2**127`, which is one too great, up to this number.
#![tactic(auto)]

mod laws;
mod lexer;

pub use laws::{one_least, some_least, some_spelling};
pub use lexer::{LexFault, MOST_TOKENS, Tokens, lex, lex_least};
