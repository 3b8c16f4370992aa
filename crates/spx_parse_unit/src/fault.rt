// Why a text is refused, and the limit of its levels.

use spx_text::Place;
use thiserror::Error;

/// How many parentheses, operators and membership tests may lie one below the other.
pub const MOST_LEVELS: u32 = 200;

/// Why tokens are no text of the grammar.
#[derive(Clone, Copy, Debug, PartialEq, Eq, Error)]
pub enum ParseFault {
    /// No text of the grammar goes on with the token at this place, or ends there.
    #[error("expected another token")]
    Expected(Place),
    /// No text of so few levels goes on with the token at this place.
    #[error("nesting too deep")]
    TooDeep(Place),
    #[error("out of memory")]
    Memory,
}
