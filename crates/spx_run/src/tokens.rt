// Tokens of a line of inputs.
ghost use Rattle.std.specs.Prelude.{◌≡◌, length, IfOk};
ghost use Rattle.spx_tree.specs.Form.{spelling};
ghost use Rattle.spx_tree.specs.Mirror.{IsWithin};
ghost use Rattle.spx_run.specs.Mirror as spec;

use spx_text::Text;
use spx_tree::{Kind, Token};
use std::alloc::{AllocError, Global};

/// Whether two kinds are one.
#[tactic(auto, unfolding(crate::specs::Mirror::same_kind))]
fn same_kind(a: Kind, b: Kind) -> bool
    ensures { result ≡ spec.same_kind a b }
{
    a == b
}

/// Whether the token is one of this kind that is not in annotation text.
pub(crate) fn is_token(kind: Kind, token: &Token) -> bool
    ensures { result ≡ spec.is_token kind token.now }
{
    same_kind(token.kind, kind) && !token.marked
}

/// The bytes of a token.
pub(crate) fn spelled(alloc: Global, source: &[u8], token: &Token) -> Result<Text, AllocError>
    requires { IsWithin (length source.now) token.now }
    ensures { IfOk result (λ text. text ≡ spelling source.now token.now) }
{
    Text::new(alloc, &source[token.first..token.after])
}
