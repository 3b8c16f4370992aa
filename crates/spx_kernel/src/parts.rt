// Parts of sequents.
ghost use Rattle.std.specs.Prelude.{◌≡◌, IfOk, option_copied};
ghost use Rattle.spx_term.specs.Folding.{folded};
ghost use Rattle.spx_kernel.specs.Sequents.{hyp_at};

use spx_term::{Sequent, Term, fold};
use sqlite_items::Boxed;
use std::alloc::{AllocError, Global};

/// The hypothesis with a number, counted from 1.
#[tactic(auto, using(crate::proofs::Layers::past_end))]
pub(crate) fn hyp_at(sequent: &Sequent, number: i128) -> Option<&Term>
    ensures { option_copied result ≡ hyp_at sequent.now number }
{
    if number < 1 {
        return None;
    }
    if number > sequent.hyps.len() as i128 {
        return None;
    }
    sequent.hyps.get((number - 1) as usize)
}

/// The term with its constant parts computed, in a box.
pub(crate) fn boxed_fold(alloc: Global, term: &Term) -> Result<Boxed<Term>, AllocError>
    ensures { IfOk result (λ r. r ≡ folded term.now) }
{
    let folded = fold(alloc, term)?;
    Boxed::new(alloc, folded)
}
