// Counts of paths, in one pass over the steps.
ghost use Rattle.std.specs.Prelude.{◌≡◌, ◌<◌, ◌≤◌, ◌+◌, ◌-◌, ◌^◌, nat_lt, length, IfOk};
ghost use Rattle.spx_steps.specs.Counts.{AreCounts, capped, path_total, paths_at, paths_from};
ghost use Rattle.spx_steps.specs.Trees.{AreRoots, AreSteps, InOrder};

use crate::{Roots, Step, StepId, Steps};
use sqlite_items::Items;
use std::alloc::{AllocError, Global};

/// The sum of two counts, counted up to one past the most.
fn capped_sum(most: u32, left: u32, right: u32) -> u32
    requires { most < 2 ^ 32 - 1 }
    ensures { result ≡ capped most (left + right) }
{
    left.saturating_add(right).min(most + 1)
}

/// How many paths there are from a step, where these are the counts of those that follow it.
fn count_of(steps: &Steps, most: u32, known: &[u32], at: StepId) -> u32
    requires order { InOrder steps.now }
    requires within { at.0 < length steps.now.nodes }
    requires known { AreCounts steps.now most at.0 known.now }
    requires most { (1 ≤ most) × (most < 2 ^ 32 - 1) }
    ensures { result ≡ capped most (paths_at steps.now at.0) }
{
    match steps.step(at) {
        Step::Cut => return 1,
        Step::Assume(_, next) => return known[next.0],
        Step::Assign(_, _, next) => return known[next.0],
        Step::Fresh(_, next) => return known[next.0],
        Step::Check(_, _, _, next) => return known[next.0],
        Step::Split(first, second) => return capped_sum(most, known[first.0], known[second.0]),
    }
}

/// How many paths there are from each step.
fn counts(alloc: Global, steps: &Steps, most: u32) -> Result<Items<u32>, AllocError>
    requires order { InOrder steps.now }
    requires most { (1 ≤ most) × (most < 2 ^ 32 - 1) }
    ensures { IfOk result (AreCounts steps.now most (length steps.now.nodes)) }
{
    let mut counts = Items::new(alloc);
    for at in 0..steps.nodes.len() {
        counts.push(count_of(steps, most, counts.as_slice(), StepId(at)))?;
    }
    Ok(counts)
}

/// How many paths there are from several steps together.
fn total_of(steps: &Steps, most: u32, known: &[u32], roots: &[StepId]) -> u32
    requires known { AreCounts steps.now most (length steps.now.nodes) known.now }
    requires roots { AreSteps (length steps.now.nodes) roots.now }
    requires most { (1 ≤ most) × (most < 2 ^ 32 - 1) }
    ensures { result ≡ capped most (paths_from steps.now roots.now) }
{
    let mut total = 0;
    for root in roots {
        total = capped_sum(most, total, known[root.0]);
    }
    total
}

/// How many paths there are from all roots. What is known after a cut adds none.
fn roots_total(steps: &Steps, most: u32, known: &[u32], roots: &Roots) -> u32
    requires known { AreCounts steps.now most (length steps.now.nodes) known.now }
    requires roots { AreRoots steps.now roots.now }
    requires most { (1 ≤ most) × (most < 2 ^ 32 - 1) }
    ensures { result ≡ capped most (path_total steps.now roots.now) }
{
    let cuts = total_of(steps, most, known, roots.cuts.as_slice());
    capped_sum(most, known[roots.start.0], cuts)
}

/// Whether there are more paths than so many, from all roots together.
#[tactic(auto, using(crate::proofs::CountLaws::passes))]
pub fn has_many(alloc: Global, steps: &Steps, roots: &Roots, most: u32) -> Result<bool, AllocError>
    requires order { InOrder steps.now }
    requires roots { AreRoots steps.now roots.now }
    requires most { (1 ≤ most) × (most < 2 ^ 32 - 1) }
    ensures { IfOk result (λ many. many ≡ nat_lt most (path_total steps.now roots.now)) }
{
    let counts = counts(alloc, steps, most)?;
    let total = roots_total(steps, most, counts.as_slice(), roots);
    Ok(total > most)
}
