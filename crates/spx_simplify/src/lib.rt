//! Sequents and claims that need no proof.
//!
//! All is judged on terms by their ids, over tables of what the facts say of each term. A layer above may rely on this:
//! `closes` is true exactly where a sequent is plain, and `closed_claims` says of each of the claims of a body, in order,
//! whether it needs no proof, and leaves the claims as they are.
#![tactic(auto)]

mod assumptions;
mod folding;
mod goals;
mod intervals;
mod judge;
mod known;
mod products;
mod simplify;

pub use simplify::{closed_claims, closes};
