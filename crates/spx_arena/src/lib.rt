//! Terms that share their parts, and lists of facts that share their beginnings.
//!
//! A layer above may rely on this: equal terms have equal ids (`Terms::make`, `Terms::intern`, `Terms::distinct`), an
//! id keeps its tree while others come in (`Grows`), and a list of facts keeps its facts. Contracts see `Terms` as the
//! list of the trees, in the order of their ids, and `FactLists` as the list of the lists.
#![tactic(auto)]

mod claims;
mod facts;
mod parts;
mod terms;

pub use claims::{SharedClaim, SharedClaims};
pub use facts::{FactLists, FactsId, Link};
pub use terms::{Node, TermId, Terms, counted_sum};
