//! The one pass over the items of a body, with its direction.
//!
//! A layer above may rely on this: `backward` answers what leads on from the variables before items, and from the occurrences in them,
//! to the variables after them, exactly as `spx_core` defines it (`LeadOn`). `forward` answers each occurrence with the variables whose
//! values before the items may come to what it reads. A variable is known by its position in a frame (`Frame`), which has to have each
//! variable that the items set or read, and exits where they have some (`Covers`). `all_targets` and `have_exits` answer what items set
//! and whether they have exits. A pass goes over a body once, however many loops it is in. An assignment costs a union of rows for each
//! variable that it reads. An arm costs a copy and a union of relations, and a union of rows for each pair of a variable that its
//! condition reads and one that it or an arm after it sets. A loop costs a closure, a few compositions, unions for its condition or its
//! bounds as for an arm, and one for each variable that an occurrence in its body is listed with. Where loops are left by exits,
//! relations have twice as many rows and one more: a variable where the loop is left is a point of its own, and so are the conditions.
#![tactic(auto)]

mod assign;
mod cut;
mod direction;
mod exits;
mod frame;
mod loops;
mod occurrence;
mod pass;
mod positions;
mod rows;
mod targets;
mod turns;

pub use exits::have_exits;
pub use frame::Frame;
pub use occurrence::{BackwardFlow, Occurrence};
pub use pass::{backward, forward};
pub use targets::{Targets, all_targets};
