//! Places, kept text, and the outside: the files that a program loads by name and the sink that takes its text.
//!
//! A layer above may rely on this: what `load` appended is what is known of the file of that name, each failed load and
//! each failed write is counted where the object itself says so, and a text is written whole or up to a fault.
#![tactic(auto)]

mod files;
mod host;
mod memory_files;
mod memory_sink;
mod never_failing;
mod place;
mod sink;
mod text;

pub use files::{Files, LoadFault};
pub use host::{HostFiles, HostSink};
pub use memory_files::{HeldFile, MemFiles};
pub use memory_sink::MemSink;
pub use never_failing::{NoFailFiles, NoFailSink};
pub use place::Place;
pub use sink::{Failed, Sink, write_all_pieces};
pub use text::Text;
