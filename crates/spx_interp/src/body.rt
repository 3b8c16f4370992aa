// What surrounds a run.

use spx_core::{Program, Sub};
use spx_meaning::Value;
use std::alloc::Global;

/// The program, the subprogram whose body is run, the values with which that body began, and the allocator.
#[derive(Clone, Copy)]
pub(crate) struct Body<'a> {
    pub program: &'a Program,
    pub sub: &'a Sub,
    pub entry: &'a [Option<Value>],
    pub alloc: Global,
}
