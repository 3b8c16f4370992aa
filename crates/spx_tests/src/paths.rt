// Paths of bodies.
use crate::types::program;
use spx_core::{Program, SubId};
use spx_paths::paths;
use std::alloc::Global;
use std::test::Fail;

const TEXT: &[u8] =
    b"procedure Clear (X : in out Integer)\nis\nbegin\n   if X > 0 then\n      X := 0;\n   end if;\nend Clear;\n";

/// How many paths the first body has.
fn path_count(alloc: Global, program: &Program) -> usize {
    if program.subs.is_empty() {
        return 0;
    }
    match paths(alloc, program, SubId(0)) {
        Ok(all) => all.len(),
        Err(_) => 0,
    }
}

#[test]
fn an_if_has_two_paths(rt: HostRuntime) -> Result<(), Fail> {
    let program = program(rt.alloc(), TEXT)?;
    assert_eq!(rt; path_count(rt.alloc(), program.get()), 2);
    Ok(())
}
