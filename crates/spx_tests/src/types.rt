// Rows of declared types.
ghost use Rattle.std.specs.Prelude.{◌≤◌, length};
ghost use Rattle.spx_text.specs.Limits.{most_bytes};

use spx_core::{Program, TypeRow};
use spx_lexer::lex;
use spx_naming::make_program;
use spx_parse_unit::parse_units;
use spx_typing::type_row;
use sqlite_items::Boxed;
use std::alloc::{AllocError, Global};
use std::test::Fail;

const TEXT: &[u8] =
    b"procedure Set (X : in out Integer)\nis\n   type Count is range 0 .. 10;\n   type Colour is (Red);\n   subtype Few is Count range 1 .. 5;\n   type List is array (Few) of Colour;\n   type Pair is record P, Q : List; end record;\nbegin\n   X := 7;\nend Set;\n";

/// The program of a text.
pub fn program(alloc: Global, text: &[u8]) -> Result<Boxed<Program>, AllocError>
    requires { length text.now ≤ most_bytes }
{
    let Ok(tokens) = lex(alloc, 0, text) else {
        return Err(AllocError);
    };
    let Ok(units) = parse_units(alloc, &tokens) else {
        return Err(AllocError);
    };
    Boxed::new(alloc, make_program(alloc, units.as_slice())?)
}

/// The rows after those of the five predefined types.
fn declared(types: &[TypeRow]) -> &[TypeRow] {
    match types {
        [_, _, _, _, _, declared @ ..] => declared,
        _ => &[],
    }
}

/// Whether each declaration of a type has this row.
fn are_rows(alloc: Global, program: &Program, rows: &[TypeRow]) -> bool {
    let mut same = true;
    for sub in program.subs.as_slice() {
        for (decl, row) in sub.declarations.as_slice().iter().zip(rows) {
            same = same
                && match type_row(alloc, program, decl) {
                    Ok(made) => made.subtype == row.subtype && made.name.is_same_word(&row.name),
                    Err(_) => false,
                };
        }
    }
    same
}

#[test]
fn a_declared_type_has_a_row(rt: HostRuntime) -> Result<(), Fail> {
    let program = program(rt.alloc(), TEXT)?;
    let rows = declared(program.get().types.as_slice());
    assert_eq!(rt; rows.len(), 5);
    assert!(rt; are_rows(rt.alloc(), program.get(), rows));
    Ok(())
}
