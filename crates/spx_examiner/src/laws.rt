//! What holds of the answers to words and contents.
ghost use Rattle.spx_examiner.specs.Laws.{Laws, LawsOfExistence};
ghost use Rattle.spx_examiner.specs.Outcome.{OneOutcome, OneSpelled, SomeOutcome};

use spx_core::laws::{name_breaches, one_program, rule_breaches};
use spx_lexer::some_spelling;
use spx_parse_unit::{one_answer, one_tree, some_answer};
use spx_report::laws::{one_list_of_flow_lines, some_list_of_flow_lines};
use spx_run::laws::{one_reading, some_reading};
use spx_tree::{one_spelling, one_stop};

/// The laws of the crates below.
pub(crate) fn laws_below()
    ensures { Laws }
{
    one_spelling();
    one_stop();
    one_answer();
    one_tree();
    one_program();
    name_breaches();
    rule_breaches();
    one_list_of_flow_lines();
    one_reading();
}

/// The laws of the crates below by which something is there.
fn laws_of_existence()
    ensures { LawsOfExistence }
{
    some_spelling();
    some_answer();
    name_breaches();
    rule_breaches();
    some_list_of_flow_lines();
    some_reading();
}

/// Words, and contents of the files that they name, have a judgement.
pub fn some_outcome()
    ensures { SomeOutcome }
{
    laws_of_existence();
}

/// The words and what the files hold decide the status and the text.
pub fn one_outcome()
    ensures { OneOutcome }
{
    laws_below();
}

/// A text spells at most one program.
pub fn one_program_is_spelled()
    ensures { OneSpelled }
{
    laws_below();
}
