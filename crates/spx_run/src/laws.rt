//! Laws of the definitions, each as the contract of a function that does nothing.
ghost use Rattle.spx_run.specs.Laws.{OneReading, SomeReading};

use spx_lexer::{one_least, some_least, some_spelling};
use spx_tree::{one_spelling, one_stop};

/// A text of inputs is read in one way.
pub fn one_reading()
    ensures { OneReading }
{
    one_spelling();
    one_stop();
    one_least();
}

/// A text of inputs is read in some way.
pub fn some_reading()
    ensures { SomeReading }
{
    one_spelling();
    one_stop();
    one_least();
    some_spelling();
    some_least();
}
