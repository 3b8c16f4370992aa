// What holds of the bytes of texts, each as the contract of a function that does nothing.
ghost use Rattle.std.specs.Prelude.{◌≡◌, [], Ok, Err, codes};
ghost use Rattle.spx_tree.specs.Form.{forms_of};
ghost use Rattle.spx_tree.specs.Goes.{Answers, Expected, TooDeep, place_with};
ghost use Rattle.spx_tree.specs.Grammar.{IsExpr, IsFile};
ghost use Rattle.spx_tree.specs.Numbers.{IsNumber};
ghost use Rattle.spx_tree.specs.Places.{place_after_bytes};
ghost use Rattle.spx_tree.specs.Spells.{Spells};
ghost use Rattle.spx_tree.specs.Stops.{StopsAt, bad_byte, bad_number, too_wide};
ghost use Rattle.spx_tree.specs.Written.{program, written_expr, written};
ghost use Rattle.spx_core.specs.Erased.{Visible, erased};
ghost use Rattle.spx_core.specs.Statements.{Typed};
ghost use Rattle.spx_examples.specs.Example.{line, line_tokens, stop, stopped_line};
ghost use Rattle.spx_examples.specs.Increment.{place, successor_written, inc_units, increment};
ghost use Rattle.spx_examples.specs.IncrementText.{inc_bytes, inc_tokens};
ghost use Rattle.spx_examples.specs.Stopped.{spoiled_number, wide_number, widest_number, widest_tokens, unnamed, unnamed_tokens, cut_short, cut_short_tokens, sum, sum_tokens};

use spx_core::laws::resolution;

/// The tokens of a line with an annotation and a comment, and of a word on the next one.
pub fn a_line_is_spelled()
    ensures { Spells 0 line line_tokens }
{}

/// A line that is stopped: no word has two underscores in a row.
pub fn a_line_is_stopped()
    ensures { StopsAt 0 stopped_line bad_byte stop }
{}

/// In a number underscores do not count; digits of a base stand between two `#`, and an exponent is of the base. That a
/// number has no other value is the law `one_spelling`.
pub fn numbers_have_values()
    ensures underscores { IsNumber (codes "1_000") 1000 }
    ensures exponent { IsNumber (codes "1E+3") 1000 }
    ensures base { IsNumber (codes "16#FF#") 255 }
    ensures both { IsNumber (codes "16#f#E1") 240 }
{}

/// The bytes of examples/inc.adb are the program `increment`: they are these tokens, units of one level and no fewer are written
/// with these tokens, and those units are what the program is made from. Each of its names stands with what it denotes, and it
/// breaks no rule on names or types.
pub fn increment_is_read()
    ensures spelled { Spells 0 inc_bytes inc_tokens }
    ensures grammatical { IsFile 1 inc_units }
    ensures no_fewer_levels { ¬ IsFile 0 inc_units }
    ensures as_written { written inc_units ≡ forms_of inc_bytes inc_tokens }
    ensures made { erased increment ≡ inc_units }
    ensures visible { Visible increment }
    ensures typed { Typed increment }
{
    resolution();
}

/// Texts that are no file. A number stops the text where a letter comes at once after it, and where it is 2**127; one less is
/// still a number. After `procedure` no file goes on with `is`, and none ends: the first text is refused at its `is`, the other at
/// its end.
pub fn texts_are_stopped()
    ensures spoiled { StopsAt 0 spoiled_number bad_number (place 1 6) }
    ensures wide { StopsAt 0 wide_number too_wide (place 1 6) }
    ensures widest { Spells 0 widest_number widest_tokens }
    ensures unnamed_spelled { Spells 0 unnamed unnamed_tokens }
    ensures unnamed_answer { Answers written IsFile 200 (forms_of unnamed unnamed_tokens) (Err (Expected 1)) }
    ensures unnamed_place { place_with (place_after_bytes 0 unnamed) unnamed_tokens 1 ≡ place 1 11 }
    ensures cut_short_spelled { Spells 0 cut_short cut_short_tokens }
    ensures cut_short_answer { Answers written IsFile 200 (forms_of cut_short cut_short_tokens) (Err (Expected 0)) }
    ensures cut_short_place { place_with (place_after_bytes 0 cut_short) cut_short_tokens 0 ≡ place 2 1 }
{}

/// `X + 1` is an expression of one level: within one it is read, and within none its operator lies too deep.
pub fn a_sum_has_one_level()
    ensures spelled { Spells 0 sum sum_tokens }
    ensures read { Answers (written_expr program) IsExpr 1 (forms_of sum sum_tokens) (Ok (successor_written 1 1, [])) }
    ensures too_deep { Answers (written_expr program) IsExpr 0 (forms_of sum sum_tokens) (Err (TooDeep 2)) }
{}
