//! What words ask for, by the definitions.
ghost use Rattle.std.specs.Prelude.{codes};
ghost use Rattle.spx_words.specs.Requests.{EachFormAsks, EachRequestIsWithin, PlainWordIsTheFile, check, conditions};

/// Words ask for something exactly where they have the form of a command.
pub fn each_form_asks()
    ensures form { EachFormAsks }
    ensures within { EachRequestIsWithin }
{}

/// Where no word begins with a dash, `check` and `conditions` take exactly one word after them, and it is the file.
pub fn plain_words()
    ensures check { PlainWordIsTheFile (codes "check") check }
    ensures conditions { PlainWordIsTheFile (codes "conditions") conditions }
{}
