// Rules.
use spx_term::Term;
use sqlite_items::Items;

/// What a linear step lists: a hypothesis by its number, or with none the goal's negation, and its multiplier.
#[derive(Clone, Copy, Debug, PartialEq, Eq)]
pub struct Entry {
    pub hyp: Option<i128>,
    pub by: i128,
}

/// A step on a sequent. Hypotheses are numbered from 1. A term is a `Term`, or in a script its text.
#[derive(Drop)]
pub enum RuleOf<T> {
    Hyp(i128),
    Plain,
    Split,
    Intro,
    PickLeft,
    PickRight,
    Cases(i128),
    UseHyp(i128),
    Cut(T),
    Inst(i128, T),
    Give(T),
    Rewrite(i128, Option<i128>),
    Linear(Items<Entry>),
    Elem,
    Div(T),
}

/// A step whose terms are read.
pub type Rule = RuleOf<Term>;
