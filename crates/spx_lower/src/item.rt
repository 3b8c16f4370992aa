// What statements do to variables, as a tree.
use spx_core::VarId;
use spx_text::Place;
use sqlite_items::{Boxed, Items};

/// A read of a variable, at the place of its name.
pub type Read = (Place, VarId);

/// The target, if it is a variable, what the right side reads, and the place at which a finding stands.
#[derive(Drop)]
pub struct Assignment {
    pub target: Option<VarId>,
    pub reads: Items<Read>,
    pub place: Place,
}

/// What a statement does. It has 40 bytes: what is large is in a box.
#[cycle(item)]
#[derive(Drop)]
pub enum Item {
    /// Nothing.
    Nothing,
    Assign(Boxed<Assignment>),
    /// What is read, of which nothing flows.
    Observe(Items<Read>),
    /// What is read before the test of each arm, the arms, and what is done where no test is true. With a place, it is read there too.
    Branch(Boxed<Items<Read>>, Boxed<Items<Arm>>, Option<Boxed<Place>>, Boxed<Items<Item>>),
    /// The body, as often as the head says.
    Loop(Boxed<Head>, Items<Item>),
}

/// A test and what is done where it is true.
#[cycle(item)]
#[derive(Drop)]
pub struct Arm {
    /// The place at which a finding on the test stands.
    pub place: Place,
    /// What it reads.
    pub reads: Items<Read>,
    /// Whether the arm ends with an exit from the loop around it.
    pub is_exit: bool,
    pub body: Items<Item>,
}

/// How often the body of a loop runs.
#[derive(Drop)]
pub enum Head {
    /// What the condition reads before each turn, and the place at which a finding on it stands.
    Tested(Items<Read>, Place),
    /// The parameter, what the bounds read, where they are written, and the place at which a finding on them stands.
    Counted(VarId, Option<Items<Read>>, Place),
    /// Again and again.
    Endless,
}
