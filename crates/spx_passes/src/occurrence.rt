// What passes list, and what a pass backward ends with.

use spx_rows::{Relation, Row};
use spx_text::Place;
use sqlite_items::Items;

/// An occurrence, named by the place at which a finding on it stands, and variables, by their position in the
/// subprogram's list.
#[derive(Drop)]
pub struct Occurrence {
    pub place: Place,
    pub vars: Row,
}

/// What leads on to the variables after a body: the parts `mu` and `rho` of its flow.
#[derive(Drop)]
pub struct BackwardFlow {
    pub mu: Items<Occurrence>,
    pub rho: Relation,
}
