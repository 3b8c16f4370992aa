// Linear forms.
use spx_term::Term;
use sqlite_items::Items;

/// A whole multiple of a term.
#[derive(Drop)]
pub struct Part {
    pub factor: i128,
    pub atom: Term,
}

/// A sum of multiples of terms and of a constant. An equation says that this is 0, and any other form that it is at least 0.
///
/// `linear_form` lists each atom once, where it first occurs. A factor may be 0.
#[derive(Drop)]
pub struct Form {
    pub parts: Items<Part>,
    pub constant: i128,
    pub equation: bool,
}
