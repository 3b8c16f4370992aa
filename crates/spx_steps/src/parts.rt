// Which terms a term has among its parts.
ghost use Rattle.std.specs.Prelude.{◌≡◌, ◌<◌, ◌≤◌, ◌+◌, length, IfOk};

use spx_arena::{Node, TermId, Terms};
use sqlite_items::Items;
use std::alloc::{AllocError, Global};

/// Marks the operands of a term.
fn mark_operands(terms: &Terms, marks: &mut Items<bool>, id: TermId)
    requires { (id.0 < length terms.now) × (id.0 < length marks.old) }
    ensures { length marks.new ≡ length marks.old }
{
    match terms.node(id) {
        Node::Number(_) => return,
        Node::Truth(_) => return,
        Node::Variable(_) => return,
        Node::Prefix(_, operand) => {
            marks.set(operand.0, true);
            return;
        }
        Node::Infix(_, left, right) => {
            marks.set(left.0, true);
            marks.set(right.0, true);
            return;
        }
        Node::Blank(_) => return,
        Node::Unary(_, operand) => {
            marks.set(operand.0, true);
            return;
        }
        Node::Binary(_, left, right) => {
            marks.set(left.0, true);
            marks.set(right.0, true);
            return;
        }
        Node::Ternary(_, first, second, third) => {
            marks.set(first.0, true);
            marks.set(second.0, true);
            marks.set(third.0, true);
            return;
        }
    }
}

/// Marks the operands of all terms that are marked.
fn mark_parts(terms: &Terms, marks: &mut Items<bool>)
    requires { length marks.old ≤ length terms.now }
    ensures { length marks.new ≡ length marks.old }
{
    let mut left = marks.len();
    'terms: while left > 0 {
        left -= 1;
        if !marks.as_slice()[left] {
            continue 'terms;
        }
        mark_operands(terms, marks, TermId(left));
    }
}

/// For each term up to this one, whether it is one of its parts or the term itself.
pub fn parts_of(alloc: Global, terms: &Terms, id: TermId) -> Result<Items<bool>, AllocError>
    requires { id.0 < length terms.now }
    ensures { IfOk result (λ marks. length marks ≡ id.0 + 1) }
{
    let mut marks = Items::new(alloc);
    for at in 0..id.0 {
        let _ = at;
        marks.push(false)?;
    }
    marks.push(true)?;
    mark_parts(terms, &mut marks);
    Ok(marks)
}
