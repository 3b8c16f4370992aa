// What facts say of terms, in tables by their ids.
ghost use Rattle.std.specs.Prelude.{◌≡◌, ◌<◌, ◌++◌, ℕ, List, [], ◌∷◌, length, if◌then◌else◌, eqb, IfOk, OnOk, MatchOption};
ghost use Rattle.spx_term.specs.declared.term.Term.{Term};
ghost use Rattle.spx_term.specs.Intervals.{bounds_before, bounded, interval, is_typed, meet};
ghost use Rattle.spx_arena.specs.Sharing.{tree_at, tree_in, Below};
ghost use Rattle.spx_simplify.specs.Folds.{place_of};
ghost use Rattle.spx_simplify.specs.Tables.{interval_at, test_at, IsAt, IsMade, Ready, Gives, Placed, Sized, Knows, Forgets, Sets, set_to, Says, said_to, Reads, ReadsNone, Restores, Keeps, HasForm};

use crate::folding::literal_at;
use crate::intervals::{
    UNBOUNDED, meet, mirrored, numbers_to, point, structural, structural_binary, structural_prefix,
    structural_unary,
};
use spx_arena::{Node, TermId, Terms};
use spx_term::{BinaryOp, Interval, TermOp, UnaryOp};
use sqlite_items::Items;
use std::alloc::{AllocError, Global};

/// How deep a call on a term may call itself on the parts of the term.
pub const MOST_DEPTH: u32 = 500;

/// The composite value of which a term reads a component.
fn whole_of(terms: &Terms, id: TermId) -> Option<TermId>
    requires { id.0 < length terms.now }
    ensures { MatchOption result (ReadsNone terms.now id) (Reads terms.now id) }
{
    match terms.node(id) {
        Node::Unary(op, operand) => match op {
            UnaryOp::Field(_, _) => return Some(operand),
            UnaryOp::In(_) => return None,
            UnaryOp::Others(_) => return None,
        },
        Node::Binary(op, left, _) => match op {
            BinaryOp::Element(_) => return Some(left),
            BinaryOp::Update(_) => return None,
            BinaryOp::Elements(_, _, _) => return None,
            BinaryOp::Field(_) => return None,
        },
        Node::Number(_) => return None,
        Node::Truth(_) => return None,
        Node::Variable(_) => return None,
        Node::Prefix(_, _) => return None,
        Node::Infix(_, _, _) => return None,
        Node::Blank(_) => return None,
        Node::Ternary(_, _, _, _) => return None,
    }
}

/// The interval of a term.
#[derive(Clone, Copy)]
struct Made {
    id: TermId,
    interval: Interval,
}

/// What the facts so far say of each term.
#[derive(Drop)]
pub struct Known {
    /// Whether it is one of them.
    facts: Items<bool>,
    /// The meet of the bounds that they set to it.
    bounds: Items<Interval>,
    /// Whether one of them says that it is in its type.
    said: Items<bool>,
    /// The place of its interval among those that are made, if it is there.
    places: Items<usize>,
    /// The intervals that are made, each after those of the parts of its term.
    made: Vec<Made>,
}

/// What the tables said before a fact came in.
#[derive(Clone, Copy)]
pub struct Change {
    pub fact: TermId,
    /// Whether it was one before.
    was: bool,
    /// The bounds of its operands, where it has two.
    left: Interval,
    right: Interval,
    /// Whether a fact said that its operand is in its type, where it has one.
    said: bool,
}

impl Known {
    /// What no fact says of so many terms.
    pub fn new(alloc: Global, count: usize) -> Result<Known, AllocError>
        ensures sized { IfOk result (Sized count) }
        ensures knows { IfOk result (λ known. (trees : List Term) → Knows trees [] known) }
    {
        let mut facts = Items::new(alloc);
        let mut bounds = Items::new(alloc);
        let mut said = Items::new(alloc);
        let mut places = Items::new(alloc);
        for at in 0..count {
            let _ = at;
            facts.push(false)?;
            bounds.push(UNBOUNDED)?;
            said.push(false)?;
            places.push(0)?;
        }
        Ok(Known {
            facts,
            bounds,
            said,
            places,
            made: Vec::new(alloc),
        })
    }

    /// Whether a term is a fact.
    pub fn has(&self, id: TermId) -> bool
        requires { id.0 < length self.now.facts }
        ensures { result ≡ test_at self.now.facts id.0 }
    {
        self.facts.as_slice()[id.0]
    }

    /// The bounds of a term.
    fn bounds_at(&self, id: TermId) -> Interval
        requires { id.0 < length self.now.bounds }
        ensures { result ≡ interval_at self.now.bounds id.0 }
    {
        self.bounds.as_slice()[id.0]
    }

    /// The place of the interval of a term, if it is made.
    fn place(&self, id: TermId) -> Option<usize>
        requires within { id.0 < length self.now.places }
        requires placed { Placed self.now }
        ensures { MatchOption result (IsMade self.now.made.items id → ⊥) (λ at. IsAt self.now.made.items at id) }
    {
        let at = self.places.as_slice()[id.0];
        if at < self.made.len() && self.made[at].id == id {
            return Some(at);
        }
        None
    }

    /// The interval of a term, if it is made.
    fn found(&self, id: TermId) -> Option<Interval>
        requires within { id.0 < length self.now.places }
        requires placed { Placed self.now }
        ensures { MatchOption result (IsMade self.now.made.items id → ⊥) (Gives self.now.made.items id) }
    {
        match self.place(id) {
            Some(at) => Some(self.made[at].interval),
            None => None,
        }
    }

    /// Forgets the interval of a term and those made after it, among which are those of all that it is a part of.
    fn forget(&mut self, id: TermId)
        requires within { id.0 < length self.old.places }
        requires placed { Placed self.old }
        ensures { Forgets self.old self.new id }
    {
        match self.place(id) {
            Some(at) => {
                self.made.truncate(at);
                return;
            }
            None => return,
        }
    }

    /// Gives a term these bounds.
    fn set_bounds(&mut self, id: TermId, bounds: Interval)
        requires bounds { id.0 < length self.old.bounds }
        requires places { id.0 < length self.old.places }
        requires placed { Placed self.old }
        ensures { (n : ℕ) → Sized n self.old → Sets n self.old self.new (set_to self.old.bounds id bounds) }
    {
        if self.bounds_at(id) == bounds {
            return;
        }
        self.bounds.set(id.0, bounds);
        self.forget(id);
    }

    /// Whether a fact says that a term is in its type.
    fn said_at(&self, id: TermId) -> bool
        requires { id.0 < length self.now.said }
        ensures { result ≡ test_at self.now.said id.0 }
    {
        self.said.as_slice()[id.0]
    }

    /// Notes whether a fact says that a term is in its type.
    fn set_said(&mut self, id: TermId, said: bool)
        requires said { id.0 < length self.old.said }
        requires places { id.0 < length self.old.places }
        requires placed { Placed self.old }
        ensures { (n : ℕ) → Sized n self.old → Says n self.old self.new (said_to self.old.said id said) }
    {
        if self.said_at(id) == said {
            return;
        }
        self.said.set(id.0, said);
        self.forget(id);
    }

    /// Sets the bounds that `left op right` sets to `left` where `right` is a literal.
    fn bound_before(&mut self, terms: &Terms, op: TermOp, left: TermId, right: TermId)
        requires within { (left.0 < length terms.now) × (right.0 < length terms.now) }
        requires sized { Sized (length terms.now) self.old }
        ensures { Sets (length terms.now) self.old self.new (λ i. meet (interval_at self.old.bounds i) (bounds_before op (tree_at terms.now left) (tree_at terms.now right) (tree_at terms.now (place_of i)))) }
    {
        terms.distinct();
        if let Node::Number(value) = terms.node(right) {
            let bounds = meet(self.bounds_at(left), numbers_to(op, value));
            self.set_bounds(left, bounds);
            return;
        }
    }

    /// Adds a fact.
    pub fn add(&mut self, terms: &Terms, fact: TermId)
        requires within { fact.0 < length terms.now }
        requires sized { Sized (length terms.now) self.old }
        ensures sized { Sized (length terms.now) self.new }
        ensures knows { (hyps : List Term) → Knows terms.now hyps self.old → Knows terms.now (hyps ++ tree_at terms.now fact ∷ []) self.new }
    {
        terms.distinct();
        self.facts.set(fact.0, true);
        match terms.node(fact) {
            Node::Infix(op, left, right) => {
                self.bound_before(terms, op, left, right);
                self.bound_before(terms, mirrored(op), right, left);
                return;
            }
            Node::Number(_) => return,
            Node::Truth(_) => return,
            Node::Variable(_) => return,
            Node::Prefix(_, _) => return,
            Node::Blank(_) => return,
            Node::Unary(op, operand) => match op {
                UnaryOp::In(_) => {
                    self.set_said(operand, true);
                    return;
                }
                UnaryOp::Field(_, _) => return,
                UnaryOp::Others(_) => return,
            },
            Node::Binary(_, _, _) => return,
            Node::Ternary(_, _, _, _) => return,
        }
    }

    /// What a fact can change.
    pub fn saved(&self, terms: &Terms, fact: TermId) -> Change
        requires within { fact.0 < length terms.now }
        requires sized { Sized (length terms.now) self.now }
        ensures fact { result.fact ≡ fact }
        ensures restores { (hyps : List Term) → Knows terms.now hyps self.now → Restores terms.now hyps result }
    {
        let was = self.has(fact);
        let change = Change {
            fact,
            was,
            left: UNBOUNDED,
            right: UNBOUNDED,
            said: false,
        };
        match terms.node(fact) {
            Node::Infix(_, left, right) => Change {
                left: self.bounds_at(left),
                right: self.bounds_at(right),
                ..change
            },
            Node::Unary(_, operand) => Change {
                said: self.said_at(operand),
                ..change
            },
            Node::Number(_) => change,
            Node::Truth(_) => change,
            Node::Variable(_) => change,
            Node::Prefix(_, _) => change,
            Node::Blank(_) => change,
            Node::Binary(_, _, _) => change,
            Node::Ternary(_, _, _, _) => change,
        }
    }

    /// Takes the last fact back.
    pub fn undo(&mut self, terms: &Terms, change: Change)
        requires within { change.fact.0 < length terms.now }
        requires sized { Sized (length terms.now) self.old }
        ensures sized { Sized (length terms.now) self.new }
        ensures knows { (hyps : List Term) → Restores terms.now hyps change → Knows terms.now (hyps ++ tree_at terms.now change.fact ∷ []) self.old → Knows terms.now hyps self.new }
    {
        terms.distinct();
        terms.closed();
        self.facts.set(change.fact.0, change.was);
        match terms.node(change.fact) {
            Node::Infix(_, left, right) => {
                self.set_bounds(left, change.left);
                self.set_bounds(right, change.right);
                return;
            }
            Node::Number(_) => return,
            Node::Truth(_) => return,
            Node::Variable(_) => return,
            Node::Prefix(_, _) => return,
            Node::Blank(_) => return,
            Node::Unary(op, operand) => match op {
                UnaryOp::In(_) => {
                    self.set_said(operand, change.said);
                    return;
                }
                UnaryOp::Field(_, _) => return,
                UnaryOp::Others(_) => return,
            },
            Node::Binary(_, _, _) => return,
            Node::Ternary(_, _, _, _) => return,
        }
    }

    /// The interval of a term, which is made.
    fn part(&self, id: TermId) -> Interval
        requires placed { Placed self.now }
        requires made { IsMade self.now.made.items id }
        ensures { Gives self.now.made.items id result }
    {
        match self.found(id) {
            Some(interval) => interval,
            None => UNBOUNDED,
        }
    }

    /// Whether a term is in its type: a fact says so, or it is a component of a term that is.
    fn is_typed(&self, terms: &Terms, id: TermId) -> bool
        requires within { id.0 < length terms.now }
        requires sized { Sized (length terms.now) self.now }
        ensures { (hyps : List Term) → Knows terms.now hyps self.now → result ≡ is_typed hyps (tree_at terms.now id) }
    {
        let mut at = id;
        'component: loop {
            if self.said_at(at) {
                return true;
            }
            match whole_of(terms, at) {
                Some(whole) => {
                    at = whole;
                    continue 'component;
                }
                None => return false,
            }
        }
    }

    /// The interval of the form of a term, where those of its parts are made.
    fn structural(&self, terms: &Terms, node: Node) -> Interval
        requires below { Below (length terms.now) node }
        requires sized { Sized (length terms.now) self.now }
        requires ready { Ready self.now.made.items (length self.now.made.items) node }
        ensures { (hyps : List Term) → Knows terms.now hyps self.now → interval hyps (tree_in terms.now node) ≡ bounded result hyps (tree_in terms.now node) }
    {
        match node {
            Node::Number(value) => point(value),
            Node::Prefix(op, operand) => structural_prefix(op, self.part(operand)),
            Node::Infix(op, left, right) => {
                let low = self.part(left);
                let high = self.part(right);
                structural(op, low, high, literal_at(terms, right))
            }
            Node::Unary(op, operand) => structural_unary(op, self.is_typed(terms, operand)),
            Node::Binary(op, left, _) => structural_binary(op, self.is_typed(terms, left)),
            Node::Truth(_) => UNBOUNDED,
            Node::Variable(_) => UNBOUNDED,
            Node::Blank(_) => UNBOUNDED,
            Node::Ternary(_, _, _, _) => UNBOUNDED,
        }
    }

    /// Makes the interval of a term of this form, where those of its parts are made.
    fn make(&mut self, terms: &Terms, id: TermId, node: Node) -> Result<Interval, AllocError>
        requires form { HasForm terms.now id node }
        requires sized { Sized (length terms.now) self.old }
        requires ready { Ready self.old.made.items (length self.old.made.items) node }
        ensures keeps { OnOk result (Keeps (length terms.now) self.old self.new) }
        ensures knows { OnOk result ((hyps : List Term) → Knows terms.now hyps self.old → Knows terms.now hyps self.new) }
        ensures gives { IfOk result (Gives self.new.made.items id) }
    {
        if let Some(interval) = self.found(id) {
            return Ok(interval);
        }
        let form = self.structural(terms, node);
        let interval = meet(form, self.bounds_at(id));
        let count = self.made.len();
        self.made.push(Made { id, interval })?;
        self.places.set(id.0, count);
        Ok(interval)
    }

    /// The interval of a term, made after those of all earlier terms.
    fn fill(&mut self, terms: &Terms, id: TermId) -> Result<Interval, AllocError>
        requires within { id.0 < length terms.now }
        requires sized { Sized (length terms.now) self.old }
        ensures keeps { OnOk result (Keeps (length terms.now) self.old self.new) }
        ensures knows { OnOk result ((hyps : List Term) → Knows terms.now hyps self.old → Knows terms.now hyps self.new) }
        ensures gives { IfOk result (Gives self.new.made.items id) }
    {
        for at in 0..id.0 {
            let earlier = TermId(at);
            self.make(terms, earlier, terms.node(earlier))?;
        }
        let interval = self.make(terms, id, terms.node(id))?;
        Ok(interval)
    }

    /// The interval of a term.
    #[cycle(interval)]
    pub fn interval(
        &mut self,
        terms: &Terms,
        id: TermId,
        depth: u32,
    ) -> Result<Interval, AllocError>
        requires within { id.0 < length terms.now }
        requires sized { Sized (length terms.now) self.old }
        ensures keeps { OnOk result (Keeps (length terms.now) self.old self.new) }
        ensures knows { OnOk result ((hyps : List Term) → Knows terms.now hyps self.old → Knows terms.now hyps self.new) }
        ensures gives { IfOk result (Gives self.new.made.items id) }
    {
        if let Some(interval) = self.found(id) {
            return Ok(interval);
        }
        if depth == 0 {
            let interval = self.fill(terms, id)?;
            return Ok(interval);
        }
        let node = terms.node(id);
        match node {
            Node::Prefix(_, operand) => {
                self.interval(terms, operand, depth - 1)?;
                let interval = self.make(terms, id, node)?;
                Ok(interval)
            }
            Node::Infix(_, left, right) => {
                self.interval(terms, left, depth - 1)?;
                self.interval(terms, right, depth - 1)?;
                let interval = self.make(terms, id, node)?;
                Ok(interval)
            }
            Node::Unary(_, operand) => {
                self.interval(terms, operand, depth - 1)?;
                let interval = self.make(terms, id, node)?;
                Ok(interval)
            }
            Node::Binary(_, left, _) => {
                self.interval(terms, left, depth - 1)?;
                let interval = self.make(terms, id, node)?;
                Ok(interval)
            }
            Node::Number(_) => self.make(terms, id, node),
            Node::Truth(_) => self.make(terms, id, node),
            Node::Variable(_) => self.make(terms, id, node),
            Node::Blank(_) => self.make(terms, id, node),
            Node::Ternary(_, _, _, _) => self.make(terms, id, node),
        }
    }
}
