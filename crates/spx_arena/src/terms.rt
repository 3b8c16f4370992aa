// Terms by ids.
ghost use Rattle.std.specs.Prelude.{◌≡◌, ◌<◌, ◌≤◌, ◌+◌, [], length, take, IfOk, OnOk, OnErr};
ghost use Rattle.spx_term.specs.declared.term.Term.TheVariants as term;
ghost use Rattle.spx_term.specs.Folding.{static_term, term_of};
ghost use Rattle.spx_term.specs.Sizes.{own_size, size_of};
ghost use Rattle.spx_arena.specs.Counts.{counted};
ghost use Rattle.spx_arena.specs.Sharing.{tree_at, tree_in, Adds, Below, Closed, Distinct, Extends, Grows, IsId};

use indexmap::IndexSet;
use spx_term::{
    BinaryOp, Literal, MOST_LEVELS, MOST_LISTED_LEVELS, MOST_NODES, Name, Scalar, Term, TermOp,
    TermPrefix, TernaryOp, UnaryOp, boxed_binary, boxed_blank, boxed_infix, boxed_number,
    boxed_prefix, boxed_ternary, boxed_truth, boxed_unary, boxed_variable,
};
use sqlite_items::Boxed;
use std::alloc::{AllocError, Global};
use std::marker::Model;

/// The place of a term among the terms, counted from 0. Equal terms have equal ids.
#[derive(Clone, Copy, PartialEq, Eq, Hash)]
pub struct TermId(pub usize);

/// A term with an id for each part.
#[derive(Clone, Copy, PartialEq, Eq, Hash)]
pub enum Node {
    Number(i128),
    Truth(bool),
    Variable(Name),
    Prefix(TermPrefix, TermId),
    Infix(TermOp, TermId, TermId),
    /// The first value of a composite type, with which an aggregate begins.
    Blank(usize),
    Unary(UnaryOp, TermId),
    Binary(BinaryOp, TermId, TermId),
    Ternary(TernaryOp, TermId, TermId, TermId),
}

/// A node, and how many nodes its tree has, counted up to `MOST_NODES + 1`. The size follows from the node, so it is not hashed.
#[derive(Clone, Copy, PartialEq, Eq)]
#[derive_where(Hash)]
struct Entry {
    node: Node,
    #[derive_where(skip(Hash))]
    size: u32,
}

/// Terms, each once. Contracts see the list of their trees, in the order of their ids.
#[derive(Drop)]
pub struct Terms {
    entries: IndexSet<Entry>,
}

impl Model for Terms {
    ghost use Rattle.std.specs.Prelude.{List};
    ghost use Rattle.spx_term.specs.declared.term.Term.{Term};
    ghost use Rattle.spx_term.specs.contracts.term.Term as term;
    ghost use Rattle.std.specs.Coded.{codes};

    ghost Value = { List Term };

    ghost coded = { Prim.hlevel (codes, term.the_row.coded) };

    ghost use Rattle.spx_arena.specs.Entries.{trees_of, Sound};

    ghost view = { λ a. trees_of a.entries.keys };

    ghost invariant = { λ a. Sound a.entries.keys };
}

/// The sum of two counts, counted up to `MOST_NODES + 1`.
pub fn counted_sum(left: u32, right: u32) -> u32
    requires { (left ≤ MOST_NODES + 1) × (right ≤ MOST_NODES + 1) }
    ensures { result ≡ counted (left + right) }
{
    let sum = left + right;
    if sum > MOST_NODES {
        MOST_NODES + 1
    } else {
        sum
    }
}

/// How many nodes an operation adds to those of its parts. An aggregate is one node with all its components.
pub fn own_size(op: BinaryOp) -> u32
    ensures { result ≡ own_size op }
{
    match op {
        BinaryOp::Elements(_, _, _) | BinaryOp::Field(_) => 0,
        BinaryOp::Element(_) | BinaryOp::Update(_) => 1,
    }
}

impl Terms {
    pub fn new(alloc: Global) -> Terms
        ensures { result ≡ [] }
    {
        Terms {
            entries: IndexSet::new(alloc),
        }
    }

    /// How many terms there are.
    pub fn len(&self) -> usize
        ensures { result ≡ length self.now }
    {
        self.entries.len()
    }

    /// How many nodes the tree of a term has, counted up to `MOST_NODES + 1`.
    pub fn size(&self, id: TermId) -> u32
        requires { id.0 < length self.now }
        ensures size { result ≡ counted (size_of (tree_at self.now id)) }
        ensures most { result ≤ MOST_NODES + 1 }
    {
        self.entries.as_slice()[id.0].size
    }

    /// How many nodes the tree of a node has, counted up to `MOST_NODES + 1`.
    #[tactic(auto, using(crate::proofs::Sizes::size_forms))]
    fn size_in(&self, node: Node) -> u32
        requires { Below (length self.now) node }
        ensures { result ≡ counted (size_of (tree_in self.now node)) }
    {
        match node {
            Node::Number(_) => 1,
            Node::Truth(_) => 1,
            Node::Variable(_) => 1,
            Node::Prefix(_, operand) => {
                let operand = self.size(operand);
                counted_sum(operand, 1)
            }
            Node::Infix(_, left, right) => {
                let left = self.size(left);
                let right = self.size(right);
                counted_sum(counted_sum(left, right), 1)
            }
            Node::Blank(_) => 1,
            Node::Unary(_, operand) => {
                let operand = self.size(operand);
                counted_sum(operand, 1)
            }
            Node::Binary(op, left, right) => {
                let left = self.size(left);
                let right = self.size(right);
                counted_sum(counted_sum(left, right), own_size(op))
            }
            Node::Ternary(_, first, second, third) => {
                let first = self.size(first);
                let second = self.size(second);
                let third = self.size(third);
                counted_sum(counted_sum(counted_sum(first, second), third), 1)
            }
        }
    }

    /// The id of a term whose parts have ids.
    pub fn make(&mut self, node: Node) -> Result<TermId, AllocError>
        requires { Below (length self.old) node }
        ensures grown { Grows self.old self.new }
        ensures made { IfOk result (λ id. IsId self.new id (tree_in self.old node)) }
        ensures extended { Extends self.old self.new }
        ensures refused { OnErr result (self.new ≡ self.old) }
    {
        let size = self.size_in(node);
        let (at, _) = self.entries.insert_full(Entry { node, size })?;
        Ok(TermId(at))
    }

    /// The id of the literal of a number or a truth value.
    #[tactic(auto, using(spx_term::specs::Values::literal_back))]
    pub fn scalar(&mut self, value: Scalar) -> Result<TermId, AllocError>
        ensures added { IfOk result (λ id. Adds self.old self.new id (static_term value)) }
        ensures refused { OnErr result (self.new ≡ self.old) }
    {
        self.literal(value.literal())
    }

    /// The id of a literal.
    pub fn literal(&mut self, value: Literal) -> Result<TermId, AllocError>
        ensures added { IfOk result (λ id. Adds self.old self.new id (term_of value)) }
        ensures refused { OnErr result (self.new ≡ self.old) }
    {
        match value {
            Literal::Number(value) => self.make(Node::Number(value)),
            Literal::Truth(value) => self.make(Node::Truth(value)),
        }
    }

    /// The id of an operation on two terms.
    pub fn infix(&mut self, op: TermOp, left: TermId, right: TermId) -> Result<TermId, AllocError>
        requires { (left.0 < length self.old) × (right.0 < length self.old) }
        ensures added { IfOk result (λ id. Adds self.old self.new id (term.Infix op (tree_at self.old left) (tree_at self.old right))) }
        ensures refused { OnErr result (self.new ≡ self.old) }
    {
        self.make(Node::Infix(op, left, right))
    }

    /// The id of a tree.
    pub fn intern(&mut self, tree: &Term) -> Result<TermId, AllocError>
        ensures grown { OnOk result (Grows self.old self.new) }
        ensures interned { IfOk result (λ id. IsId self.new id tree.now) }
        ensures refused { OnErr result (self.new ≡ self.old) }
    {
        let count = self.len();
        match self.insert(tree, MOST_LEVELS) {
            Ok(id) => Ok(id),
            Err(refused) => {
                self.truncate(count);
                Err(refused)
            }
        }
    }

    /// The id of a tree. Where memory runs out, some of its parts have come in. The stack has room for so many levels of it.
    #[cycle(insert)]
    fn insert(&mut self, tree: &Term, room: u32) -> Result<TermId, AllocError>
        ensures grown { Grows self.old self.new }
        ensures interned { IfOk result (λ id. IsId self.new id tree.now) }
        ensures extended { Extends self.old self.new }
    {
        if room == 0 {
            return Err(AllocError);
        }
        let node = self.insert_parts(tree, room - 1)?;
        self.make(node)
    }

    /// The node of a tree whose parts come in. It is in no caller, so that a level of the tree takes little of the stack.
    #[cycle(insert)]
    #[inline(never)]
    fn insert_parts(&mut self, tree: &Term, room: u32) -> Result<Node, AllocError>
        ensures grown { Grows self.old self.new }
        ensures below { IfOk result (λ node. Below (length self.new) node) }
        ensures is_tree { IfOk result (λ node. tree_in self.new node ≡ tree.now) }
        ensures extended { Extends self.old self.new }
    {
        match tree {
            Term::Number(value) => Ok(Node::Number(*value)),
            Term::Truth(value) => Ok(Node::Truth(*value)),
            Term::Variable(name) => Ok(Node::Variable(*name)),
            Term::Blank(id) => Ok(Node::Blank(*id)),
            Term::Prefix(op, operand) => {
                let operand = self.insert(operand.get(), room)?;
                Ok(Node::Prefix(*op, operand))
            }
            Term::Infix(op, left, right) => {
                let left = self.insert(left.get(), room)?;
                let right = self.insert(right.get(), room)?;
                Ok(Node::Infix(*op, left, right))
            }
            Term::Unary(op, operand) => {
                let operand = self.insert(operand.get(), room)?;
                Ok(Node::Unary(*op.get(), operand))
            }
            Term::Binary(op, left, right) => {
                let left = self.insert(left.get(), room)?;
                let right = self.insert(right.get(), room)?;
                Ok(Node::Binary(*op.get(), left, right))
            }
            Term::Ternary(op, first, second, third) => {
                let first = self.insert(first.get(), room)?;
                let second = self.insert(second.get(), room)?;
                let third = self.insert(third.get(), room)?;
                Ok(Node::Ternary(*op.get(), first, second, third))
            }
        }
    }

    /// Keeps the first terms.
    fn truncate(&mut self, count: usize)
        requires { count ≤ length self.old }
        ensures { self.new ≡ take count self.old }
    {
        self.entries.truncate(count);
    }

    /// The form of a term, with the ids of its parts.
    pub fn node(&self, id: TermId) -> Node
        requires { id.0 < length self.now }
        ensures tree { tree_at self.now id ≡ tree_in self.now result }
        ensures below { Below id.0 result }
    {
        self.entries.as_slice()[id.0].node
    }

    /// Equal terms have equal ids.
    pub fn distinct(&self)
        ensures { Distinct self.now }
    {
        let _count = self.entries.len();
    }

    /// Each term comes after its parts.
    pub fn closed(&self)
        ensures { Closed self.now }
    {
        let _count = self.entries.len();
    }

    /// The form of a term in its place, so that no copy of it takes room on the stack.
    fn form(&self, id: TermId) -> &Node
        requires { id.0 < length self.now }
        ensures tree { tree_at self.now id ≡ tree_in self.now result.now }
        ensures below { Below id.0 result.now }
    {
        &self.entries.as_slice()[id.0].node
    }

    /// The term as a tree. One of more than `MOST_LISTED_LEVELS` levels is refused.
    pub fn tree_of(&self, alloc: Global, id: TermId) -> Result<Term, AllocError>
        requires { id.0 < length self.now }
        ensures { IfOk result (λ tree. tree ≡ tree_at self.now id) }
    {
        let tree = self.boxed_tree(alloc, id, MOST_LISTED_LEVELS)?;
        Ok(tree.into_inner())
    }

    /// The tree in a box, so that a level of it takes little of the stack, which has room for so many levels.
    #[cycle(boxed_tree)]
    fn boxed_tree(&self, alloc: Global, id: TermId, room: u32) -> Result<Boxed<Term>, AllocError>
        requires { id.0 < length self.now }
        ensures { IfOk result (λ tree. tree ≡ tree_at self.now id) }
    {
        if room == 0 {
            return Err(AllocError);
        }
        match self.form(id) {
            Node::Number(value) => boxed_number(alloc, *value),
            Node::Truth(value) => boxed_truth(alloc, *value),
            Node::Variable(name) => boxed_variable(alloc, *name),
            Node::Blank(id) => boxed_blank(alloc, *id),
            Node::Prefix(op, operand) => {
                let operand = self.boxed_tree(alloc, *operand, room - 1)?;
                boxed_prefix(alloc, *op, operand)
            }
            Node::Infix(op, left, right) => {
                let left = self.boxed_tree(alloc, *left, room - 1)?;
                let right = self.boxed_tree(alloc, *right, room - 1)?;
                boxed_infix(alloc, *op, left, right)
            }
            Node::Unary(op, operand) => {
                let operand = self.boxed_tree(alloc, *operand, room - 1)?;
                boxed_unary(alloc, *op, operand)
            }
            Node::Binary(op, left, right) => {
                let left = self.boxed_tree(alloc, *left, room - 1)?;
                let right = self.boxed_tree(alloc, *right, room - 1)?;
                boxed_binary(alloc, *op, left, right)
            }
            Node::Ternary(op, first, second, third) => {
                let first = self.boxed_tree(alloc, *first, room - 1)?;
                let second = self.boxed_tree(alloc, *second, room - 1)?;
                let third = self.boxed_tree(alloc, *third, room - 1)?;
                boxed_ternary(alloc, *op, first, second, third)
            }
        }
    }
}
