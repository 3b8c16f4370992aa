// Relations between the numbers below a size.
#![tactic(auto, using(crate::proofs::BitRows::size_of))]

ghost use Rattle.std.specs.Prelude.{◌≡◌, ◌≢◌, ℕ, ◌+◌, ◌*◌, ◌/◌, ◌<◌, ◌≤◌, IfOk, All, Contains, IsTrue, length, ◌↔◌, ◌⊎◌};
ghost use Rattle.spx_rows.specs.Bits.{width};
ghost use Rattle.spx_rows.specs.Relations.{Matrix, Has, Holds, Gains, Then, Star, Of};

use crate::close::close_rows;
use crate::counted::Counted;
use crate::row::Row;
use crate::steps::Steps;
use crate::words::{add_words, add_words_of, clear_words, width_of};
use std::alloc::{AllocError, Global};
use std::marker::Model;
use std::sync::ledger::Ledger;

/// A set of pairs of numbers below its size: a row of bits for each first number, all rows in one vector of words.
/// Contracts see a matrix of truth values.
#[derive(Drop)]
pub struct Relation {
    size: usize,
    words: Vec<u64>,
}

impl Model for Relation {
    ghost use Rattle.std.specs.Prelude.{◌≡◌, ◌*◌, ◌≤◌, length};
    ghost use Rattle.spx_rows.specs.Relations.{Matrix, table};
    ghost use Rattle.spx_rows.specs.Bits.{width, bit};

    ghost Value = { Matrix };

    ghost view = { λ r. table r.size (λ u. bit r.words.items (u * width r.size)) };

    ghost invariant = { λ r. (length r.words.items ≡ r.size * width r.size) × (r.size ≤ 65536) };
}

/// Where row `u` begins.
fn row_at(size: usize, u: usize) -> usize
    requires size { size ≤ 65536 }
    requires u { u < size }
    ensures at { result ≡ u * width size }
    ensures within { result + width size ≤ size * width size }
{
    u * width_of(size)
}

impl Relation {
    /// The relation with no pairs.
    pub fn with_size(alloc: Global, size: usize) -> Result<Relation, AllocError>
        requires { size ≤ 65536 }
        ensures { IfOk result (λ r. (length r ≡ size) × ((a b : ℕ) → ¬ Holds r a b)) }
    {
        let mut words = Vec::new(alloc);
        words.resize(size * width_of(size), 0)?;
        Ok(Relation { size, words })
    }

    /// The relation of each number to itself.
    pub fn identity(alloc: Global, size: usize) -> Result<Relation, AllocError>
        requires { size ≤ 65536 }
        ensures { IfOk result (λ r. (length r ≡ size) × ((a b : ℕ) → Holds r a b ↔ ((a < size) × (a ≡ b)))) }
    {
        let mut r = Relation::with_size(alloc, size)?;
        for k in 0..size {
            r.add(k, k);
        }
        Ok(r)
    }

    /// The same pairs once more.
    pub fn copy(&self, alloc: Global) -> Result<Relation, AllocError>
        ensures { IfOk result (λ r. (length r ≡ length self.now) × ((a b : ℕ) → Holds r a b ↔ Holds self.now a b)) }
    {
        let mut r = Relation::with_size(alloc, self.size())?;
        r.union_with(self);
        Ok(r)
    }

    pub fn size(&self) -> usize
        ensures size { result ≡ length self.now }
        ensures limit { result ≤ 65536 }
    {
        self.size
    }

    /// Whether the pair is there.
    pub fn has(&self, u: usize, w: usize) -> bool
        requires u { u < length self.now }
        requires w { w < length self.now }
        ensures { IsTrue result ↔ Holds self.now u w }
    {
        (self.words[row_at(self.size, u) + w / 64] >> (w % 64)) & 1 == 1
    }

    /// Whether a word of row `u` is 0: then no number whose bit lies in it is there.
    fn is_word_empty(&self, u: usize, at: usize) -> bool
        requires u { u < length self.now }
        requires at { at < width (length self.now) }
        ensures { IsTrue result → (w : ℕ) → w / 64 ≡ at → ¬ Holds self.now u w }
    {
        self.words[row_at(self.size, u) + at] == 0
    }

    /// Whether a word of row `u` has no number but `u` itself, which has to be there where its bit lies in it.
    fn is_word_alone(&self, u: usize, at: usize) -> bool
        requires u { u < length self.now }
        requires at { at < width (length self.now) }
        ensures { IsTrue result → (w : ℕ) → w / 64 ≡ at → Holds self.now u w → u ≡ w }
    {
        if at == u / 64 {
            self.words[row_at(self.size, u) + at] == 1 << (u % 64)
        } else {
            self.is_word_empty(u, at)
        }
    }

    /// Whether `u` stands with itself and no other number.
    pub(crate) fn is_alone(&self, u: usize) -> bool
        requires { u < length self.now }
        ensures { IsTrue result → (w : ℕ) → Holds self.now u w → u ≡ w }
    {
        for at in 0..width_of(self.size) {
            if !self.is_word_alone(u, at) {
                return false;
            }
        }
        true
    }

    /// The numbers that `u` stands with, as a set of its own.
    pub fn row(&self, alloc: Global, u: usize) -> Result<Row, AllocError>
        requires { u < length self.now }
        ensures { IfOk result (λ row. (length row ≡ length self.now) × ((w : ℕ) → Has row w ↔ Holds self.now u w)) }
    {
        let at = row_at(self.size, u);
        let mut words = Vec::new(alloc);
        words.extend_from_slice(&self.words[at..at + width_of(self.size)])?;
        Ok(Row::from_words(self.size, words))
    }

    /// Adds to a set the numbers that `u` stands with.
    fn add_row_to(&self, u: usize, row: &mut Row)
        requires u { u < length self.now }
        requires size { length row.old ≡ length self.now }
        ensures size { length row.new ≡ length row.old }
        ensures numbers { (w : ℕ) → Has row.new w ↔ (Has row.old w ⊎ Holds self.now u w) }
    {
        row.add_words(&self.words, row_at(self.size, u));
    }

    /// The union of rows, as a set of its own.
    pub fn union_of(&self, alloc: Global, from: &[usize]) -> Result<Row, AllocError>
        requires { All (λ x. x < length self.now) from.now }
        ensures { IfOk result (λ row. (length row ≡ length self.now) × ((w : ℕ) → Has row w ↔ Of from.now self.now w)) }
    {
        let mut row = Row::with_size(alloc, self.size())?;
        for x in from {
            self.add_row_to(*x, &mut row);
        }
        Ok(row)
    }

    /// The union of the rows of the numbers in a set, as a set of its own.
    pub fn union_through(&self, alloc: Global, from: &Row) -> Result<Row, AllocError>
        requires { length from.now ≡ length self.now }
        ensures { IfOk result (λ row. (length row ≡ length self.now) × ((w : ℕ) → Has row w ↔ ((x : ℕ) × Has from.now x × Holds self.now x w))) }
    {
        let mut row = Row::with_size(alloc, self.size())?;
        for at in 0..width_of(self.size()) {
            if !from.is_word_empty(at) {
                self.add_rows_of_word(from, at, &mut row);
            }
        }
        Ok(row)
    }

    /// Adds to a set the rows of those numbers of another one that lie in one of its words.
    fn add_rows_of_word(&self, from: &Row, at: usize, row: &mut Row)
        requires from { length from.now ≡ length self.now }
        requires at { at < width (length self.now) }
        requires size { length row.old ≡ length self.now }
        ensures size { length row.new ≡ length row.old }
        ensures numbers { (w : ℕ) → Has row.new w ↔ (Has row.old w ⊎ ((x : ℕ) × (x / 64 ≡ at) × Has from.now x × Holds self.now x w)) }
    {
        let size = self.size();
        for x in 64 * at..(64 * at + 64).min(size) {
            if from.has(x) {
                self.add_row_to(x, row);
            }
        }
    }

    /// Adds a pair.
    pub fn add(&mut self, u: usize, w: usize)
        requires u { u < length self.old }
        requires w { w < length self.old }
        ensures size { length self.new ≡ length self.old }
        ensures pairs { Gains self.old self.new (λ a b. (u ≡ a) × (w ≡ b)) }
    {
        let at = row_at(self.size, u) + w / 64;
        self.words[at] = self.words[at] | 1 << (w % 64);
    }

    /// Takes away the pairs of a row.
    pub fn clear_row(&mut self, to: usize)
        requires { to < length self.old }
        ensures size { length self.new ≡ length self.old }
        ensures pairs { (a b : ℕ) → Holds self.new a b ↔ ((to ≢ a) × Holds self.old a b) }
    {
        let at = row_at(self.size, to);
        clear_words(&mut self.words, at, width_of(self.size));
    }

    /// Adds one row to another.
    pub fn add_row(&mut self, to: usize, from: usize)
        requires to { to < length self.old }
        requires from { from < length self.old }
        ensures size { length self.new ≡ length self.old }
        ensures pairs { Gains self.old self.new (λ a b. (to ≡ a) × Holds self.old from b) }
    {
        let to = row_at(self.size, to);
        let from = row_at(self.size, from);
        add_words(&mut self.words, to, from, width_of(self.size));
    }

    /// Adds a row of another relation.
    pub fn add_row_of(&mut self, to: usize, other: &Relation, from: usize)
        requires to { to < length self.old }
        requires from { from < length self.old }
        requires size { length other.now ≡ length self.old }
        ensures size { length self.new ≡ length self.old }
        ensures pairs { Gains self.old self.new (λ a b. (to ≡ a) × Holds other.now from b) }
    {
        let to = row_at(self.size, to);
        let from = row_at(self.size, from);
        add_words_of(&mut self.words, to, &other.words, from, width_of(self.size));
    }

    /// Adds rows of another relation to one row.
    pub fn add_rows_of(&mut self, to: usize, other: &Relation, from: &[usize])
        requires to { to < length self.old }
        requires from { All (λ x. x < length self.old) from.now }
        requires size { length other.now ≡ length self.old }
        ensures size { length self.new ≡ length self.old }
        ensures pairs { Gains self.old self.new (λ a b. (to ≡ a) × Of from.now other.now b) }
    {
        for x in from {
            self.add_row_of(to, other, *x);
        }
    }

    /// Adds rows of another relation to each of several rows.
    pub fn add_rows_to(&mut self, to: &[usize], other: &Relation, from: &[usize])
        requires to { All (λ x. x < length self.old) to.now }
        requires from { All (λ x. x < length self.old) from.now }
        requires size { length other.now ≡ length self.old }
        ensures size { length self.new ≡ length self.old }
        ensures pairs { Gains self.old self.new (λ a b. Contains to.now a × Of from.now other.now b) }
    {
        for x in to {
            self.add_rows_of(*x, other, from);
        }
    }

    /// Makes one row the union of rows as they were. It may be one of them, so it is cleared only where it is not.
    pub fn set_row(&mut self, to: usize, from: &[usize])
        requires to { to < length self.old }
        requires from { All (λ x. x < length self.old) from.now }
        ensures size { length self.new ≡ length self.old }
        ensures pairs { (a b : ℕ) → Holds self.new a b ↔ (((to ≡ a) × Of from.now self.old b) ⊎ ((to ≢ a) × Holds self.old a b)) }
    {
        if !from.contains(&to) {
            self.clear_row(to);
        }
        for x in from {
            self.add_row(to, *x);
        }
    }

    /// Adds one row to rows, and takes it away unless it is one of them.
    pub fn spread_row(&mut self, from: usize, to: &[usize])
        requires from { from < length self.old }
        requires to { All (λ x. x < length self.old) to.now }
        ensures size { length self.new ≡ length self.old }
        ensures pairs { (a b : ℕ) → Holds self.new a b ↔ ((Contains to.now a × Holds self.old from b) ⊎ ((from ≢ a) × Holds self.old a b)) }
    {
        for x in to {
            self.add_row(*x, from);
        }
        if !to.contains(&from) {
            self.clear_row(from);
        }
    }

    /// Adds the pairs of another relation.
    pub fn union_with(&mut self, other: &Relation)
        requires { length other.now ≡ length self.old }
        ensures size { length self.new ≡ length self.old }
        ensures pairs { Gains self.old self.new (Holds other.now) }
    {
        for u in 0..self.size() {
            self.add_row_of(u, other, u);
        }
    }

    /// Adds to the row `u` what a pair of the first and then one of the second lead to.
    fn compose_row(&mut self, u: usize, first: &Relation, second: &Relation)
        requires u { u < length self.old }
        requires first { length first.now ≡ length self.old }
        requires second { length second.now ≡ length self.old }
        ensures size { length self.new ≡ length self.old }
        ensures pairs { Gains self.old self.new (λ a b. (u ≡ a) × Then (Holds first.now) (Holds second.now) u b) }
    {
        for at in 0..width_of(self.size()) {
            if !first.is_word_empty(u, at) {
                self.compose_word(u, first, second, at);
            }
        }
    }

    /// Adds to the row `u` what the pairs of the first whose bits lie in one word of its row lead to by the second.
    fn compose_word(&mut self, u: usize, first: &Relation, second: &Relation, at: usize)
        requires u { u < length self.old }
        requires first { length first.now ≡ length self.old }
        requires second { length second.now ≡ length self.old }
        requires at { at < width (length self.old) }
        ensures size { length self.new ≡ length self.old }
        ensures pairs { Gains self.old self.new (λ a b. (u ≡ a) × ((v : ℕ) × (v / 64 ≡ at) × Holds first.now u v × Holds second.now v b)) }
    {
        let size = self.size();
        for v in 64 * at..(64 * at + 64).min(size) {
            if first.has(u, v) {
                self.add_row_of(u, second, v);
            }
        }
    }

    /// Adds the composition of two relations, row by row.
    fn compose_rows(&mut self, first: &Relation, second: &Relation)
        requires first { length first.now ≡ length self.old }
        requires second { length second.now ≡ length self.old }
        ensures size { length self.new ≡ length self.old }
        ensures pairs { Gains self.old self.new (Then (Holds first.now) (Holds second.now)) }
    {
        for u in 0..self.size() {
            self.compose_row(u, first, second);
        }
    }

    /// Whether each number to which a pair of the first leads stands with itself.
    fn keeps_ends_of(&self, first: &Relation) -> bool
        requires { length first.now ≡ length self.now }
        ensures { IsTrue result → (a b : ℕ) → Holds first.now a b → Holds self.now b b }
    {
        for v in 0..first.size {
            if !self.has(v, v) {
                return false;
            }
        }
        true
    }

    /// Adds what the pairs of the first to `v` lead to by the second.
    fn add_column(&mut self, first: &Relation, second: &Relation, v: usize)
        requires v { v < length self.old }
        requires first { length first.now ≡ length self.old }
        requires second { length second.now ≡ length self.old }
        ensures size { length self.new ≡ length self.old }
        ensures pairs { Gains self.old self.new (λ a b. Holds first.now a v × Holds second.now v b) }
    {
        for u in 0..self.size() {
            if first.has(u, v) {
                self.add_row_of(u, second, v);
            }
        }
    }

    /// Adds the composition where the second keeps to where the first leads: the pairs of the first, and what leads on from numbers
    /// that stand with others.
    fn compose_kept(&mut self, first: &Relation, second: &Relation)
        requires first { length first.now ≡ length self.old }
        requires second { length second.now ≡ length self.old }
        requires kept { (a b : ℕ) → Holds first.now a b → Holds second.now b b }
        ensures size { length self.new ≡ length self.old }
        ensures pairs { Gains self.old self.new (Then (Holds first.now) (Holds second.now)) }
    {
        self.union_with(first);
        for v in 0..self.size() {
            if !second.is_alone(v) {
                self.add_column(first, second, v);
            }
        }
    }

    /// Adds the composition of two relations.
    pub fn compose_into(&mut self, first: &Relation, second: &Relation)
        requires first { length first.now ≡ length self.old }
        requires second { length second.now ≡ length self.old }
        ensures size { length self.new ≡ length self.old }
        ensures pairs { Gains self.old self.new (Then (Holds first.now) (Holds second.now)) }
    {
        if second.keeps_ends_of(first) {
            self.compose_kept(first, second);
        } else {
            self.compose_rows(first, second);
        }
    }

    /// Makes it the reflexive transitive closure of what it was, with at most one union of rows for each pair of
    /// numbers.
    pub fn close<L: Ledger>(&mut self, steps: &mut Steps<L>)
        ensures size { length self.new ≡ length self.old }
        ensures pairs { (a b : ℕ) → Holds self.new a b ↔ ((a < length self.old) × Star (Holds self.old) a b) }
        ensures cost { steps.new ≤ steps.old + length self.old * length self.old }
    {
        let mut rows = Counted::of(self);
        close_rows(&mut rows, steps);
    }
}
