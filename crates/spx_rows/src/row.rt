// Sets of numbers below a size.
#![tactic(auto, using(crate::proofs::SingleRows::row_size))]

ghost use Rattle.std.specs.Prelude.{◌≡◌, ℕ, ◌+◌, ◌/◌, ◌<◌, ◌≤◌, IfOk, IsTrue, length, ◌↔◌, ◌⊎◌};
ghost use Rattle.std.specs.Int.{bit_at};
ghost use Rattle.spx_rows.specs.Bits.{width, bit};
ghost use Rattle.spx_rows.specs.Relations.{row_of, Has};

use crate::words::{add_words_of, width_of};
use std::alloc::{AllocError, Global};
use std::marker::Model;

/// A set of numbers below its size, as one row of bits. Contracts see a row of truth values.
#[derive(Drop)]
pub struct Row {
    size: usize,
    words: Vec<u64>,
}

impl Model for Row {
    ghost use Rattle.std.specs.Prelude.{◌≡◌, ◌≤◌, Bool, List, length};
    ghost use Rattle.spx_rows.specs.Relations.{row_of};
    ghost use Rattle.spx_rows.specs.Bits.{width, bit};

    ghost Value = { List Bool };

    ghost view = { λ r. row_of r.size (bit r.words.items 0) };

    ghost invariant = { λ r. (length r.words.items ≡ width r.size) × (r.size ≤ 65536) };
}

/// Whether one of the first `count` bits of a word is set. Its lowest bit shows it.
fn any_set(word: u64, count: usize) -> bool
    ensures { IsTrue result ↔ ((i : ℕ) × (i < 64) × (i < count) × (bit_at word i ≡ 1)) }
{
    word != 0 && (word.trailing_zeros() as usize) < count
}

impl Row {
    /// The set with no numbers.
    pub fn with_size(alloc: Global, size: usize) -> Result<Row, AllocError>
        requires { size ≤ 65536 }
        ensures { IfOk result (λ row. (length row ≡ size) × ((w : ℕ) → ¬ Has row w)) }
    {
        let mut words = Vec::new(alloc);
        words.resize(width_of(size), 0)?;
        Ok(Row { size, words })
    }

    /// The set with these words. What they have past the size counts for nothing.
    pub(crate) fn from_words(size: usize, words: Vec<u64>) -> Row
        requires limit { size ≤ 65536 }
        requires count { length words.items ≡ width size }
        ensures { result ≡ row_of size (bit words.items 0) }
    {
        Row { size, words }
    }

    pub fn size(&self) -> usize
        ensures size { result ≡ length self.now }
        ensures limit { result ≤ 65536 }
    {
        self.size
    }

    /// Whether the number is there.
    pub fn has(&self, w: usize) -> bool
        requires { w < length self.now }
        ensures { IsTrue result ↔ Has self.now w }
    {
        (self.words[w / 64] >> (w % 64)) & 1 == 1
    }

    /// Whether a word is 0: then no number whose bit lies in it is there.
    pub(crate) fn is_word_empty(&self, at: usize) -> bool
        requires { at < width (length self.now) }
        ensures { IsTrue result → (w : ℕ) → w / 64 ≡ at → ¬ Has self.now w }
    {
        self.words[at] == 0
    }

    /// Adds a number.
    pub fn add(&mut self, w: usize)
        requires { w < length self.old }
        ensures size { length self.new ≡ length self.old }
        ensures numbers { (b : ℕ) → Has self.new b ↔ (Has self.old b ⊎ (w ≡ b)) }
    {
        let at = w / 64;
        self.words[at] = self.words[at] | 1 << (w % 64);
    }

    /// Adds the numbers whose bits are set in the words from `from` on.
    pub(crate) fn add_words(&mut self, words: &Vec<u64>, from: usize)
        requires { from + width (length self.old) ≤ length words.now.items }
        ensures size { length self.new ≡ length self.old }
        ensures numbers { (b : ℕ) → Has self.new b ↔ (Has self.old b ⊎ ((b < length self.old) × IsTrue (bit words.now.items from b))) }
    {
        add_words_of(&mut self.words, 0, words, from, width_of(self.size));
    }

    /// Whether the two have a number in common.
    pub fn meets(&self, other: &Row) -> bool
        requires { length self.now ≡ length other.now }
        ensures { IsTrue result ↔ ((w : ℕ) × Has self.now w × Has other.now w) }
    {
        for k in 0..self.words.len() {
            if any_set(self.words[k] & other.words[k], self.size - k * 64) {
                return true;
            }
        }
        false
    }
}
