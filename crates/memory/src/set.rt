// Sets of numbers below 512: of unknowns, or of the places of entries. (`Members` of `lattice` is a value kind, of one word, and has no highest.)
ghost use Rattle.std.specs.Prelude.{◌≡◌, ◌≢◌, ℕ, ◌*◌, ◌<◌, ◌≤◌, Bool, true, false, not, ◌&&◌, ◌||◌, length, IfSome, IfNone, ◌==◌, slice_index};
ghost use Rattle.memory.specs.Bits.{bit, holds, Highest};

use super::capacity::row_words;

// Eight words, in which the number i is bit i % 64 of word i / 64.
#[derive(Clone, Copy)]
pub struct Set {
    pub(super) words: [u64; 8],
}

// Puts i into a set that has room for it.
pub(super) fn put(words: &mut [u64], i: usize)
    requires { i < 64 * length words.old }
    ensures { (j : ℕ) → bit words.new j ≡ (j == i || bit words.old j) }
{
    words[i / 64] |= 1 << (i % 64);
}

// The last word that is not zero.
fn last_word(words: &[u64]) -> Option<usize>
    ensures some { IfSome result (λ i. (i < length words.now) × (slice_index words.now i ≢ 0)) }
    ensures last { IfSome result (λ i. (k : ℕ) → i < k → k < length words.now → slice_index words.now k ≡ 0) }
    ensures none { IfNone result ((k : ℕ) → k < length words.now → slice_index words.now k ≡ 0) }
{
    words.iter().rposition(|word| *word != 0)
}

impl Set {
    // The empty set.
    pub(super) fn new() -> Self
        ensures { (i : ℕ) → holds result i ≡ false }
    {
        Set { words: [0; 8] }
    }

    pub(super) fn contains(&self, i: usize) -> bool
        ensures { result ≡ holds self.now i }
    {
        i < 512 && self.words[i / 64] >> (i % 64) & 1 == 1
    }

    pub(super) fn insert(&mut self, i: usize)
        requires { i < 512 }
        ensures { (j : ℕ) → holds self.new j ≡ (j == i || holds self.old j) }
    {
        put(&mut self.words, i);
    }

    pub(super) fn remove(&mut self, i: usize)
        requires { i < 512 }
        ensures { (j : ℕ) → holds self.new j ≡ (not (j == i) && holds self.old j) }
    {
        self.words[i / 64] &= !(1 << (i % 64));
    }

    // The highest number of a set, all of whose numbers are below `end`.
    pub(super) fn highest(&self, end: usize) -> Option<usize>
        requires room { end ≤ 512 }
        requires below { (k : ℕ) → end ≤ k → holds self.now k ≡ false }
        ensures { Highest (holds self.now) end result }
    {
        let words = &self.words[..row_words(end)];
        let i = last_word(words)?;
        Some(64 * i + words[i].ilog2() as usize)
    }

    // Takes the highest number out, if there is one.
    pub(super) fn pop(&mut self, end: usize) -> Option<usize>
        requires room { end ≤ 512 }
        requires below { (k : ℕ) → end ≤ k → holds self.old k ≡ false }
        ensures highest { Highest (holds self.old) end result }
        ensures rest { IfSome result (λ i. (j : ℕ) → holds self.new j ≡ (not (j == i) && holds self.old j)) }
    {
        let i = self.highest(end)?;
        self.remove(i);
        Some(i)
    }

    // Adds the numbers in a row of words.
    pub(super) fn add(&mut self, row: &[u64])
        requires { length row.now ≤ 8 }
        ensures { (i : ℕ) → holds self.new i ≡ (holds self.old i || bit row.now i) }
    {
        // By index, here and below: of what a `zip` of `iter_mut` wrote, a proof knows nothing.
        for (k, word) in row.iter().enumerate() {
            self.words[k] |= *word;
        }
    }

    // Takes the set out of a row of words.
    pub(super) fn strike(&self, row: &mut [u64])
        requires { length row.old ≤ 8 }
        ensures { (i : ℕ) → bit row.new i ≡ (bit row.old i && not (holds self.now i)) }
    {
        for (k, word) in row.iter_mut().enumerate() {
            *word &= !self.words[k];
        }
    }
}
