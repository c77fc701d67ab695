//! Which lists of a wheel have a timer: a bit for each of them.
//!
//!     word 0   bit b: list      b has a timer
//!     word 1   bit b: list 64 + b has a timer
//!       ..
//!
//! With `Table::Wide`, whose wheels have 64 slots, word k is wheel k of a hierarchy, and bit s its slot s. The lowest
//! bit that is set is there that of the bucket that the clock empties next, of those with a timer: a lower wheel
//! comes before a higher one, and in a wheel the slots come in turn.
ghost use Rattle.std.specs.Int.{bit_at};
ghost use Rattle.std.specs.Prelude.{◌≡◌, ◌≢◌, ◌<◌, ◌≤◌, ◌+◌, ◌*◌, ℕ, List, length, IfSome, IsTrue, true, false};
ghost use Rattle.timer_wheels.specs.smooth.Wheels.{LeavesBits};
ghost use Rattle.timer_wheels.specs.declared.occupied.TheConstants.{WORD_BITS};
ghost use Rattle.timer_wheels.specs.declared.table.TheConstants.{MOST_BUCKETS};
ghost use Rattle.timer_wheels.specs.Occupied.{bit_of, IsFirstSet, IsLowestSet};

use crate::table::MOST_BUCKETS;
use std::marker::Model;

/// The bits of a word.
pub const WORD_BITS: usize = 64;

/// How many words hold a bit for each bucket of the largest table.
const BUCKET_WORDS: usize = MOST_BUCKETS / WORD_BITS;

// The words are whole: with a rest, the last buckets would have no bit.
const _: () = prove!(MOST_BUCKETS % WORD_BITS == 0);

/// A bit for each bucket of a hierarchy of wheels.
pub type Occupied = Bits<BUCKET_WORDS>;

/// A bit for each list.
#[derive(Drop)]
pub struct Bits<const WORDS: usize> {
    words: [u64; WORDS],
}

impl<const WORDS: usize> Model for Bits<WORDS> {
    ghost Value = { List ℕ };

    ghost view = { λ o. o.words };

    ghost invariant = { λ o. length o.words ≡ WORDS };
}

impl<const WORDS: usize> Bits<WORDS> {
    /// No bit is set.
    #[inline]
    pub fn new() -> Bits<WORDS>
        ensures { (s : ℕ) → bit_of result s ≡ 0 }
    {
        Bits { words: [0; WORDS] }
    }

    /// Whether a list's bit is set.
    #[inline]
    pub fn has(&self, list: usize) -> bool
        requires { list < 64 * WORDS }
        ensures yes { result ≡ true → bit_of self.now list ≡ 1 }
        ensures no { result ≡ false → bit_of self.now list ≡ 0 }
    {
        self.words[list / WORD_BITS] >> (list % WORD_BITS) & 1 == 1
    }

    /// Sets a list's bit.
    // Without a test whether it is set, and with a word's number of 32 bits, by which its address needs no mask of 64.
    #[inline]
    #[tactic(auto, using(crate::proofs::bucket_lemmas::OccupiedLemmas::set_here, crate::proofs::bucket_lemmas::OccupiedLemmas::set_others))]
    pub fn insert(&mut self, list: usize)
        requires list { list < 64 * WORDS }
        requires few { 64 * WORDS ≤ 4294967296 }
        ensures here { bit_of self.new list ≡ 1 }
        ensures others { (s : ℕ) → s ≢ list → bit_of self.new s ≡ bit_of self.old s }
    {
        let word = (list as u32 / WORD_BITS as u32) as usize;
        self.words[word] = self.words[word] | 1 << (list % WORD_BITS);
    }

    /// Sets a list's bit, and writes nothing if it is set.
    #[inline]
    #[tactic(auto, using(crate::proofs::bucket_lemmas::OccupiedLemmas::set_here, crate::proofs::bucket_lemmas::OccupiedLemmas::set_others))]
    pub fn insert_once(&mut self, list: usize)
        requires { list < 64 * WORDS }
        ensures here { bit_of self.new list ≡ 1 }
        ensures others { (s : ℕ) → s ≢ list → bit_of self.new s ≡ bit_of self.old s }
    {
        if self.has(list) {
            return;
        }
        let word = list / WORD_BITS;
        self.words[word] = self.words[word] | 1 << (list % WORD_BITS);
    }

    /// Clears a list's bit.
    #[inline]
    #[tactic(auto, using(crate::proofs::bucket_lemmas::OccupiedLemmas::clear_here, crate::proofs::bucket_lemmas::OccupiedLemmas::clear_others))]
    pub fn remove(&mut self, list: usize)
        requires { list < 64 * WORDS }
        ensures here { bit_of self.new list ≡ 0 }
        ensures others { (s : ℕ) → s ≢ list → bit_of self.new s ≡ bit_of self.old s }
    {
        let word = list / WORD_BITS;
        self.words[word] = self.words[word] & !(1 << (list % WORD_BITS));
    }

    /// Whether the bits of all lists up to this one, which has its bit in the first word, are clear.
    #[inline]
    pub fn is_clear_to(&self, list: usize) -> bool
        requires some { 0 < WORDS }
        requires first_word { list < 64 }
        ensures { IsTrue result → (s : ℕ) → s ≤ list → bit_of self.now s ≡ 0 }
    {
        let word = self.words[0];
        word == 0 || lowest_bit(word) > list
    }

    /// How many lists from this one on have no bit set, as far as its word shows: 0 exactly if this one's is set.
    #[inline]
    pub fn clear_from(&self, list: usize) -> usize
        requires { list < 64 * WORDS }
        ensures set { result ≡ 0 → bit_of self.now list ≡ 1 }
        ensures clear { (s : ℕ) → list ≤ s → s < list + result → bit_of self.now s ≡ 0 }
        ensures few { result ≤ WORD_BITS }
    {
        clear_bits(self.words[list / WORD_BITS], list % WORD_BITS)
    }

    /// The first list whose bit is set.
    #[inline]
    pub fn first(&self) -> Option<usize>
        requires { 64 * WORDS ≤ 4294967296 }
        ensures { IsFirstSet (64 * WORDS) self.now result }
    {
        for k in 0..WORDS {
            let word = self.words[k];
            if word != 0 {
                return Some(WORD_BITS * k + lowest_bit(word));
            }
        }
        None
    }
}

/// How many bits of a word from this one on are clear.
#[inline]
fn clear_bits(word: u64, bit: usize) -> usize
    requires { bit < WORD_BITS }
    ensures set { result ≡ 0 → bit_at word bit ≡ 1 }
    ensures clear { (i : ℕ) → bit ≤ i → i < bit + result → bit_at word i ≡ 0 }
    ensures few { bit + result ≤ WORD_BITS }
{
    let rest = word >> bit;
    if rest == 0 {
        WORD_BITS - bit
    } else {
        lowest_bit(rest)
    }
}

/// The place of the lowest bit that is set.
#[inline]
#[tactic(auto, using(crate::proofs::bucket_lemmas::OccupiedLemmas::lowest_set))]
pub fn lowest_bit(word: u64) -> usize
    requires { word ≢ 0 }
    ensures { IsLowestSet word result }
{
    word.trailing_zeros() as usize
}

/// A timer with this deadline came to the back of a list. If that is a bucket, its bit is set.
#[inline(always)]
pub fn enter(occupied: &mut Occupied, tick: u64, deadline: u64, list: usize)
    requires { tick < deadline → list < MOST_BUCKETS }
    ensures pending { tick < deadline
        → (bit_of occupied.new list ≡ 1) × ((s : ℕ) → s ≢ list → bit_of occupied.new s ≡ bit_of occupied.old s) }
    ensures due { deadline ≤ tick → occupied.new ≡ occupied.old }
{
    if deadline > tick {
        occupied.insert(list);
    }
}

/// The same, which writes nothing unless the list `was_empty`: the bit of any other bucket is set already.
#[inline(always)]
pub fn enter_first(occupied: &mut Occupied, tick: u64, deadline: u64, list: usize, was_empty: bool)
    requires list { tick < deadline → list < MOST_BUCKETS }
    requires marked { tick < deadline → was_empty ≡ false → bit_of occupied.old list ≡ 1 }
    ensures pending { tick < deadline
        → (bit_of occupied.new list ≡ 1) × ((s : ℕ) → s ≢ list → bit_of occupied.new s ≡ bit_of occupied.old s) }
    ensures due { deadline ≤ tick → occupied.new ≡ occupied.old }
{
    if was_empty {
        enter(occupied, tick, deadline, list);
    }
}

/// A list became empty, if one did: if it is a bucket, its bit is cleared.
#[inline(always)]
pub fn leave(occupied: &mut Occupied, slots: usize, emptied: Option<usize>)
    requires { IfSome emptied (λ list. list < slots → list < MOST_BUCKETS) }
    ensures { LeavesBits slots emptied occupied.old occupied.new }
{
    let Some(list) = emptied else {
        return;
    };
    if list < slots {
        occupied.remove(list);
    }
}
