//! The two queues that the lock of a locked line guards.
ghost use Rattle.std.specs.Prelude.{◌≡◌, ◌≤◌, length};

use crate::inlet::{Put, Taken};
use crate::word::{Numbered, Word};
use circular_buffer::HeapCircularBuffer;
use std::alloc::{AllocError, Global};

/// The two queues of a line. Neither holds more than the line's capacity.
#[derive(Drop)]
pub struct Queues {
    requests: HeapCircularBuffer<Numbered>,
    words: HeapCircularBuffer<Word>,
    capacity: usize,
    ghost requests_fit: { (requests.capacity ≡ capacity) × (length requests.items ≤ capacity) },
    ghost words_fit: { (words.capacity ≡ capacity) × (length words.items ≤ capacity) },
}

impl Queues {
    ghost use Rattle.std.specs.Prelude.{◌≡◌, ◌≢◌, ◌≤◌, ◌<◌, [], ◌∷◌, ◌++◌, length, drop, slice_get, IfOk, IfErr, OnOk, IsOk, ◌↔◌, true};
    ghost use Rattle.timer_desk.specs.Inlet.{taken_of, put_of, HandsBack};
    ghost use Rattle.timer_desk.specs.test_lines.Locked.{requests_queued, words_queued, capacity_of};

    /// Two empty queues.
    pub fn new(alloc: Global, capacity: usize) -> Result<Queues, AllocError>
        ensures { IfOk result (λ q. (requests_queued q ≡ []) × (words_queued q ≡ []) × (capacity_of q ≡ capacity)) }
    {
        Ok(Queues {
            requests: HeapCircularBuffer::with_capacity(alloc, capacity)?,
            words: HeapCircularBuffer::with_capacity(alloc, capacity)?,
            capacity,
        })
    }

    /// Pushes a request, or hands it back if its queue is full.
    pub fn push_request(&mut self, numbered: Numbered) -> Result<(), Numbered>
        ensures ok { OnOk result (requests_queued self.new ≡ requests_queued self.old ++ numbered ∷ []) }
        ensures err { IfErr result (λ n. (n ≡ numbered) × (requests_queued self.new ≡ requests_queued self.old)) }
        ensures when { IsOk result ↔ (length (requests_queued self.old) < capacity_of self.old) }
        ensures others { (words_queued self.new ≡ words_queued self.old)
            × (capacity_of self.new ≡ capacity_of self.old) }
    {
        self.requests.try_push_back(numbered)
    }

    /// Pops the first request.
    pub fn pop_request(&mut self) -> Option<Numbered>
        ensures value { result ≡ slice_get (requests_queued self.old) 0 }
        ensures requests { requests_queued self.new ≡ drop 1 (requests_queued self.old) }
        ensures others { (words_queued self.new ≡ words_queued self.old)
            × (capacity_of self.new ≡ capacity_of self.old) }
    {
        self.requests.pop_front()
    }

    /// Takes the first request, and records it in `got`. An empty queue is reported before out of memory.
    pub fn take_into(&mut self, got: &mut Vec<Numbered>) -> Taken
        ensures got { got.new.items ≡ got.old.items ++ taken_of result }
        ensures requests { requests_queued self.old ≡ taken_of result ++ requests_queued self.new }
        ensures empty { result ≡ Taken.Empty → requests_queued self.old ≡ [] }
        ensures memory { result ≡ Taken.NoMemory → requests_queued self.old ≢ [] }
        ensures others { (words_queued self.new ≡ words_queued self.old)
            × (capacity_of self.new ≡ capacity_of self.old) }
    {
        if self.requests.is_empty() {
            return Taken::Empty;
        }
        let Ok(()) = got.reserve(1) else {
            return Taken::NoMemory;
        };
        match self.pop_request() {
            Some(numbered) => {
                got.push_reserved(numbered);
                Taken::Got(numbered)
            }
            None => Taken::Empty,
        }
    }

    /// Puts a word, and records it in `given`. A full queue is reported before out of memory.
    pub fn put_into(&mut self, given: &mut Vec<Word>, word: Word) -> Put
        ensures given { given.new.items ≡ given.old.items ++ put_of result word }
        ensures words { words_queued self.new ≡ words_queued self.old ++ put_of result word }
        ensures back { HandsBack true result word }
        ensures full { result ≡ Put.Full word → length (words_queued self.old) ≡ capacity_of self.old }
        ensures memory { result ≡ Put.NoMemory word → length (words_queued self.old) < capacity_of self.old }
        ensures others { (requests_queued self.new ≡ requests_queued self.old)
            × (capacity_of self.new ≡ capacity_of self.old) }
    {
        if self.words.len() == self.capacity {
            return Put::Full(word);
        }
        let Ok(()) = given.reserve(1) else {
            return Put::NoMemory(word);
        };
        match self.push_word(word) {
            Ok(()) => {
                given.push_reserved(word);
                Put::Done
            }
            Err(back) => Put::Full(back),
        }
    }

    /// Pushes a word, or hands it back if its queue is full.
    pub fn push_word(&mut self, word: Word) -> Result<(), Word>
        ensures ok { OnOk result (words_queued self.new ≡ words_queued self.old ++ word ∷ []) }
        ensures err { IfErr result (λ w. (w ≡ word) × (words_queued self.new ≡ words_queued self.old)) }
        ensures when { IsOk result ↔ (length (words_queued self.old) < capacity_of self.old) }
        ensures others { (requests_queued self.new ≡ requests_queued self.old)
            × (capacity_of self.new ≡ capacity_of self.old) }
    {
        self.words.try_push_back(word)
    }

    /// Pops the first word.
    pub fn pop_word(&mut self) -> Option<Word>
        ensures value { result ≡ slice_get (words_queued self.old) 0 }
        ensures words { words_queued self.new ≡ drop 1 (words_queued self.old) }
        ensures others { (requests_queued self.new ≡ requests_queued self.old)
            × (capacity_of self.new ≡ capacity_of self.old) }
    {
        self.words.pop_front()
    }
}
