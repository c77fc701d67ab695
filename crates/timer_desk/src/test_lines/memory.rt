//! A line held in memory, for one thread.
ghost use Rattle.std.specs.Prelude.{◌≡◌, [], ◌++◌, ◌≤◌, take, vec_len};

use crate::inlet::{Inlet, Put, Taken};
use crate::word::{Numbered, Word};
use std::alloc::Global;

/// A line whose requests are all known when it is made.
#[derive(Drop)]
pub struct MemoryInlet {
    requests: Vec<Numbered>,
    // How many of `requests` were taken.
    next: usize,
    given: Vec<Word>,
    // How many words may be given.
    room: usize,
    ghost in_range: { next ≤ vec_len requests },
}

impl MemoryInlet {
    ghost use Rattle.timer_desk.specs.test_lines.Memory.{got_of_memory, standing_of_memory, given_of_memory, room_of_memory};

    /// A line in which all these requests stand, with room for `room` words. Does not allocate.
    pub fn new(alloc: Global, requests: Vec<Numbered>, room: usize) -> MemoryInlet
        ensures got { got_of_memory result ≡ [] }
        ensures standing { standing_of_memory result ≡ requests.items }
        ensures given { given_of_memory result ≡ [] }
        ensures room { room_of_memory result ≡ room }
    {
        MemoryInlet {
            requests,
            next: 0,
            given: Vec::new(alloc),
            room,
        }
    }

    /// The words put into the line. Does not allocate.
    pub fn given(&self) -> &[Word]
        ensures { result.now ≡ given_of_memory self.now }
    {
        self.given.as_slice()
    }
}

impl Inlet for MemoryInlet {
    ghost use Rattle.std.specs.Prelude.{◌≡◌, [], ◌++◌, ◌<◌, ◌≤◌, ◌⊎◌, length, take, true, ◌↔◌};
    ghost use Rattle.timer_desk.specs.test_lines.Memory.{got_of_memory, standing_of_memory, given_of_memory, room_of_memory, fitting, LacksMemory, SameMemoryLine, memory_lines};
    ghost use Rattle.timer_desk.specs.Inlet.{put_of, HandsBack};

    ghost kind = { memory_lines };

    fn take(&mut self) -> Taken {
        if self.next < self.requests.len() {
            let Numbered { number, request } = self.requests[self.next];
            self.next += 1;
            return Taken::Got(Numbered { number, request });
        }
        Taken::Empty
    }

    /// Puts a word. The line is full once it has `room` words.
    fn put(&mut self, word: Word) -> Put
        ensures line { SameMemoryLine self.old self.new }
        ensures given { given_of_memory self.new ≡ given_of_memory self.old ++ put_of result word }
        ensures back { HandsBack true result word }
        ensures full { result ≡ Put.Full word → room_of_memory self.new ≤ length (given_of_memory self.new) }
        ensures only_full { result ≡ Put.Full word ↔ (room_of_memory self.old ≤ length (given_of_memory self.old)) }
        ensures got { got_of_memory self.new ≡ got_of_memory self.old }
        ensures standing { standing_of_memory self.new ≡ standing_of_memory self.old }
    {
        if self.given.len() >= self.room {
            return Put::Full(word);
        }
        match self.given.push(word) {
            Ok(()) => Put::Done,
            Err(_) => Put::NoMemory(word),
        }
    }

    /// Puts words up to the room, with one copy. None of them if allocation fails.
    ///
    /// Each request gets an answer, and the timer that it started a notice. So the list of the words is allocated once,
    /// for two words a request, and for no more than the room.
    fn put_slice(&mut self, words: &[Word]) -> usize
        ensures line { SameMemoryLine self.old self.new }
        ensures given { given_of_memory self.new ≡ given_of_memory self.old ++ take result words.now }
        ensures count { result ≤ length words.now }
        ensures stopped { result < length words.now
            → (room_of_memory self.new ≤ length (given_of_memory self.new)) ⊎ (true ≡ true) }
        ensures as_many { (result ≡ fitting self.old (length words.now))
            ⊎ ((result ≡ 0) × LacksMemory self.old (fitting self.old (length words.now))) }
        ensures got { got_of_memory self.new ≡ got_of_memory self.old }
        ensures standing { standing_of_memory self.new ≡ standing_of_memory self.old }
    {
        let count = words.len().min(self.room.saturating_sub(self.given.len()));
        if self.given.capacity() == 0 {
            let most = self.requests.len().saturating_mul(2);
            let _ = self.given.reserve(most.min(self.room));
        }
        match self.given.extend_from_slice(&words[..count]) {
            Ok(()) => count,
            Err(_) => 0,
        }
    }
}
