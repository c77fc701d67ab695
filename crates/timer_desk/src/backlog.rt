//! The backlog of one client at the desk: its outbox, and a request that ran out of memory.
ghost use Rattle.std.specs.Prelude.{◌≡◌, ◌<◌, ◌≤◌, ◌⊎◌, ◌++◌, take, length, true};

use crate::forward::ask;
use crate::inlet::{Inlet, Taken};
use crate::report::{Done, Served};
use crate::word::{Numbered, Word};
use circular_buffer::HeapCircularBuffer;
use std::alloc::{AllocError, Global};
use std::marker::Model;
use timer_base::Wheel;
use timer_facility::Facility;
use timer_facility::laws::a_request_adds_at_most_one;

/// The words waiting for a client, and a request that ran out of memory.
#[derive(Drop)]
pub struct Backlog {
    outbox: HeapCircularBuffer<Word>,
    held: Option<Numbered>,
}

impl Model for Backlog {
    ghost use Rattle.timer_desk.specs.Backlog.{BacklogState};

    ghost Value = { BacklogState };

    ghost view = { λ w. record { outbox = w.outbox.items; room = w.outbox.capacity; held = w.held } };
}

impl Backlog {
    ghost use Rattle.std.specs.Prelude.{◌≡◌, ◌+◌, ◌<◌, ◌≤◌, ◌⊎◌, [], ◌++◌, length, Some, None, IfOk, true};
    ghost use Rattle.timer_desk.specs.Backlog.{empty_backlog, with_word, notices_for, HoldsAtMostOneMore};
    ghost use Rattle.timer_facility.specs.State.{pending_of};
    ghost use Rattle.timer_desk.specs.Inlet.{taken_of};
    ghost use Rattle.timer_desk.specs.Report.{held_list, account_of, HeldIsLast, request_in, word_in, IsAccount};
    ghost use Rattle.timer_desk.specs.Member.{IsServe, FacilityMember};
    ghost use Rattle.timer_desk.specs.Desk.{notices_of};
    ghost use Rattle.timer_desk.specs.Flush.{IsGiven, without_words};
    ghost use Rattle.timer_desk.specs.declared.word.Numbered.{Numbered};

    /// An empty backlog, whose outbox has room for `room` words.
    pub fn new(alloc: Global, room: usize) -> Result<Backlog, AllocError>
        ensures { IfOk result (λ w. w ≡ empty_backlog room) }
    {
        let outbox = HeapCircularBuffer::with_capacity(alloc, room)?;
        Ok(Backlog { outbox, held: None })
    }

    /// How many words wait in the outbox.
    pub fn len(&self) -> usize
        ensures { result ≡ length self.now.outbox }
    {
        self.outbox.len()
    }

    /// The held request: it ran out of memory.
    pub fn held(&self) -> Option<Numbered>
        ensures { result ≡ self.now.held }
    {
        self.held
    }

    /// How many more words the outbox has room for.
    pub fn free(&self) -> usize
        ensures { result + length self.now.outbox ≡ self.now.room }
    {
        self.outbox.capacity() - self.outbox.len()
    }

    /// Pushes a word to the back of the outbox.
    pub fn note(&mut self, word: Word)
        requires { length self.old.outbox < self.old.room }
        ensures { self.new ≡ with_word word self.old }
    {
        let _ = self.outbox.try_push_back(word);
    }

    /// Drops the held request, and pushes its word to the back of the outbox.
    pub fn answer(&mut self, word: Word)
        requires { length self.old.outbox < self.old.room }
        ensures { self.new ≡ with_word word (record self.old { held = None }) }
    {
        if self.held.is_some() {
            self.held = None;
        }
        let _ = self.outbox.try_push_back(word);
    }

    /// Returns the held request, or takes the next one of the line.
    #[inline(always)]
    fn fetch<I: Inlet>(&self, inlet: &mut I) -> Taken
        ensures line { I.kind.same inlet.old inlet.new }
        ensures held { (n : Numbered) → self.now.held ≡ Some n
            → (result ≡ Taken.Got n) × (inlet.new ≡ inlet.old) }
        ensures got { self.now.held ≡ None → (I.kind.state inlet.new).got
            ≡ (I.kind.state inlet.old).got ++ taken_of result }
        ensures idle { result ≡ Taken.Empty → (self.now.held ≡ None)
            × ((I.kind.state inlet.new).got ≡ (I.kind.state inlet.old).got)
            × ((I.kind.state inlet.old).standing ≡ []) }
        ensures memory { result ≡ Taken.NoMemory → (self.now.held ≡ None) × (I.kind.take_may_refuse ≡ true) }
        ensures given { (I.kind.state inlet.new).given ≡ (I.kind.state inlet.old).given }
        ensures left { length (held_list self.now.held) + length (I.kind.state inlet.old).standing
            ≤ length (taken_of result) + length (I.kind.state inlet.new).standing }
    {
        match self.held {
            Some(Numbered { number, request }) => Taken::Got(Numbered { number, request }),
            None => inlet.take(),
        }
    }

    /// Moves words into the line until none is left or the line does not take one, and returns how many.
    pub fn flush<I: Inlet>(&mut self, inlet: &mut I) -> usize
        ensures stopped { (self.new.outbox ≡ []) ⊎ (I.kind.is_full inlet.new
            ⊎ (I.kind.put_may_refuse ≡ true)) }
        ensures given { IsGiven I.kind result self.old.outbox inlet.old inlet.new }
        ensures left { self.new ≡ without_words result self.old }
    {
        if self.outbox.is_empty() {
            return 0;
        }
        let (count, is_all) = put_words(&self.outbox, inlet);
        if is_all {
            // Unlike a pop, this leaves the front where it is: an outbox that is emptied each time stays in
            // the cache.
            self.outbox.clear();
        } else {
            self.remove(count);
        }
        count
    }

    /// Removes the first `count` words of the outbox.
    #[inline(never)]
    fn remove(&mut self, count: usize)
        requires { count ≤ length self.old.outbox }
        ensures { self.new ≡ without_words count self.old }
    {
        let left = self.outbox.len() - count;
        self.outbox.truncate_front(left);
    }

    /// Drops all words of the outbox, and returns how many.
    pub fn discard(&mut self) -> usize
        ensures count { result ≡ length self.old.outbox }
        ensures left { self.new ≡ record self.old { outbox = [] } }
    {
        let count = self.outbox.len();
        self.outbox.clear();
        count
    }

    /// Serves the client once: a request is made at the facility, and its word pushed to the outbox. A timer that is
    /// due with it waits at the facility, and the outbox has room for its notice.
    #[inline(always)]
    #[tactic(auto, using(crate::proofs::ForwardLemmas::clients_are))]
    pub fn serve<I: Inlet, W: Wheel + Drop>(
        &mut self,
        inlet: &mut I,
        facility: &mut Facility<W>,
        client: usize,
    ) -> Served
        requires quiet { facility.old.waiting ≡ [] }
        requires room { length self.old.outbox + pending_of facility.old.state client ≤ self.old.room }
        requires held { HeldIsLast (account_of I.kind inlet.old self.old) }
        ensures line { I.kind.same inlet.old inlet.new }
        ensures account { IsAccount (request_in result) (word_in result) 0
            (account_of I.kind inlet.old self.old) (account_of I.kind inlet.new self.new) }
        ensures serve { IsServe I.kind.take_may_refuse client facility.old.state
            (account_of I.kind inlet.old self.old) result (account_of I.kind inlet.new self.new) }
        ensures member { FacilityMember (Done.Served client result) facility.old facility.new }
        ensures notices { facility.new.waiting ≡ notices_of facility.old.state (Done.Served client result) }
        ensures no_room { result ≡ Served.NoRoom → (inlet.new ≡ inlet.old) × (self.new ≡ self.old)
            × (facility.new ≡ facility.old) }
        ensures idle { result ≡ Served.Idle
            → ((I.kind.state inlet.new).got ≡ (I.kind.state inlet.old).got) × (self.new ≡ self.old)
            × (facility.new ≡ facility.old) }
        ensures adds { HoldsAtMostOneMore client facility.old facility.new }
        ensures room { length self.new.outbox + pending_of facility.new.state client
            + notices_for client facility.new.waiting ≤ self.new.room }
        ensures clients { length facility.new.state.numbers ≡ length facility.old.state.numbers }
    {
        a_request_adds_at_most_one();
        if self.free() - facility.pending_of(client as u64) < 2 {
            return Served::NoRoom;
        }
        // A request is copied field by field: see `Numbered`.
        let Numbered { number, request } = match self.fetch(inlet) {
            Taken::Empty => return Served::Idle,
            Taken::NoMemory => return Served::NoMemory,
            Taken::Got(numbered) => numbered,
        };
        match ask(facility, client as u64, Numbered { number, request }) {
            None => {
                self.held = Some(Numbered { number, request });
                Served::NoMemory
            }
            Some(word) => {
                self.answer(word);
                Served::Did {
                    numbered: Numbered { number, request },
                    word,
                }
            }
        }
    }
}

/// Puts the words of an outbox into the line until it does not take one, and returns how many it took. True comes
/// with them only if these are all.
fn put_words<I: Inlet>(outbox: &HeapCircularBuffer<Word>, inlet: &mut I) -> (usize, bool)
    ensures line { I.kind.same inlet.old inlet.new }
    ensures got { ((I.kind.state inlet.new).got ≡ (I.kind.state inlet.old).got)
        × ((I.kind.state inlet.new).standing ≡ (I.kind.state inlet.old).standing) }
    ensures given { (I.kind.state inlet.new).given
        ≡ (I.kind.state inlet.old).given ++ take result.0 outbox.now.items }
    ensures count { result.0 ≤ length outbox.now.items }
    ensures all { result.1 ≡ true → result.0 ≡ length outbox.now.items }
    ensures stopped { result.0 < length outbox.now.items → I.kind.is_full inlet.new
        ⊎ (I.kind.put_may_refuse ≡ true) }
{
    let (first, rest) = outbox.as_slices();
    let count = inlet.put_slice(first);
    if count < first.len() {
        return (count, false);
    }
    if rest.is_empty() {
        return (count, true);
    }
    (count + inlet.put_slice(rest), false)
}
