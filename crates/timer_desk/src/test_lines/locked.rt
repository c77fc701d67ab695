//! A line over two queues under one lock, whose ends may wait.

use crate::inlet::{Inlet, Put, Taken};
use crate::ring_ends::Unsent;
use crate::test_lines::queues::Queues;
use crate::word::{Numbered, Word};
use std::alloc::Global;
use std::sync::{Arc, Mutex, Wait};
use timer_base::LAST;
use timer_facility::Request;

/// The client's end of a locked line.
#[derive(Drop)]
pub struct LockedEnd {
    pub(crate) queues: Arc<Mutex<Queues>, Global>,
    pub(crate) next: u64,
}

/// The owner's end of a locked line, with a record of what it took and put.
#[derive(Drop)]
pub struct LockedInlet<R: Wait> {
    pub(crate) rt: R,
    pub(crate) queues: Arc<Mutex<Queues>, Global>,
    pub(crate) got: Vec<Numbered>,
    pub(crate) given: Vec<Word>,
}

impl LockedEnd {
    ghost use Rattle.std.specs.Prelude.{◌≡◌, ◌+◌, ◌≤◌, IfOk, IfErr};
    ghost use Rattle.timer_desk.specs.test_lines.Locked.{next_of_locked};
    ghost use Rattle.timer_desk.specs.RingEnds.{IsUnsent};

    /// Sends a request, and returns its number. It may wait for the lock.
    pub fn submit(&mut self, rt: &impl Wait, request: Request) -> Result<u64, Unsent>
        ensures ok { IfOk result (λ n. (n ≡ next_of_locked self.old) × (n ≤ LAST)
            × (next_of_locked self.new ≡ n + 1)) }
        ensures err { IfErr result (λ e. IsUnsent e request (next_of_locked self.old)
            × (next_of_locked self.new ≡ next_of_locked self.old)) }
    {
        if self.next > LAST {
            return Err(Unsent::Spent(request));
        }
        let number = self.next;
        match self
            .queues
            .lock(rt)
            .push_request(Numbered { number, request })
        {
            Ok(()) => {
                self.next += 1;
                Ok(number)
            }
            Err(back) => Err(Unsent::Full(back.request)),
        }
    }

    /// Receives the next word. It may wait for the lock.
    pub fn receive(&mut self, rt: &impl Wait) -> Option<Word>
        ensures { next_of_locked self.new ≡ next_of_locked self.old }
    {
        self.queues.lock(rt).pop_word()
    }
}

impl<R: Wait> Inlet for LockedInlet<R> {
    ghost use Rattle.std.specs.Prelude.{◌≡◌};
    ghost use Rattle.timer_desk.specs.test_lines.Locked.{locked_lines};

    ghost kind = { locked_lines };

    // All that the owner does with the queues is one call under the lock, and its contract is that of
    // `Queues`.
    fn take(&mut self) -> Taken {
        self.queues.lock(&self.rt).take_into(&mut self.got)
    }

    fn put(&mut self, word: Word) -> Put {
        self.queues.lock(&self.rt).put_into(&mut self.given, word)
    }
}
