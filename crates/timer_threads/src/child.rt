//! A client's thread, which has to be joined, and its postcondition.
//!
//! If the handle of a thread is dropped, the thread runs on. A `Child` is not `Drop`: the compiler rejects a
//! function that neither passes it on nor joins it. So no path leaves a thread unjoined, even if memory
//! runs out.
ghost use Rattle.std.specs.Prelude.{◌≡◌, ◌≤◌, IfOk};
ghost use Rattle.timer_base.specs.declared.limits.TheConstants.{LAST};
ghost use Rattle.timer_desk.specs.RingEnds.{line_of_end};
ghost use Rattle.timer_threads.specs.Children.{promise_of};
ghost use Rattle.timer_threads.specs.Work.{IsOfLine, HasWorked};

use crate::gate::Gate;
use crate::outcome::Worked;
use crate::work::client_work;
use std::snapshot::Snapshot;
use std::thread;
use std::thread::{Promise, PromisedHandle, Threads};
use timer_base::OutOfMemory;
use timer_desk::ClientEnd;

/// Postcondition of a client's thread: its result is that of the work of a client that began with this end, had
/// `count` requests to send, and gave up after `limit` turns in a row in which it neither sent nor received.
#[derive(Drop)]
pub struct Finishes {
    pub end: Snapshot<ClientEnd>,
    pub count: u64,
    pub limit: u64,
}

impl Promise<Worked> for Finishes {
    ghost kept_by = { λ p w. IsOfLine (line_of_end p.end.value) w × HasWorked p.count p.limit p.end.value w };
}

/// A client's thread that was started. It is not `Drop`, so that it is joined.
pub struct Child {
    handle: PromisedHandle<Worked, Finishes>,
}

impl Child {
    /// Starts a client's thread. Fails if no thread can be started.
    pub fn start<G: Gate + Drop + Send + 'static>(
        rt: &impl Threads,
        end: ClientEnd,
        count: u64,
        limit: u64,
        gate: G,
    ) -> Result<Child, OutOfMemory>
        requires count { count ≤ LAST }
        requires limit { limit ≤ LAST }
        ensures end { IfOk result (λ child. (promise_of child).end.value ≡ end) }
        ensures count { IfOk result (λ child. (promise_of child).count ≡ count) }
        ensures limit { IfOk result (λ child. (promise_of child).limit ≡ limit) }
    {
        let promise = Finishes {
            end: Snapshot::of(&end),
            count,
            limit,
        };
        match thread::spawn_with(rt, promise, move || client_work(end, count, limit, gate)) {
            Ok(handle) => Ok(Child { handle }),
            Err(_) => Err(OutOfMemory),
        }
    }

    /// Waits for the thread's end, and returns what its client left. Does not allocate.
    pub fn join(self, rt: &impl Threads) -> Worked
        ensures line { IsOfLine (line_of_end (promise_of self).end.value) result }
        ensures worked { HasWorked (promise_of self).count (promise_of self).limit (promise_of self).end.value result }
    {
        let Child { handle } = self;
        handle.join(rt)
    }
}
