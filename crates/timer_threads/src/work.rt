//! Runs one client to its end, and returns what is left of its line.
ghost use Rattle.std.specs.Prelude.{◌≤◌};
ghost use Rattle.timer_base.specs.declared.limits.TheConstants.{LAST};
ghost use Rattle.timer_desk.specs.RingEnds.{line_of_end};
ghost use Rattle.timer_threads.specs.Work.{AreLetGo, turns_of, IsOfLine, HasWorked};

use crate::client::Client;
use crate::gate::Gate;
use crate::outcome::Worked;
use std::thread;
use timer_desk::ClientEnd;

/// Does a client's work: sends `count` requests, reads its words and checks them, and ends once all
/// timers have expired, a check failed, or `limit` turns in a row neither sent nor received.
///
/// In each turn it sends one request at most, if its gate lets it go, and receives one word at most.
/// Wait-free, and does not allocate. A turn that passed nothing on yields the processor to another
/// thread: with more clients than processors they would reach their limits before the desk runs again.
pub fn client_work<G: Gate + Drop>(end: ClientEnd, count: u64, limit: u64, gate: G) -> Worked
    requires count { count ≤ LAST }
    requires limit { limit ≤ LAST }
    ensures line { IsOfLine (line_of_end end) result }
    ensures worked { HasWorked count limit end result }
    ensures asked { AreLetGo G.lets_go (turns_of result) }
{
    let mut gate = gate;
    let mut client = Client::new(end, count);
    let mut idle = 0u64;
    while idle < limit && !client.is_over() {
        if client.work_once(&mut gate) {
            idle = 0;
        } else {
            idle += 1;
            thread::yield_now();
        }
    }
    client.finish(idle)
}
