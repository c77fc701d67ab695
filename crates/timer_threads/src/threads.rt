//! Clients in threads of their own, and the desk in the thread of the caller.
//!
//!     a thread for each client     its end of a ring line     client_work
//!     the caller's thread          the desk                   drive
//!
//! Then the threads are joined, and if none failed each line is settled and the desk ends. A thread's result is of its
//! own line: each thread is started with that promise, and a line can't be settled without it.
ghost use Rattle.std.specs.Prelude.{◌≡◌, ◌<◌, ◌≤◌, [], length, true, IfOk, IfErr, vec_len};
ghost use Rattle.timer_base.specs.declared.limits.TheConstants.{LAST};
ghost use Rattle.timer_facility.specs.Facility.{with_nothing_waiting};
ghost use Rattle.timer_threads.specs.Children.{threads_of};
ghost use Rattle.timer_threads.specs.Threads.{new_facility, AreThreadsOfLines, HasSucceeded, IsThreadsRun, IsExplained, whole_text};

use crate::child::Child;
use crate::children::Children;
use crate::gate::Gate;
use crate::outcome::ThreadsFault;
use crate::run_end::end_all;
use std::alloc::Global;
use std::thread::Threads;
use timer_base::OutOfMemory;
use timer_desk::{Desk, Driven, RingInlet, drive, ring_line};
use timer_facility::{Config, Facility};
use timer_wheels::HierWheel;

/// How many items a line has room for, each way.
const LINE: usize = 64;

/// How many words an outbox has room for.
const ROOM: usize = 1024;

/// How many timers may be pending.
const CAPACITY: u64 = 65536;

/// The threads that were started, and the owner's ends of their lines.
struct Clients {
    inlets: Vec<RingInlet>,
    children: Children,
    // Whether a thread was started for each client.
    all: bool,
}

/// A facility of `clients` clients, in which no timer is pending.
fn new_facility(alloc: Global, clients: u64) -> Result<Facility<HierWheel>, OutOfMemory>
    ensures { IfOk result (λ facility. facility ≡ with_nothing_waiting (new_facility clients)) }
{
    let config = Config {
        clients,
        capacity: CAPACITY,
        first_tick: 0,
        first_serial: 1,
        first_number: 1,
    };
    let checked = config.check().map_err(|_| OutOfMemory)?;
    let wheel = HierWheel::new(alloc, 0).map_err(|_| OutOfMemory)?;
    Ok(Facility::open(alloc, checked, wheel))
}

/// Makes a line and starts a thread for each gate, until one fails.
fn start_all<G: Gate + Drop + Send + 'static>(
    rt: &impl Threads,
    alloc: Global,
    gates: Vec<G>,
    count: u64,
    limit: u64,
) -> Result<Clients, OutOfMemory>
    requires count { count ≤ LAST }
    requires limit { limit ≤ LAST }
    ensures tied { IfOk result (λ c. AreThreadsOfLines count limit c.inlets.items (threads_of c.children)) }
    ensures all { IfOk result (λ c. c.all ≡ true → vec_len c.inlets ≡ vec_len gates) }
{
    let mut inlets = Vec::with_capacity(alloc, gates.len())?;
    let mut children = Children::with_capacity(alloc, gates.len())?;
    for gate in gates {
        let Ok((end, inlet)) = ring_line(alloc, LINE, 1) else {
            return Ok(Clients {
                inlets,
                children,
                all: false,
            });
        };
        let Ok(child) = Child::start(rt, end, count, limit, gate) else {
            return Ok(Clients {
                inlets,
                children,
                all: false,
            });
        };
        inlets.push_reserved(inlet);
        children.push_reserved(child);
    }
    Ok(Clients {
        inlets,
        children,
        all: true,
    })
}

/// Runs a client for each gate in a thread of its own, with `timers` timers, beside a desk that is
/// driven here, and returns the text of the clients' counts. Each side gives up after `limit` turns in
/// a row in which it passed nothing on.
///
/// Waits for the clients' threads, on every path: none is left running.
pub fn threads_run<G: Gate + Drop + Send + 'static>(
    rt: &impl Threads,
    alloc: Global,
    gates: Vec<G>,
    timers: u64,
    limit: u64,
) -> Result<Vec<u8>, ThreadsFault>
    requires gates { (1 ≤ vec_len gates) × (vec_len gates ≤ 64) }
    requires timers { (1 ≤ timers) × (timers ≤ 10000) }
    requires limit { (1 ≤ limit) × (limit ≤ LAST) }
    ensures text { IfOk result (λ text. text.items ≡ whole_text (vec_len gates) timers) }
    ensures ended { IfOk result (λ _. IsThreadsRun (vec_len gates) timers limit HasSucceeded) }
    ensures failed { IfErr result (λ fault. IsExplained (vec_len gates) timers limit fault) }
{
    let facility = new_facility(alloc, gates.len() as u64).map_err(|_| ThreadsFault::OutOfMemory)?;
    let Clients {
        inlets,
        children,
        all,
    } = start_all(rt, alloc, gates, timers, limit).map_err(|_| ThreadsFault::OutOfMemory)?;
    if !all {
        let _ = children.join(rt);
        return Err(ThreadsFault::OutOfMemory);
    }
    drive_beside(rt, alloc, facility, inlets, children, timers, limit)
}

/// Drives a desk over these lines beside the threads of their clients, joins them, and winds it up.
fn drive_beside(
    rt: &impl Threads,
    alloc: Global,
    facility: Facility<HierWheel>,
    inlets: Vec<RingInlet>,
    children: Children,
    timers: u64,
    limit: u64,
) -> Result<Vec<u8>, ThreadsFault>
    requires new { facility ≡ with_nothing_waiting (new_facility (vec_len inlets)) }
    requires tied { AreThreadsOfLines timers limit inlets.items (threads_of children) }
    requires timers { timers ≤ LAST }
    requires limit { limit ≤ LAST }
    ensures text { IfOk result (λ text. text.items ≡ whole_text (vec_len inlets) timers) }
    ensures ended { IfOk result (λ _. IsThreadsRun (vec_len inlets) timers limit HasSucceeded) }
    ensures failed { IfErr result (λ fault. IsExplained (vec_len inlets) timers limit fault) }
{
    let Ok(desk) = Desk::open(alloc, facility, inlets, ROOM) else {
        let _ = children.join(rt);
        return Err(ThreadsFault::OutOfMemory);
    };
    let Driven { desk, outcome } = drive(alloc, desk, timers, limit);
    end_all(alloc, desk, outcome, children.join(rt), timers)
}
