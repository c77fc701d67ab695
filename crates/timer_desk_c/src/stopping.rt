//! Stops the pending timers of a client that is gone.
//!
//! Each is stopped by a request of the client, as if that stood in its line: so the facility makes steps that a client
//! could have asked for, and what is promised of every run holds of these. The timers are found by a walk over the
//! places of the wheel, in which a timer that is stopped frees its own place alone:
//!
//!     client     1   0   1   1   -   0      client 1 is gone
//!     place      0   1   2   3   4   5
//!     stopped    *       *   *              three requests, under the next three numbers of client 1
ghost use Rattle.std.specs.Prelude.{◌≡◌, ◌≢◌, ◌+◌, ◌<◌, ◌≤◌, false, get_or, IfSome, Some, None};
ghost use Rattle.timer_desk_c.specs.Types.{LAST, RingInlet};
ghost use Rattle.timer_facility.specs.State.{number_of, pending_of, ByHandle};
ghost use Rattle.timer_facility.specs.Verdict.{timer_named};
ghost use Rattle.timer_desk.specs.declared.looks.Found.TheVariants as Found;
ghost use Rattle.timer_desk.specs.Desk.{clients_of};
ghost use Rattle.timer_desk.specs.RingEnds.{found_by_inlet};
ghost use Rattle.timer_desk.specs.Settlement.{stop_step};
ghost use Rattle.timer_desk_c.specs.Freed.{OnlyLooks};
ghost use Rattle.timer_desk_c.specs.Stopping.{AreStopped, HasStopped, WhyNotStopped, IsFirstPending};
ghost use Rattle.timer_desk_c.specs.declared.status.TheConstants.{OK};

use crate::opening::next_number;
use crate::status::{CLOSED, NO_CLIENT, NOT_FREED, NUMBERS_SPENT, OK};
use timer_base::{Handle, LAST, Wheel};
use timer_desk::{Desk, RingInlet};
use timer_wheels::TieredWheel;

/// Stops the pending timers of a client whose line was freed, and writes how many they were.
pub(crate) fn stop_pending(
    desk: &mut Desk<TieredWheel, RingInlet>,
    client: usize,
    stopped: &mut usize,
) -> u32
    ensures stopped { result ≡ OK → HasStopped client stopped.new desk.old desk.new }
    ensures refused { 0 < result → WhyNotStopped client desk.old desk.new result }
    ensures kept { 0 < result → (stopped.new ≡ stopped.old) × OnlyLooks client desk.old desk.new }
{
    if client >= desk.clients() {
        return NO_CLIENT;
    }
    if !desk.is_abandoned(client) {
        return NOT_FREED;
    }
    if desk.facility().is_closed() {
        return CLOSED;
    }
    let count = desk.facility().pending_of(client as u64);
    let next = next_number(desk, client);
    if next > LAST + 1 || count as u64 > LAST + 1 - next {
        return NUMBERS_SPENT;
    }
    stop_each(desk, client);
    *stopped = count;
    OK
}

/// Stops each pending timer of a client that is gone.
fn stop_each(desk: &mut Desk<TieredWheel, RingInlet>, client: usize)
    requires client { client < clients_of desk.old }
    requires gone { (i : RingInlet) → found_by_inlet (get_or desk.old.inlets client i) ≢ Found.Nothing }
    requires open { desk.old.facility.is_closed ≡ false }
    requires numbers { number_of desk.old.facility client + pending_of desk.old.facility client ≤ LAST + 1 }
    ensures stopped { AreStopped client (pending_of desk.old.facility client) desk.old.facility desk.new.facility }
    ensures only { desk.new ≡ record desk.old { facility = desk.new.facility } }
{
    desk.lemma_invariant();
    let mut place = 0;
    while let Some(handle) = first_from(desk, place) {
        desk.lemma_invariant();
        stop_own(desk, client, handle);
        place = handle.place + 1;
    }
}

/// The handle of the pending timer at this place or the first later one that has a timer.
fn first_from(desk: &Desk<TieredWheel, RingInlet>, place: usize) -> Option<Handle>
    ensures first { IsFirstPending place desk.now.facility.pending result }
    ensures in_range { IfSome result (λ handle. handle.place < 4294967296) }
{
    let wheel = desk.facility().wheel();
    wheel.held_from(place)
}

/// Stops the timer with this handle if it is the client's.
fn stop_own(desk: &mut Desk<TieredWheel, RingInlet>, client: usize, handle: Handle)
    requires client { client < clients_of desk.old }
    requires gone { (i : RingInlet) → found_by_inlet (get_or desk.old.inlets client i) ≢ Found.Nothing }
    ensures own { timer_named desk.old.facility client (ByHandle handle) ≢ None
        → desk.new.facility ≡ (stop_step desk.old.facility client handle).state }
    ensures other { timer_named desk.old.facility client (ByHandle handle) ≡ None
        → desk.new.facility ≡ desk.old.facility }
    ensures only { desk.new ≡ record desk.old { facility = desk.new.facility } }
{
    if desk.facility().find_named(client as u64, handle).is_some() {
        let _ = desk.stop_for(client, handle);
    }
}
