//! The end of a desk over ring lines whose clients have finished.
ghost use Rattle.std.specs.Prelude.{◌≡◌, ◌<◌, get_or, vec_len, false, IsTrue, IfOk, IfErr};
ghost use Rattle.timer_facility.specs.Facility.{with_nothing_waiting};
ghost use Rattle.timer_desk.specs.Desk.{clients_of, backlog_at, IsIdle, AllIdle};
ghost use Rattle.timer_desk.specs.RingEnds.{line_of_inlet, got_of, requests_ring_of, all_submitted};
ghost use Rattle.timer_desk.specs.WindingUp.{AreEndsOf, AreReadersOf, AllGot, AllReadOut, KeepsLines, IsWaiting, IsFirstUnfinished};

use crate::desk::Desk;
use crate::ring_ends::{ClientReader, RequestsEnded, RingInlet};
use timer_base::Wheel;
use timer_facility::Facility;

/// Settles each line and each reader, and ends the desk.
///
/// An error drops all of them. It is the first client with a held request, a request left in its line or a
/// word in its outbox; and then no reader was settled.
pub fn wind_up<W: Wheel + Drop>(
    desk: Desk<W, RingInlet>,
    ended: Vec<RequestsEnded>,
    readers: Vec<ClientReader>,
) -> Result<(Facility<W>, Vec<ClientReader>), usize>
    requires ended { AreEndsOf desk.inlets ended.items }
    requires readers { AreReadersOf desk.inlets readers.items }
    ensures idle { IfOk result (λ _. AllIdle desk) }
    ensures facility { IfOk result (λ done. done.0 ≡ with_nothing_waiting desk.facility) }
    ensures requests { IfOk result (λ _. AllGot desk.inlets ended.items) }
    ensures as_many { IfOk result (λ done. vec_len done.1 ≡ clients_of desk) }
    ensures words { IfOk result (λ done. AllReadOut desk.inlets readers.items done.1.items) }
    ensures err { IfErr result (λ c. IsFirstUnfinished desk ended.items c) }
{
    let mut desk = desk;
    let mut ended = ended;
    for c in 0..ended.len() {
        if !is_done(&mut desk, c, &mut ended[c]) {
            return Err(c);
        }
    }
    let mut readers = readers;
    for k in 0..readers.len() {
        desk.settle_reader(k, &mut readers[k]);
    }
    let (facility, _) = desk.end();
    Ok((facility, readers))
}

/// Settles the line of client c, and returns whether the client is done: no request is held, none stands
/// in the line, and its outbox is empty.
fn is_done<W: Wheel + Drop>(
    desk: &mut Desk<W, RingInlet>,
    c: usize,
    ended: &mut RequestsEnded,
) -> bool
    requires client { c < clients_of desk.old }
    requires line { (i : RingInlet) → requests_ring_of ended.old
        ≡ (line_of_inlet (get_or desk.old.inlets c i)).0 }
    ensures idle { IsTrue result → IsIdle (backlog_at desk.old c) }
    ensures all { IsTrue result → (i : RingInlet) → all_submitted ended.old
        ≡ got_of (get_or desk.old.inlets c i) }
    ensures waiting { result ≡ false → (i : RingInlet)
        → IsWaiting (backlog_at desk.old c) (got_of (get_or desk.old.inlets c i)) (all_submitted ended.old) }
    ensures keeps { KeepsLines desk.old desk.new }
{
    if desk.held(c).is_some() {
        return false;
    }
    if desk.outbox_len(c) > 0 {
        return false;
    }
    desk.settle(c, ended) == 0
}
