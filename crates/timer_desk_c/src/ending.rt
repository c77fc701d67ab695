//! Ends the words of a client that has finished, once nothing of it is left at the desk; and those of every client:
//! each is tried in turn, and the first that is left is reported.
ghost use Rattle.std.specs.Prelude.{◌≡◌, ◌≢◌, ◌<◌, ◌⊎◌, length, get_or, true, false, Some, None, IfSome};
ghost use Rattle.timer_desk.specs.declared.ring_ends.RingInlet.{RingInlet};
ghost use Rattle.timer_desk.specs.Desk.{clients_of};
ghost use Rattle.timer_desk.specs.RingEnds.{line_of_inlet, requests_ring_of, all_submitted};
ghost use Rattle.timer_desk.specs.Settlement.{HasLooked};
ghost use Rattle.timer_desk.specs.WindingUp.{KeepsLines};
ghost use Rattle.timer_desk_c.specs.Desks.{IsAsBefore};
ghost use Rattle.timer_desk_c.specs.Frames.{HasLine, HasNoLine, with_line, is_own};
ghost use Rattle.timer_desk_c.specs.Ending.{IsGone, IsLeft, IsTied, OnlySettles, HasEnded, WhyNotEnded, AreTied, OnlyStates, IsFreedAt, IsEndedAt, IsHeldBackAt, IsElsewhereAt, next_left, AllTried, AllEnded, WhyNotAllEnded};
ghost use Rattle.timer_desk_c.specs.declared.status.TheConstants.{OK, LEFT, NOT_FREED};

use crate::c_structs::{CLine, is_line_of};
use crate::line::Line;
use crate::opening::is_clear;
use crate::status::{LEFT, NO_CLIENT, NOT_FINISHED, NOT_FREED, OK, OTHER_LINE, OUT_OF_RANGE};
use timer_base::Wheel;
use timer_desk::{Desk, RequestsEnded, RingInlet};

/// Ends the words of a client, and writes how many stand in its line. `own` says whether the line is the client's, in
/// this life of the desk's struct.
pub(crate) fn end<W: Wheel + Drop>(
    desk: &mut Desk<W, RingInlet>,
    client: usize,
    own: bool,
    line: &mut Line,
    unread: &mut usize,
) -> u32
    requires line { client < clients_of desk.old → own ≡ true → IsTied client desk.old line.old }
    ensures ended { result ≡ OK → (own ≡ true) × HasEnded client unread.new desk.old line.old line.new }
    ensures refused { 0 < result → WhyNotEnded client own desk.old line.old result }
    ensures kept { 0 < result → (unread.new ≡ unread.old) × IsAsBefore line.old line.new }
    ensures same { 0 < result → result ≢ LEFT → desk.new ≡ desk.old }
    ensures desk { OnlySettles client desk.old desk.new }
{
    if client >= desk.clients() {
        return NO_CLIENT;
    }
    if !own {
        return OTHER_LINE;
    }
    match line {
        Line::Open(_) => NOT_FINISHED,
        Line::Finished(requests, reader) => match requests {
            Some(ended) => {
                if is_left(desk, client, ended) {
                    return LEFT;
                }
                *unread = desk.settle_reader(client, reader);
                OK
            }
            None => OTHER_LINE,
        },
        Line::Gone => OTHER_LINE,
    }
}

/// Settles the requests of a client, and returns whether something of it is left at the desk.
fn is_left<W: Wheel + Drop>(
    desk: &mut Desk<W, RingInlet>,
    client: usize,
    ended: &mut RequestsEnded,
) -> bool
    requires client { client < clients_of desk.old }
    requires line { (i : RingInlet) → requests_ring_of ended.old
        ≡ (line_of_inlet (get_or desk.old.inlets client i)).0 }
    ensures gone { result ≡ false → IsGone client desk.old (all_submitted ended.old) }
    ensures left { result ≡ true → IsLeft client desk.old (all_submitted ended.old) }
    ensures desk { OnlySettles client desk.old desk.new }
    ensures ended { (requests_ring_of ended.new ≡ requests_ring_of ended.old)
        × (all_submitted ended.new ≡ all_submitted ended.old) }
{
    if !is_clear(desk, client) {
        return true;
    }
    desk.settle(client, ended) > 0
}

/// A client whose words were not ended.
#[derive(Clone, Copy)]
pub struct Unended {
    pub client: usize,
    /// Why not.
    pub status: u32,
}

/// Ends the words of each client whose words can be ended, and skips those whose line was freed. Fails
/// with the status of the first client for which they can't, and writes its number.
pub(crate) fn end_all<W: Wheel + Drop>(
    desk: &mut Desk<W, RingInlet>,
    lives: u64,
    lines: &mut [CLine],
    client: &mut usize,
) -> u32
    requires lines { length lines.old ≡ clients_of desk.old → AreTied lives desk.old lines.old }
    ensures ended { result ≡ OK → AllEnded lives desk.old desk.new lines.old lines.new }
    ensures refused { 0 < result → WhyNotAllEnded lives client.new result desk.old desk.new lines.old lines.new }
    ensures client { result ≡ OK → client.new ≡ client.old }
    ensures kept { length lines.old ≢ clients_of desk.old → (desk.new ≡ desk.old) × (lines.new ≡ lines.old)
        × (client.new ≡ client.old) }
    ensures desk { KeepsLines desk.old desk.new }
    ensures only { OnlyStates lines.old lines.new }
{
    if lines.len() != desk.clients() {
        return OUT_OF_RANGE;
    }
    match end_each(desk, lives, lines) {
        None => OK,
        Some(left) => {
            *client = left.client;
            left.status
        }
    }
}

/// Tries each client in turn, and returns the first whose words were not ended.
fn end_each<W: Wheel + Drop>(
    desk: &mut Desk<W, RingInlet>,
    lives: u64,
    lines: &mut [CLine],
) -> Option<Unended>
    requires as_many { length lines.old ≡ clients_of desk.old }
    requires lines { AreTied lives desk.old lines.old }
    ensures tried { AllTried lives result desk.old desk.new lines.old lines.new }
    ensures refused { IfSome result (λ left. 0 < left.status) }
    ensures desk { KeepsLines desk.old desk.new }
    ensures only { OnlyStates lines.old lines.new }
{
    let mut left = None;
    for client in 0..lines.len() {
        let status = end_held(desk, client, lives, &mut lines[client]);
        left = first_left(left, client, status);
    }
    left
}

/// Ends the words of a client, if they can be ended. Nobody reads the words of a client whose line was freed. A struct
/// that holds no line was freed, or it was moved, and then the client may still wait for words.
fn end_held<W: Wheel + Drop>(
    desk: &mut Desk<W, RingInlet>,
    client: usize,
    lives: u64,
    line: &mut CLine,
) -> u32
    requires client { client < clients_of desk.old }
    requires line { HasLine line.old → client < clients_of desk.old → is_own client lives line.old ≡ true
        → IsTied client desk.old line.old.slot.state }
    ensures over { result ≡ OK → (i : RingInlet) → IsFreedAt (get_or desk.new.inlets client i) line.old
        ⊎ IsEndedAt lives client desk.old line.old line.new }
    ensures left { 0 < result → (i : RingInlet) → IsHeldBackAt lives client result desk.old line.old line.new
        ⊎ IsElsewhereAt result (get_or desk.new.inlets client i) line.old line.new }
    ensures same { 0 < result → result ≢ LEFT → HasLine line.old → desk.new ≡ desk.old }
    ensures looked { HasNoLine line.old → (i : RingInlet) → HasLooked (get_or desk.old.inlets client i)
        (get_or desk.new.inlets client i) }
    ensures desk { OnlySettles client desk.old desk.new }
    ensures only { line.new ≡ with_line line.old line.new.slot.state }
{
    let own = is_line_of(line.client, line.life, client, lives);
    let mut unread = 0;
    match line.line() {
        Some(line) => end(desk, client, own, line, &mut unread),
        None if desk.is_abandoned(client) => OK,
        None => NOT_FREED,
    }
}

/// The first client that was left, after this one.
fn first_left(left: Option<Unended>, client: usize, status: u32) -> Option<Unended>
    ensures next { result ≡ next_left left client status }
    ensures still { IfSome left (λ l. 0 < l.status) → IfSome result (λ l. 0 < l.status) }
{
    if left.is_some() || status == OK {
        return left;
    }
    Some(Unended { client, status })
}
