//! The functions that C calls in the owner's thread for lines that were freed or have finished: how they end, and how another takes
//! the place of one.
ghost use Rattle.std.specs.Prelude.{◌≡◌, ◌≢◌, ◌<◌, ◌≤◌, ◌⊎◌, length, true, false};
ghost use Rattle.timer_desk.specs.Desk.{clients_of};
ghost use Rattle.timer_desk.specs.WindingUp.{KeepsLines};
ghost use Rattle.timer_desk_c.specs.Frames.{HasDesk, HasNoDesk, with_desk, HasLine, HasNoLine, with_line, is_own};
ghost use Rattle.timer_desk_c.specs.Desks.{IsSettled, IsGivenAs, IsAsBefore, WhyNotSettled};
ghost use Rattle.timer_desk_c.specs.Ending.{IsTied, AreTied, OnlySettles, OnlyStates, HasEnded, AllEnded, WhyNotEnded, WhyNotAllEnded};
ghost use Rattle.timer_desk_c.specs.Freed.{OnlyLooks, IsSeenFreed};
ghost use Rattle.timer_desk_c.specs.Opening.{HasOpened, WhyNotOpened};
ghost use Rattle.timer_desk_c.specs.Stopping.{HasStopped, WhyNotStopped};
ghost use Rattle.timer_desk_c.specs.declared.status.TheConstants.{OK, NOT_OPEN, OPEN, LEFT};

use crate::c_structs::{CDesk, CLine, is_line_of};
use crate::ending::{end, end_all};
use crate::line::Line;
use crate::opening::open;
use crate::placement::hold;
use crate::status::{NO_CLIENT, NOT_FINISHED, NOT_OPEN, OK, OPEN, OTHER_LINE};
use crate::stopping::stop_pending;
use std::alloc::Global;

/// Whether a client's line was freed. False if there is no such client or no desk.
///
/// It is what the ring of its words has reported of its other end, by now or at an earlier call. No clause is about
/// that report. Nothing changes but what is known of the line.
#[unsafe(no_mangle)]
pub extern "C" fn timers_desk_line_freed(d: &mut CDesk, client: usize) -> bool
    ensures looked { HasDesk d.old → client < clients_of d.old.slot.state
        → OnlyLooks client d.old.slot.state d.new.slot.state }
    ensures freed { HasDesk d.old → client < clients_of d.old.slot.state
        → IsSeenFreed result client d.old.slot.state d.new.slot.state }
    ensures none { HasDesk d.old → clients_of d.old.slot.state ≤ client
        → (result ≡ false) × (d.new ≡ d.old) }
    ensures not_open { HasNoDesk d.old → (result ≡ false) × (d.new ≡ d.old) }
    ensures only { d.new ≡ with_desk d.old d.new.slot.state }
{
    match d.desk() {
        Some(desk) if client < desk.clients() => desk.is_abandoned(client),
        _ => false,
    }
}

/// Opens a new line for a client whose line was freed and of which nothing is left at the desk. `line` holds the
/// client's end from then on. The numbers of its requests go on from those before.
#[unsafe(no_mangle)]
pub extern "C" fn timers_desk_open(
    alloc: Global,
    d: &mut CDesk,
    client: usize,
    line: &mut CLine,
    room: usize,
) -> u32
    ensures opened { result ≡ OK → HasDesk d.old × HasNoLine line.old × HasLine line.new
        × (line.new.client ≡ client) × (line.new.life ≡ d.old.lives)
        × HasOpened client room d.old.slot.state d.new.slot.state line.new.slot.state }
    ensures refused { 0 < result → ((result ≡ NOT_OPEN) × HasNoDesk d.old)
        ⊎ ((result ≡ OPEN) × HasDesk d.old × HasLine line.old)
        ⊎ (HasDesk d.old × HasNoLine line.old
        × WhyNotOpened client room d.old.slot.state d.new.slot.state result) }
    ensures kept { 0 < result → (line.new ≡ line.old) × ((d.new ≡ d.old)
        ⊎ OnlyLooks client d.old.slot.state d.new.slot.state) }
    ensures only { d.new ≡ with_desk d.old d.new.slot.state }
{
    let lives = d.lives;
    let Some(desk) = d.desk() else {
        return NOT_OPEN;
    };
    if let Some(_) = line.line() {
        return OPEN;
    }
    match open(alloc, desk, client, room) {
        Ok(end) => {
            hold(line, end, client, lives);
            OK
        }
        Err(status) => status,
    }
}

/// Stops all pending timers of a client whose line was freed, and writes how many they were. Each is stopped by a
/// request of the client, under its next number, whose answer nobody gets.
#[unsafe(no_mangle)]
pub extern "C" fn timers_desk_stop_pending(d: &mut CDesk, client: usize, stopped: &mut usize) -> u32
    ensures stopped { result ≡ OK → HasDesk d.old
        × HasStopped client stopped.new d.old.slot.state d.new.slot.state }
    ensures refused { 0 < result → ((result ≡ NOT_OPEN) × HasNoDesk d.old)
        ⊎ (HasDesk d.old × WhyNotStopped client d.old.slot.state d.new.slot.state result) }
    ensures kept { 0 < result → (stopped.new ≡ stopped.old) × ((d.new ≡ d.old)
        ⊎ OnlyLooks client d.old.slot.state d.new.slot.state) }
    ensures only { d.new ≡ with_desk d.old d.new.slot.state }
{
    match d.desk() {
        Some(desk) => stop_pending(desk, client, stopped),
        None => NOT_OPEN,
    }
}

/// Settles the line of a client that has finished, and writes how many of its requests still stand in it.
#[unsafe(no_mangle)]
pub extern "C" fn timers_desk_settle(
    d: &mut CDesk,
    client: usize,
    line: &mut CLine,
    standing: &mut usize,
) -> u32
    requires line { HasDesk d.old → HasLine line.old → client < clients_of d.old.slot.state
        → is_own client d.old.lives line.old ≡ true
        → IsGivenAs client d.old.slot.state line.old.slot.state }
    ensures settled { result ≡ OK → HasDesk d.old × HasLine line.old × (is_own client d.old.lives line.old ≡ true)
        × IsSettled client standing.new line.old.slot.state d.old.slot.state d.new.slot.state }
    ensures refused { 0 < result → ((result ≡ NOT_OPEN) × (HasNoDesk d.old ⊎ HasNoLine line.old))
        ⊎ (HasDesk d.old × HasLine line.old × WhyNotSettled client (clients_of d.old.slot.state)
        (is_own client d.old.lives line.old) line.old.slot.state result) }
    ensures kept { 0 < result → (d.new ≡ d.old) × (standing.new ≡ standing.old) }
    ensures line { IsAsBefore line.old.slot.state line.new.slot.state }
    ensures only { (d.new ≡ with_desk d.old d.new.slot.state)
        × (line.new ≡ with_line line.old line.new.slot.state) }
{
    let own = is_line_of(line.client, line.life, client, d.lives);
    let Some(desk) = d.desk() else {
        return NOT_OPEN;
    };
    let Some(line) = line.line() else {
        return NOT_OPEN;
    };
    if client >= desk.clients() {
        return NO_CLIENT;
    }
    if !own {
        return OTHER_LINE;
    }
    match line {
        Line::Open(_) => NOT_FINISHED,
        Line::Finished(Some(ended), _) => {
            *standing = desk.settle(client, ended);
            OK
        }
        Line::Finished(None, _) => OTHER_LINE,
        Line::Gone => OTHER_LINE,
    }
}

/// Ends the words of a client that has finished, unless something of it is left at the desk, and writes how
/// many stand in its line: with those that it has received they are all that it was given.
#[unsafe(no_mangle)]
pub extern "C" fn timers_desk_end(
    d: &mut CDesk,
    client: usize,
    line: &mut CLine,
    unread: &mut usize,
) -> u32
    requires line { HasDesk d.old → HasLine line.old → client < clients_of d.old.slot.state
        → is_own client d.old.lives line.old ≡ true
        → IsTied client d.old.slot.state line.old.slot.state }
    ensures ended { result ≡ OK → HasDesk d.old × HasLine line.old × (is_own client d.old.lives line.old ≡ true)
        × HasEnded client unread.new d.old.slot.state line.old.slot.state line.new.slot.state }
    ensures refused { 0 < result → ((result ≡ NOT_OPEN) × (HasNoDesk d.old ⊎ HasNoLine line.old))
        ⊎ (HasDesk d.old × HasLine line.old × WhyNotEnded client (is_own client d.old.lives line.old)
        d.old.slot.state line.old.slot.state result) }
    ensures kept { 0 < result → (unread.new ≡ unread.old)
        × IsAsBefore line.old.slot.state line.new.slot.state }
    ensures same { 0 < result → result ≢ LEFT → d.new ≡ d.old }
    ensures desk { OnlySettles client d.old.slot.state d.new.slot.state }
    ensures only { (d.new ≡ with_desk d.old d.new.slot.state)
        × (line.new ≡ with_line line.old line.new.slot.state) }
{
    let own = is_line_of(line.client, line.life, client, d.lives);
    let Some(desk) = d.desk() else {
        return NOT_OPEN;
    };
    let Some(line) = line.line() else {
        return NOT_OPEN;
    };
    end(desk, client, own, line, unread)
}

/// Ends the words of each client, unless something of it is left at the desk. `lines` has the line of each
/// client, at the client's number.
///
/// Returns `OK` if the words of all have ended. Otherwise, but for `NOT_OPEN` and `OUT_OF_RANGE`, it returns the reason
/// of the first client for which they have not, as `timers_desk_end` does, and writes its number. The others have ended
/// if they could. A line that was freed is skipped: no client waits for its words. If a struct holds no line, and that
/// of its client was not freed, the reason is `NOT_FREED`.
#[unsafe(no_mangle)]
pub extern "C" fn timers_desk_end_all(d: &mut CDesk, lines: &mut [CLine], client: &mut usize) -> u32
    requires lines { HasDesk d.old → length lines.old ≡ clients_of d.old.slot.state
        → AreTied d.old.lives d.old.slot.state lines.old }
    ensures ended { result ≡ OK → HasDesk d.old × AllEnded d.old.lives d.old.slot.state d.new.slot.state lines.old
        lines.new }
    ensures refused { 0 < result → ((result ≡ NOT_OPEN) × HasNoDesk d.old)
        ⊎ (HasDesk d.old × WhyNotAllEnded d.old.lives client.new result d.old.slot.state d.new.slot.state lines.old
        lines.new) }

    // The number is written only if a client is to blame.
    ensures client { result ≡ OK → client.new ≡ client.old }
    ensures shut { HasNoDesk d.old → (d.new ≡ d.old) × (lines.new ≡ lines.old) × (client.new ≡ client.old) }
    ensures other_lines { HasDesk d.old → length lines.old ≢ clients_of d.old.slot.state
        → (d.new ≡ d.old) × (lines.new ≡ lines.old) × (client.new ≡ client.old) }

    ensures desk { KeepsLines d.old.slot.state d.new.slot.state }
    ensures only { (d.new ≡ with_desk d.old d.new.slot.state) × OnlyStates lines.old lines.new }
{
    let lives = d.lives;
    match d.desk() {
        Some(desk) => end_all(desk, lives, lines, client),
        None => NOT_OPEN,
    }
}
