//! The functions that C calls in a client's thread. None of them waits or allocates. `timers_line_free` frees
//! memory, and so may `timers_line_finish`.
//!
//! Most contracts have the same parts: what the call did if it returns `OK`; the first reason that holds if it
//! returns another status; what is unchanged then; and that of C's structs only the state of the line changes.
ghost use Rattle.std.specs.Prelude.{◌≡◌, ◌<◌, ◌⊎◌, ◌↔◌, ◌++◌, [], true, false};
ghost use Rattle.timer_facility.specs.declared.request.Request.TheVariants.{Start, StartAt, Stop, Restart, RestartAt};
ghost use Rattle.timer_desk.specs.declared.looks.Found.TheVariants as Found;
ghost use Rattle.timer_desk_c.specs.Frames.{HasLine, HasNoLine, with_line};
ghost use Rattle.timer_desk_c.specs.Lines.{Sends, HasSent, WhyNotSent, SameTraffic, SameSent, LookedInOrder, HasReceived, HasFinished, IsReadToEnd, MayReceive, IsSameLine, is_open_line, is_ended_line, seen_on, unread_on, received_on, found_on};
ghost use Rattle.timer_desk_c.specs.Freed.{HasNoWord};
ghost use Rattle.timer_desk_c.specs.Messages.{base_handle};
ghost use Rattle.timer_desk_c.specs.declared.status.TheConstants.{OK, NOT_OPEN, FINISHED};

use crate::c_structs::CLine;
use crate::const_structs::ConstLine;
use crate::layout::{CHandle, Message};
use crate::messages::from_c_handle;
use crate::status::NOT_OPEN;
use std::alloc::Global;
use timer_facility::Request;

/// Sends the request to start a timer that expires after `interval` ticks, and writes the request's number.
#[unsafe(no_mangle)]
pub extern "C" fn timers_line_start(
    line: &mut CLine,
    interval: u64,
    action: u64,
    number: &mut u64,
) -> u32
    ensures { Sends (Start interval action) result number.old number.new line.old line.new }
{
    send(line, Request::Start { interval, action }, number)
}

/// Sends the request to start a timer that expires at the tick `deadline`, and writes the request's number.
#[unsafe(no_mangle)]
pub extern "C" fn timers_line_start_at(
    line: &mut CLine,
    deadline: u64,
    action: u64,
    number: &mut u64,
) -> u32
    ensures { Sends (StartAt deadline action) result number.old number.new line.old line.new }
{
    send(line, Request::StartAt { deadline, action }, number)
}

/// Sends the request to stop the timer with this handle, and writes the request's number.
#[unsafe(no_mangle)]
pub extern "C" fn timers_line_stop(line: &mut CLine, handle: CHandle, number: &mut u64) -> u32
    ensures { Sends (Stop (base_handle handle)) result number.old number.new line.old line.new }
{
    send(line, Request::Stop(from_c_handle(handle)), number)
}

/// Sends the request to stop the timer with this handle and start another in its place, and writes the
/// request's number.
#[unsafe(no_mangle)]
pub extern "C" fn timers_line_restart(
    line: &mut CLine,
    handle: CHandle,
    interval: u64,
    action: u64,
    number: &mut u64,
) -> u32
    ensures { Sends (Restart (base_handle handle) interval action) result number.old number.new line.old line.new }
{
    let handle = from_c_handle(handle);
    let request = Request::Restart {
        handle,
        interval,
        action,
    };
    send(line, request, number)
}

/// Sends the request to stop the timer with this handle and start another in its place that expires at the tick
/// `deadline`, and writes the request's number.
#[unsafe(no_mangle)]
pub extern "C" fn timers_line_restart_at(
    line: &mut CLine,
    handle: CHandle,
    deadline: u64,
    action: u64,
    number: &mut u64,
) -> u32
    ensures { Sends (RestartAt (base_handle handle) deadline action) result number.old number.new line.old line.new }
{
    let handle = from_c_handle(handle);
    let request = Request::RestartAt {
        handle,
        deadline,
        action,
    };
    send(line, request, number)
}

/// Sends a request, and writes its number.
#[inline]
fn send(line: &mut CLine, request: Request, number: &mut u64) -> u32
    ensures sent { result ≡ OK → HasLine line.old
        × HasSent request line.old.slot.state line.new.slot.state number.new }
    ensures refused { 0 < result → ((result ≡ NOT_OPEN) × HasNoLine line.old)
        ⊎ (HasLine line.old × WhyNotSent line.old.slot.state line.new.slot.state result) }
    ensures kept { 0 < result → SameTraffic line.old.slot.state line.new.slot.state
        × (number.new ≡ number.old) }
    ensures received { received_on line.new.slot.state ≡ received_on line.old.slot.state }
    ensures found { found_on line.new.slot.state ≡ found_on line.old.slot.state }
    ensures line { IsSameLine line.old.slot.state line.new.slot.state }
    ensures only { line.new ≡ with_line line.old line.new.slot.state }
{
    match line.line() {
        Some(line) => line.send(request, number),
        None => NOT_OPEN,
    }
}

/// Receives the next word. Returns whether there was one.
#[unsafe(no_mangle)]
pub extern "C" fn timers_line_receive(line: &mut CLine, out: &mut Message) -> bool
    ensures received { result ≡ true → HasLine line.old
        × HasReceived line.old.slot.state line.new.slot.state out.new }
    ensures none { result ≡ false → (received_on line.new.slot.state ≡ received_on line.old.slot.state)
        × (out.new ≡ out.old) }
    ensures nothing_seen { result ≡ false → HasLine line.old
        → (seen_on line.old.slot.state ≡ []) × (unread_on line.old.slot.state ≡ []) }
    ensures all { is_ended_line line.old.slot.state ≡ true
        → received_on line.new.slot.state ++ unread_on line.new.slot.state
        ≡ received_on line.old.slot.state ++ unread_on line.old.slot.state }
    ensures sent { SameSent line.old.slot.state line.new.slot.state }
    ensures found { found_on line.new.slot.state ≡ found_on line.old.slot.state }
    ensures line { IsSameLine line.old.slot.state line.new.slot.state }
    ensures only { line.new ≡ with_line line.old line.new.slot.state }
{
    match line.line() {
        Some(line) => line.receive(out),
        None => false,
    }
}

/// Whether no further word will arrive: the owner has ended the words, and all of them were received.
#[unsafe(no_mangle)]
pub extern "C" fn timers_line_ended(line: &mut ConstLine) -> bool
    ensures yes { result ≡ true → HasLine line.old.held × IsReadToEnd line.old.held.slot.state }
    ensures no { result ≡ false → HasLine line.old.held → MayReceive line.old.held.slot.state }
    ensures same { line.new ≡ line.old }
{
    match line.line() {
        Some(line) => line.is_read_to_end(),
        None => false,
    }
}

/// Whether the desk was freed before it had ended the words, and all words that it put into the line were received.
///
/// The ring of words reports whether its other end was freed, and no clause is about that report. Unless the words
/// have ended, the result is true exactly if the ring reported the desk to be gone, and the line was empty after that.
#[unsafe(no_mangle)]
pub extern "C" fn timers_line_abandoned(line: &mut CLine) -> bool
    ensures over { HasLine line.old → is_ended_line line.old.slot.state ≡ false
        → (result ≡ true ↔ (found_on line.new.slot.state ≡ Found.GoneThenEmpty)) }
    ensures order { HasLine line.old → is_ended_line line.old.slot.state ≡ false
        → LookedInOrder line.old.slot.state line.new.slot.state }
    ensures ended { is_ended_line line.old.slot.state ≡ true → line.new ≡ line.old }
    ensures yes { result ≡ true → HasLine line.old
        × HasNoWord line.old.slot.state line.new.slot.state }
    ensures not_open { HasNoLine line.old → (result ≡ false) × (line.new ≡ line.old) }
    ensures kept { SameTraffic line.old.slot.state line.new.slot.state }
    ensures line { IsSameLine line.old.slot.state line.new.slot.state }
    ensures only { line.new ≡ with_line line.old line.new.slot.state }
{
    match line.line() {
        Some(line) => line.is_abandoned(),
        None => false,
    }
}

/// Ends the requests of this line. Words are still received.
#[unsafe(no_mangle)]
pub extern "C" fn timers_line_finish(line: &mut CLine) -> u32
    ensures finished { result ≡ OK → HasLine line.old × HasFinished line.old.slot.state line.new.slot.state }
    ensures refused { 0 < result → ((result ≡ NOT_OPEN) × HasNoLine line.old)
        ⊎ (HasLine line.old × (result ≡ FINISHED) × (is_open_line line.old.slot.state ≡ false)) }
    ensures kept { 0 < result → line.new ≡ line.old }
    ensures received { received_on line.new.slot.state ≡ received_on line.old.slot.state }
    ensures only { line.new ≡ with_line line.old line.new.slot.state }
{
    match line.line() {
        Some(line) => line.finish(),
        None => NOT_OPEN,
    }
}

/// Frees the end of the line, if there is one.
#[unsafe(no_mangle)]
pub extern "C" fn timers_line_free(alloc: Global, line: &mut CLine)
    ensures shut { HasNoLine line.new }
    ensures kept { HasNoLine line.old → line.new ≡ line.old }
{
    if let Some(_) = line.line() {
        drop(line.slot.cell().take(alloc));
    }
}
