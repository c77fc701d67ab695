//! The text of a dump, read back: the state that its lines say, or the first line that is wrong.
//!
//!     state open 2 1       tick 2, and one serial was used; `state closed` of a closed facility
//!     number 0 1           client 0 has used one request number
//!     timer 1 0 1 130 7    timer 1 of client 0, by its request 1, for tick 130, with action 7
//!     state end 1          one timer is pending
ghost use Rattle.std.specs.Prelude.{◌≡◌, IfOk, IfErr};
ghost use Rattle.timer_script.specs.Lines.{read_view};
ghost use Rattle.timer_script.specs.SavedText.{next_at, open_at, closed_at, client_at, timer_line_at, end_at, frame_at, state_line_at, IsSavedText, WhyNotRead};

use crate::lines::{has_short_word, read_field};
use std::alloc::Global;
use thiserror::Error;
use timer_base::Timer;
use timer_facility::{Limits, SavedState, StateFault, StateLine};

/// Why a text is not read as a state. Lines are counted from 1.
#[derive(Clone, Copy, Debug, PartialEq, Eq, Error)]
pub enum SavedFault {
    /// The line is none of a dump.
    #[error("line {line}: no line of a state")]
    Form { line: u64 },
    /// The line can't follow the lines before it.
    #[error("line {line}: {fault}")]
    Line { line: u64, fault: StateFault },
    /// The text ends before the last line of a dump.
    #[error("the last line is missing")]
    CutOff,
    /// An allocation failed.
    #[error("out of memory")]
    OutOfMemory,
}

/// The next one of as many as a field says.
#[tactic(auto, unfolding(crate::specs::SavedText::next_at))]
fn read_next(bytes: &[u8]) -> Option<(u64, &[u8])>
    ensures { read_view (λ n. n) result ≡ next_at bytes.now }
{
    let (used, rest) = read_field(bytes, b'\n')?;
    Some((used + 1, rest))
}

/// What follows `state open `.
#[tactic(auto, unfolding(crate::specs::SavedText::open_at))]
fn read_open(bytes: &[u8]) -> Option<(StateLine, &[u8])>
    ensures { read_view (λ l. l) result ≡ open_at bytes.now }
{
    let (now, rest) = read_field(bytes, b' ')?;
    let (next_serial, rest) = read_next(rest)?;
    Some((StateLine::Open { now, next_serial }, rest))
}

/// What follows `state closed `.
#[tactic(auto, unfolding(crate::specs::SavedText::closed_at))]
fn read_closed(bytes: &[u8]) -> Option<(StateLine, &[u8])>
    ensures { read_view (λ l. l) result ≡ closed_at bytes.now }
{
    let (now, rest) = read_field(bytes, b' ')?;
    let (next_serial, rest) = read_next(rest)?;
    Some((StateLine::Closed { now, next_serial }, rest))
}

/// What follows `number `.
#[tactic(auto, unfolding(crate::specs::SavedText::client_at))]
fn read_client(bytes: &[u8]) -> Option<(StateLine, &[u8])>
    ensures { read_view (λ l. l) result ≡ client_at bytes.now }
{
    let (client, rest) = read_field(bytes, b' ')?;
    let (next, rest) = read_next(rest)?;
    Some((StateLine::Number { client, next }, rest))
}

/// What follows `timer `.
#[tactic(auto, unfolding(crate::specs::SavedText::timer_line_at))]
fn read_timer(bytes: &[u8]) -> Option<(StateLine, &[u8])>
    ensures { read_view (λ l. l) result ≡ timer_line_at bytes.now }
{
    let (serial, rest) = read_field(bytes, b' ')?;
    let (client, rest) = read_field(rest, b' ')?;
    let (number, rest) = read_field(rest, b' ')?;
    let (deadline, rest) = read_field(rest, b' ')?;
    let (action, rest) = read_field(rest, b'\n')?;
    let timer = Timer {
        serial,
        client,
        number,
        deadline,
        action,
    };
    Some((StateLine::Pending(timer), rest))
}

/// What follows `state end `.
#[tactic(auto, unfolding(crate::specs::SavedText::end_at))]
fn read_end(bytes: &[u8]) -> Option<(StateLine, &[u8])>
    ensures { read_view (λ l. l) result ≡ end_at bytes.now }
{
    let (pending, rest) = read_field(bytes, b'\n')?;
    Some((StateLine::End { pending }, rest))
}

/// The first or the last line of a dump, and the bytes after it.
#[tactic(auto, unfolding(crate::specs::SavedText::frame_at))]
fn read_frame(bytes: &[u8]) -> Option<(StateLine, &[u8])>
    ensures { read_view (λ l. l) result ≡ frame_at bytes.now }
{
    if has_short_word(bytes, b"state open ") {
        return read_open(&bytes[11..]);
    }
    if has_short_word(bytes, b"state closed ") {
        return read_closed(&bytes[13..]);
    }
    if has_short_word(bytes, b"state end ") {
        return read_end(&bytes[10..]);
    }
    None
}

/// The line at the front, and the bytes after it.
#[tactic(auto, unfolding(crate::specs::SavedText::state_line_at))]
fn read_state_line(bytes: &[u8]) -> Option<(StateLine, &[u8])>
    ensures { read_view (λ l. l) result ≡ state_line_at bytes.now }
{
    if has_short_word(bytes, b"timer ") {
        return read_timer(&bytes[6..]);
    }
    if has_short_word(bytes, b"number ") {
        return read_client(&bytes[7..]);
    }
    read_frame(bytes)
}

/// The state that the lines of a dump say, for a facility with these limits.
///
/// A text that is no such state is refused at its first wrong line. An error in the form of a line comes before one in
/// what it says.
pub fn read_saved(alloc: Global, bytes: &[u8], limits: Limits) -> Result<SavedState, SavedFault>
    ensures ok { IfOk result (λ saved. IsSavedText limits bytes.now saved) }
    ensures fault { IfErr result (WhyNotRead limits bytes.now) }
{
    let mut saved = SavedState::new(alloc, limits);
    let mut rest = bytes;
    let mut line = 0u64;
    while !rest.is_empty() {
        line += 1;
        let Some((next, after)) = read_state_line(rest) else {
            return Err(SavedFault::Form { line });
        };
        if let Some(fault) = saved.fault_in(next) {
            return Err(SavedFault::Line { line, fault });
        }
        let Ok(()) = saved.push(next) else {
            return Err(SavedFault::OutOfMemory);
        };
        rest = after;
    }
    if !saved.is_whole() {
        return Err(SavedFault::CutOff);
    }
    Ok(saved)
}
