//! Words to a client as C's struct.
ghost use Rattle.std.specs.Prelude.{◌≡◌};
ghost use Rattle.timer_desk_c.specs.Messages.{c_handle, base_handle, reason_of, message_of_answer, message_of_not_taken, message_of_timer, message_of};

use crate::layout::{CHandle, Message};
use crate::status::{
    AHEAD, CAPACITY, CLOSED, EXPIRED, NO_CLIENT, NO_MEMORY, NOT_PENDING, NOT_TAKEN, NUMBERS_SPENT,
    REFUSED, REPEATED, RESTARTED, RETURNED, SERIALS_SPENT, STARTED, STOPPED, TOO_LATE,
    ZERO_INTERVAL,
};
use timer_base::Timer;
use timer_desk::Word;
use timer_facility::{Answer, NotTaken, Notice, Reason};

/// A word as C's struct.
pub(crate) fn message_of(word: Word) -> Message
    ensures { result ≡ message_of word }
{
    match word {
        Word::Answered {
            number,
            action,
            answer,
        } => message_of_answer(number, action, answer),
        Word::NotTaken {
            number,
            action,
            reason,
        } => message_of_not_taken(number, action, reason),
        Word::Notice(Notice::Expired(timer)) => message_of_timer(EXPIRED, timer),
        Word::Notice(Notice::Returned(timer)) => message_of_timer(RETURNED, timer),
    }
}

fn message_of_answer(number: u64, action: u64, answer: Answer) -> Message
    ensures { result ≡ message_of_answer number action answer }
{
    match answer {
        Answer::Started { handle, deadline } => Message {
            kind: STARTED,
            number,
            handle: to_c_handle(handle),
            deadline,
            action,
            ..Message::default()
        },
        Answer::Stopped { serial } => Message {
            kind: STOPPED,
            number,
            handle: CHandle { place: 0, serial },
            ..Message::default()
        },
        Answer::Restarted {
            handle,
            deadline,
            old,
        } => Message {
            kind: RESTARTED,
            number,
            handle: to_c_handle(handle),
            deadline,
            action,
            other: old,
            ..Message::default()
        },
        Answer::Refused(reason) => Message {
            kind: REFUSED,
            reason: number_of(reason),
            number,
            action,
            ..Message::default()
        },
    }
}

fn message_of_not_taken(number: u64, action: u64, reason: NotTaken) -> Message
    ensures { result ≡ message_of_not_taken number action reason }
{
    let (reason, other) = match reason {
        NotTaken::Closed => (CLOSED, 0),
        NotTaken::NoClient => (NO_CLIENT, 0),
        NotTaken::Repeated { next } => (REPEATED, next),
        NotTaken::NumbersSpent => (NUMBERS_SPENT, 0),
        NotTaken::Ahead { next } => (AHEAD, next),
        NotTaken::OutOfMemory => (NO_MEMORY, 0),
    };
    Message {
        kind: NOT_TAKEN,
        reason,
        number,
        action,
        other,
        ..Message::default()
    }
}

fn message_of_timer(kind: u32, timer: Timer) -> Message
    ensures { result ≡ message_of_timer kind timer }
{
    Message {
        kind,
        number: timer.number,
        handle: CHandle {
            place: 0,
            serial: timer.serial,
        },
        deadline: timer.deadline,
        action: timer.action,
        ..Message::default()
    }
}

fn number_of(reason: Reason) -> u32
    ensures { result ≡ reason_of reason }
{
    match reason {
        Reason::ZeroInterval => ZERO_INTERVAL,
        Reason::TooLate => TOO_LATE,
        Reason::SerialsSpent => SERIALS_SPENT,
        Reason::Full => CAPACITY,
        Reason::NoSuch => NOT_PENDING,
    }
}

/// A handle as C's struct.
fn to_c_handle(handle: timer_base::Handle) -> CHandle
    ensures { result ≡ c_handle handle }
{
    CHandle {
        place: handle.place,
        serial: handle.serial,
    }
}

/// A handle as the wheel's type.
pub(crate) fn from_c_handle(handle: CHandle) -> timer_base::Handle
    ensures { result ≡ base_handle handle }
{
    timer_base::Handle {
        place: handle.place,
        serial: handle.serial,
    }
}
