//! The items that a line carries: requests one way, words the other.
ghost use Rattle.std.specs.Prelude.{◌≡◌};
ghost use Rattle.timer_facility.specs.State.{action_of};
ghost use Rattle.timer_facility.specs.Facility.{model_of};

use timer_facility::{Answer, NotTaken, Notice, Request};

/// A request with its number.
///
/// Where speed counts, copy its fields and not the whole. The tag of an enum is one byte. In a copy of the whole,
/// the compiler takes the bytes behind the tag in pieces that overlap, and reading those back stalls.
#[derive(Clone, Copy, Debug, PartialEq, Eq)]
pub struct Numbered {
    pub number: u64,
    pub request: Request,
}

/// The action of the timer that a request starts, 0 if it starts none.
#[inline(always)]
pub fn action_of(request: Request) -> u64
    ensures { result ≡ action_of (model_of request) }
{
    match request {
        Request::Start { action, .. } | Request::StartAt { action, .. } => action,
        Request::Restart { action, .. } | Request::RestartAt { action, .. } => action,
        Request::Stop(_) => 0,
    }
}

/// A message to a client.
#[derive(Clone, Copy, Debug, PartialEq, Eq)]
pub enum Word {
    /// The request with this number was taken. `action` is that of the request, 0 if it is a stop.
    Answered {
        number: u64,
        action: u64,
        answer: Answer,
    },
    /// The request with this number was not taken. The reason is never `OutOfMemory`, and `action` is as above.
    NotTaken {
        number: u64,
        action: u64,
        reason: NotTaken,
    },
    /// A timer of the client was handed out.
    Notice(Notice),
}
