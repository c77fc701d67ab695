//! What `timer_total` takes and returns, as C's statuses and structs.
ghost use Rattle.std.specs.Prelude.{◌≡◌, ◌<◌};
ghost use Rattle.timer_c.specs.Outcomes.{start_status, restart_status, tell};

use crate::layout::{CHandle, Expired};
use crate::status::{NO_MEMORY, NOT_PENDING, SERIALS_SPENT, TOO_LATE, ZERO_INTERVAL};
use timer_base::Timer;
use timer_total::{RestartFault, StartFault};

/// Why a start was refused, as C's status.
pub(crate) fn start_status(fault: StartFault) -> u32
    ensures status { result ≡ start_status fault }
    ensures refused { 0 < result }
{
    match fault {
        StartFault::ZeroInterval => ZERO_INTERVAL,
        StartFault::TooLate => TOO_LATE,
        StartFault::SerialsSpent => SERIALS_SPENT,
        StartFault::OutOfMemory => NO_MEMORY,
    }
}

/// Why a restart was refused, as C's status.
pub(crate) fn restart_status(fault: RestartFault) -> u32
    ensures status { result ≡ restart_status fault }
    ensures refused { 0 < result }
{
    match fault {
        RestartFault::NotPending => NOT_PENDING,
        RestartFault::ZeroInterval => ZERO_INTERVAL,
        RestartFault::TooLate => TOO_LATE,
        RestartFault::SerialsSpent => SERIALS_SPENT,
    }
}

/// A handle as C's struct.
pub(crate) fn to_c_handle(handle: timer_base::Handle) -> CHandle
    ensures { result ≡ record { place = handle.place; serial = handle.serial } }
{
    CHandle {
        place: handle.place,
        serial: handle.serial,
    }
}

/// A handle as the wheel's type.
pub(crate) fn from_c_handle(handle: CHandle) -> timer_base::Handle
    ensures { result ≡ record { place = handle.place; serial = handle.serial } }
{
    timer_base::Handle {
        place: handle.place,
        serial: handle.serial,
    }
}

/// An expired timer as C's struct.
pub(crate) fn to_c_expired(timer: Timer) -> Expired
    ensures { result ≡ tell timer }
{
    Expired {
        deadline: timer.deadline,
        serial: timer.serial,
        action: timer.action,
    }
}
