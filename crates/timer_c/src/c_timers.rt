//! What C holds: `struct timers` of `include/timers.h`.
ghost use Rattle.std.specs.Prelude.{◌≡◌, None, IfSome};
ghost use Rattle.std.specs.Borrow.{LendsIf, sem};

use crate::owned_cell::OwnedCell;
use crate::wheel_maker::CWheel;
use timer_total::Timers;

/// A slot for timers, and the last serial that its earlier timers used.
#[repr(C)]
pub struct CTimers {
    pub slot: OwnedCell,
    /// If the slot is empty, the last serial of the timers that it held before, or 0 if there were
    /// none: serials continue, so that no handle ever names a timer of a later `timers_new`.
    pub last_serial: u64,
}

impl CTimers {
    ghost use Rattle.timer_c.specs.Frames.{IsOpen, IsShut, with_timers};
    ghost use Rattle.timer_c.specs.Lent.{c_timers, the_timers};

    /// Lends the timers, if there are any.
    pub(crate) fn timers(&mut self) -> Option<&mut Timers<CWheel>>
        ensures* writes_back { sem 𝓛 (LendsIf c_timers the_timers self.entry result
            (with_timers self.entry.now) self.entry.now) }
        ensures held { IfSome result (λ timers. IsOpen self.old × (timers.now ≡ self.old.slot.state)) }
        ensures same { IfSome result (λ timers. with_timers self.old timers.now ≡ self.old) }
        ensures none { result ≡ None → IsShut self.old }
    {
        self.slot.cell().get()
    }
}

/// It may be sent to another thread: here the `Send` of `OwnedCell` is proved.
fn cross(held: CTimers) -> CTimers
    ensures { result ≡ held }
{
    as_send(held)
}

fn as_send<T: Send>(value: T) -> T
    ensures { result ≡ value }
{
    value
}
