//! `const struct timers` of `include/timers.h`: timers that a call can only read.
//!
//! The compiler takes no `&` to a struct in an exported function if the struct owns memory that is read through the
//! `&`. So a call that C declares with a const pointer takes a `&mut` to this struct, which lends the timers by `&`
//! alone. A call that writes to them then has the wrong type.
ghost use Rattle.std.specs.Prelude.{◌≡◌, None, IfSome};
ghost use Rattle.std.specs.Borrow.{sem};

use crate::c_timers::CTimers;
use crate::wheel_maker::CWheel;
use timer_total::Timers;

/// `struct timers` as such a call sees it. Only this file reaches what it holds.
#[repr(C)]
pub struct ConstTimers {
    held: CTimers,
}

impl ConstTimers {
    ghost use Rattle.timer_ffi_base.specs.Cells.{EndsUnchanged};
    ghost use Rattle.timer_c.specs.Frames.{IsOpen, IsShut};
    ghost use Rattle.timer_c.specs.Lent.{const_timers};

    /// Lends the timers to be read, if there are any.
    pub(crate) fn timers(&mut self) -> Option<&Timers<CWheel>>
        ensures* unchanged { sem 𝓛 (EndsUnchanged const_timers self.entry) }
        ensures held { IfSome result (λ timers. IsOpen self.old.held × (timers.now ≡ self.old.held.slot.state)) }
        ensures none { result ≡ None → IsShut self.old.held }
    {
        match self.held.timers() {
            Some(timers) => Some(timers),
            None => None,
        }
    }
}
