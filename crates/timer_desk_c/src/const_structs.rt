//! `const struct timers_desk` and `const struct timers_line` of `include/timers_desk.h`: what a call can only read.
//!
//! The compiler takes no `&` to a struct in an exported function if the struct owns memory that is read through the
//! `&`. So a call that C declares with a const pointer takes a `&mut` to one of these, which lend by `&` alone. A call
//! that writes then has the wrong type.
ghost use Rattle.std.specs.Prelude.{◌≡◌, None, IfSome};
ghost use Rattle.std.specs.Borrow.{sem};

use crate::c_structs::{CDesk, CLine};
use crate::line::Line;
use timer_desk::{Desk, RingInlet};
use timer_wheels::TieredWheel;

/// `struct timers_desk` as such a call sees it. Only this file reaches what it holds.
#[repr(C)]
pub struct ConstDesk {
    held: CDesk,
}

impl ConstDesk {
    ghost use Rattle.timer_ffi_base.specs.Cells.{EndsUnchanged};
    ghost use Rattle.timer_desk_c.specs.Frames.{HasDesk, HasNoDesk};
    ghost use Rattle.timer_desk_c.specs.Lent.{const_desk};

    /// Lends the desk to be read, if there is one.
    pub(crate) fn desk(&mut self) -> Option<&Desk<TieredWheel, RingInlet>>
        ensures* unchanged { sem 𝓛 (EndsUnchanged const_desk self.entry) }
        ensures held { IfSome result (λ desk. HasDesk self.old.held × (desk.now ≡ self.old.held.slot.state)) }
        ensures none { result ≡ None → HasNoDesk self.old.held }
    {
        match self.held.desk() {
            Some(desk) => Some(desk),
            None => None,
        }
    }
}

/// `struct timers_line` as such a call sees it. Only this file reaches what it holds.
#[repr(C)]
pub struct ConstLine {
    held: CLine,
}

impl ConstLine {
    ghost use Rattle.timer_ffi_base.specs.Cells.{EndsUnchanged};
    ghost use Rattle.timer_desk_c.specs.Frames.{HasLine, HasNoLine};
    ghost use Rattle.timer_desk_c.specs.Lent.{const_line};

    /// Lends the line to be read, if there is one.
    pub(crate) fn line(&mut self) -> Option<&Line>
        ensures* unchanged { sem 𝓛 (EndsUnchanged const_line self.entry) }
        ensures held { IfSome result (λ line. HasLine self.old.held × (line.now ≡ self.old.held.slot.state)) }
        ensures none { result ≡ None → HasNoLine self.old.held }
    {
        match self.held.line() {
            Some(line) => Some(line),
            None => None,
        }
    }
}
