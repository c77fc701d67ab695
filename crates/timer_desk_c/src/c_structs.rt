//! What C holds: `struct timers_desk` and `struct timers_line` of `include/timers_desk.h`.
ghost use Rattle.std.specs.Prelude.{◌≡◌, None, IfSome};
ghost use Rattle.std.specs.Borrow.{LendsIf, sem};
ghost use Rattle.timer_desk_c.specs.Frames.{is_line_of};

use crate::desk_cell::DeskCell;
use crate::line::Line;
use crate::line_cell::LineCell;
use timer_desk::{Desk, RingInlet};
use timer_wheels::TieredWheel;

/// The owner's: a slot for the desk.
#[repr(C)]
pub struct CDesk {
    pub slot: DeskCell,
    /// How many desks were made in this struct, from the number that its owner set. A free keeps it.
    pub lives: u64,
}

impl CDesk {
    ghost use Rattle.timer_desk_c.specs.Frames.{HasDesk, HasNoDesk, with_desk};
    ghost use Rattle.timer_desk_c.specs.Lent.{c_desk, the_desk};

    /// Lends the desk, if there is one.
    pub(crate) fn desk(&mut self) -> Option<&mut Desk<TieredWheel, RingInlet>>
        ensures* writes_back { sem 𝓛 (LendsIf c_desk the_desk self.entry result
            (with_desk self.entry.now) self.entry.now) }
        ensures held { IfSome result (λ desk. HasDesk self.old × (desk.now ≡ self.old.slot.state)) }
        ensures same { IfSome result (λ desk. with_desk self.old desk.now ≡ self.old) }
        ensures none { result ≡ None → HasNoDesk self.old }
    {
        self.slot.cell().get()
    }
}

/// A client's: a slot for its end of a line.
#[repr(C)]
pub struct CLine {
    pub slot: LineCell,
    /// The number of its client, written when the line is made, so that the line is not settled as another's.
    pub client: u64,
    /// The life of its desk's struct, written beside it, so that the line is not settled in a later life.
    pub life: u64,
}

impl CLine {
    ghost use Rattle.timer_desk_c.specs.Frames.{HasLine, HasNoLine, with_line};
    ghost use Rattle.timer_desk_c.specs.Lent.{c_line, the_line};

    /// Lends the line, if there is one.
    pub(crate) fn line(&mut self) -> Option<&mut Line>
        ensures* writes_back { sem 𝓛 (LendsIf c_line the_line self.entry result
            (with_line self.entry.now) self.entry.now) }
        ensures held { IfSome result (λ line. HasLine self.old × (line.now ≡ self.old.slot.state)) }
        ensures same { IfSome result (λ line. with_line self.old line.now ≡ self.old) }
        ensures none { result ≡ None → HasNoLine self.old }
    {
        self.slot.cell().get()
    }
}

/// Whether a line of this client and life is that of `client` in the life `lives`.
pub(crate) fn is_line_of(line_client: u64, line_life: u64, client: usize, lives: u64) -> bool
    ensures { result ≡ is_line_of client lives line_client line_life }
{
    line_client == client as u64 && line_life == lives
}

/// They may be sent to other threads: here the `Send` of the slots is proved.
fn cross(desk: CDesk, line: CLine) -> (CDesk, CLine)
    ensures { result ≡ (desk, line) }
{
    (as_send(desk), as_send(line))
}

fn as_send<T: Send>(value: T) -> T
    ensures { result ≡ value }
{
    value
}
