//! The two machine words by which C's struct owns the timers on the heap.
//!
//! They are the words of a `HeapCell`, which does all that is done with them. The compiler takes no struct with a
//! type argument in an exported function, so C's struct has this one.
ghost use Rattle.std.specs.Prelude.{◌≡◌};
ghost use Rattle.std.specs.Borrow.{Lends, sem};
ghost use Rattle.timer_total.specs.TimersState.{TimersState};

use crate::wheel_maker::CWheel;
use std::marker::Model;
use timer_ffi_base::HeapCell;
use timer_total::Timers;

/// The timers on the heap, if it holds any.
#[repr(C)]
pub struct OwnedCell {
    at: *mut u8,
    pub mark: u64,
    pub ghost state: { TimersState },
}

impl Model for OwnedCell {
    ghost use Rattle.timer_ffi_base.specs.Cells.{owned_at};
    ghost use Rattle.timer_c.specs.Slots.{the_timers};

    ghost also_owns = { λ s. owned_at the_timers s.mark s.at s.state };
}

impl OwnedCell {
    ghost use Rattle.timer_c.specs.Lent.{as_cell, as_slot, the_slot, the_timers};
    ghost use Rattle.timer_ffi_base.specs.contracts.heap_cell.HeapCell.{the_row as cell_of};

    /// The same two words, as the cell whose methods are proved for any content.
    pub(crate) fn cell(&mut self) -> &mut HeapCell<Timers<CWheel>>
        ensures* writes_back { sem 𝓛 (Lends the_slot (cell_of the_timers) self.entry result as_slot) }
        ensures value { result.now ≡ as_cell self.old }
    {
        // Both structs have the same words, and own the same.
        unsafe { &mut *(self as *mut OwnedCell as *mut HeapCell<Timers<CWheel>>) }
    }
}

// The timers may go to another thread, and their block may be freed there
// (proofs/owned_cell/OwnedCell/TheSendSync).
unsafe impl Send for OwnedCell {}
