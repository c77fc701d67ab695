//! The two machine words by which C's struct owns a desk on the heap.
//!
//! They are the words of a `HeapCell`, which does all that is done with them. The compiler takes no struct with a
//! type argument in an exported function, so C's struct has this one.
ghost use Rattle.std.specs.Prelude.{◌≡◌};
ghost use Rattle.std.specs.Borrow.{Lends, sem};
ghost use Rattle.timer_desk_c.specs.DeskSlots.{RingDesk};

use std::marker::Model;
use timer_desk::{Desk, RingInlet};
use timer_ffi_base::HeapCell;
use timer_wheels::TieredWheel;

/// A desk on the heap, if it holds any.
#[repr(C)]
pub struct DeskCell {
    at: *mut u8,
    pub mark: u64,
    pub ghost state: { RingDesk },
}

impl Model for DeskCell {
    ghost use Rattle.timer_ffi_base.specs.Cells.{owned_at};
    ghost use Rattle.timer_desk_c.specs.DeskSlots.{the_desk};

    ghost also_owns = { λ s. owned_at the_desk s.mark s.at s.state };
}

impl DeskCell {
    ghost use Rattle.timer_desk_c.specs.Lent.{desk_as_cell, cell_as_desk, the_desk, the_desk_slot};
    ghost use Rattle.timer_ffi_base.specs.contracts.heap_cell.HeapCell.{the_row as cell_of};

    /// The same two words, as the cell whose methods are proved for any content.
    pub(crate) fn cell(&mut self) -> &mut HeapCell<Desk<TieredWheel, RingInlet>>
        ensures* writes_back { sem 𝓛 (Lends the_desk_slot (cell_of the_desk) self.entry result cell_as_desk) }
        ensures value { result.now ≡ desk_as_cell self.old }
    {
        // Both structs have the same words, and own the same.
        unsafe { &mut *(self as *mut DeskCell as *mut HeapCell<Desk<TieredWheel, RingInlet>>) }
    }
}

// It may go to another thread, and its block may be freed there (proofs/desk_cell/DeskCell/TheSendSync).
unsafe impl Send for DeskCell {}
