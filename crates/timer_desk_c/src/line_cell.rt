//! The two machine words by which C's struct owns a line on the heap.
//!
//! They are the words of a `HeapCell`, which does all that is done with them. The compiler takes no struct with a
//! type argument in an exported function, so C's struct has this one.
ghost use Rattle.std.specs.Prelude.{◌≡◌};
ghost use Rattle.std.specs.Borrow.{Lends, sem};
ghost use Rattle.timer_desk_c.specs.declared.line.Line.{Line};

use crate::line::Line;
use std::marker::Model;
use timer_ffi_base::HeapCell;

/// A line on the heap, if it holds any.
#[repr(C)]
pub struct LineCell {
    at: *mut u8,
    pub mark: u64,
    pub ghost state: { Line },
}

impl Model for LineCell {
    ghost use Rattle.timer_ffi_base.specs.Cells.{owned_at};
    ghost use Rattle.timer_desk_c.specs.contracts.line.Line.{the_row as the_line};

    ghost also_owns = { λ s. owned_at the_line s.mark s.at s.state };
}

impl LineCell {
    ghost use Rattle.timer_desk_c.specs.Lent.{line_as_cell, cell_as_line, the_line, the_line_slot};
    ghost use Rattle.timer_ffi_base.specs.contracts.heap_cell.HeapCell.{the_row as cell_of};

    /// The same two words, as the cell whose methods are proved for any content.
    pub(crate) fn cell(&mut self) -> &mut HeapCell<Line>
        ensures* writes_back { sem 𝓛 (Lends the_line_slot (cell_of the_line) self.entry result cell_as_line) }
        ensures value { result.now ≡ line_as_cell self.old }
    {
        // Both structs have the same words, and own the same.
        unsafe { &mut *(self as *mut LineCell as *mut HeapCell<Line>) }
    }
}

// It may go to another thread, and its block may be freed there (proofs/line_cell/LineCell/TheSendSync).
unsafe impl Send for LineCell {}
