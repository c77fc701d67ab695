//! The two machine words by which a struct of C owns a value on the heap.
//!
//! Code that touches a raw pointer is here, and in the cast by which each struct of C lends its cell. A cell whose
//! mark is `HELD` owns the value at its address and the right to free its block. One with any other mark owns
//! nothing, so a struct whose bytes are all 0 is an empty cell. The ghost field is the value's state.
//!
//! A `Box` can't be a field of a struct that C holds, so `put` takes its address out of it, and `take` makes the box
//! anew.
ghost use Rattle.std.specs.Prelude.{◌≡◌, true, false, None, IfSome};
ghost use Rattle.std.specs.Borrow.{Lends, LendsIf, sem};

use std::alloc::Global;
use std::marker::Model;

/// The mark of a cell that holds a value.
pub const HELD: u64 = 1;

/// A value on the heap, if it holds any.
#[repr(C)]
pub struct HeapCell<T> {
    at: *mut T,
    pub mark: u64,
    pub ghost state: { T },
}

impl<T> Model for HeapCell<T> {
    ghost use Rattle.timer_ffi_base.specs.Cells.{owned_at};

    ghost also_owns = { λ s. owned_at T.row s.mark s.at s.state };
}

impl<T> HeapCell<T> {
    ghost use Rattle.timer_ffi_base.specs.Cells.{is_open, with_state};
    ghost use Rattle.timer_ffi_base.specs.contracts.heap_cell.HeapCell.{the_row as cell_of};

    /// Whether it holds one.
    pub fn holds(&mut self) -> bool
        ensures value { result ≡ is_open self.old.mark }
        ensures same { self.new ≡ self.old }
    {
        // Any other number means empty: C may begin with zero bytes.
        self.mark == HELD
    }

    /// Lends it. Its state at the end of the loan is the cell's state.
    pub fn lend(&mut self) -> &mut T
        requires { is_open self.old.mark ≡ true }
        ensures* writes_back { sem 𝓛 (Lends (cell_of T.row) T.row self.entry result
            (with_state self.entry.now)) }
        ensures value { result.now ≡ self.old.state }
    {
        // The cell owns one at this address, since its mark says so. It is lent no longer than the cell
        // itself is, so nothing can free it meanwhile.
        let at = self.at;
        unsafe { &mut *at }
    }

    /// Lends it, if it holds one.
    pub fn get(&mut self) -> Option<&mut T>
        ensures* writes_back { sem 𝓛 (LendsIf (cell_of T.row) T.row self.entry result
            (with_state self.entry.now) self.entry.now) }
        ensures held { IfSome result (λ r. (is_open self.old.mark ≡ true) × (r.now ≡ self.old.state)) }
        ensures none { result ≡ None → is_open self.old.mark ≡ false }
    {
        if !self.holds() {
            return None;
        }
        Some(self.lend())
    }
}

impl<T: Drop> HeapCell<T> {
    ghost use Rattle.timer_ffi_base.specs.Cells.{is_open};

    /// Keeps it. What the cell owned before would be lost, so it must be empty.
    pub fn put(&mut self, whole: Box<T, Global>)
        requires { is_open self.old.mark ≡ false }
        ensures open { self.new.mark ≡ HELD }
        ensures state { self.new.state ≡ whole.value }
    {
        // Nothing owns the value until the cell does. The allocator is always the heap.
        let at = Box::into_raw(whole);
        // The cell was empty, so its old address pointed to nothing.
        self.at = at;
        // From here on the cell owns what is at that address.
        self.mark = HELD;
    }

    /// Gives it back, and is empty.
    pub fn take(&mut self, alloc: Global) -> Box<T, Global>
        requires { is_open self.old.mark ≡ true }
        ensures shut { self.new.mark ≡ 0 }
        ensures state { result.value ≡ self.old.state }
    {
        // From here on the cell owns nothing, and the address that stays in it is never followed.
        self.mark = 0;
        let at = self.at;
        // The value and the right to free its block are at that address, and go into the box.
        unsafe { Box::from_raw(alloc, at) }
    }
}
