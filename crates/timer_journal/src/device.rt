//! A file as the journal sees it: what a read returns, and what a crash may leave.
ghost use Rattle.std.specs.Prelude.{◌≡◌, ◌≤◌, ◌⊎◌, ℕ, Bool, true, List, length, take, is_ok, IsErrOf, IfOk, OnOk};
ghost use Rattle.timer_journal.specs.Device.{overwritten, Torn, Shortened, Follows, Only, Passes, HasCause};

use crate::fault::DeviceFault;
use std::alloc::Global;

/// One file. Until a sync returns, a crash may leave any bytes in a range that was written, and any length
/// between the old one and the new one.
pub trait Device {
    /// The bytes that a read returns.
    ghost seen: { Self → List ℕ };

    /// The contents that a crash at this moment may leave.
    ghost may_leave: { Self → List ℕ → Type 0 };

    /// A number that never falls.
    ghost moment: { Self → ℕ };

    /// The contents that a crash at some moment from that one on might have left, in a call or between two.
    ghost left_since: { Self → ℕ → List ℕ → Type 0 };

    /// How often the disk has failed.
    ghost faults: { Self → ℕ };

    /// No sync and no replacement has failed. After one has, what was written may be lost without a further error.
    ghost is_usable: { Self → Bool };

    /// All the bytes.
    fn read(&mut self, alloc: Global) -> Result<Vec<u8>, DeviceFault>
        requires { is_usable self.old ≡ true }
        ensures bytes { IfOk result (λ bytes. bytes.items ≡ seen self.old) }
        ensures same { seen self.new ≡ seen self.old }
        ensures crash { (c : List ℕ) → may_leave self.new c → may_leave self.old c }
        ensures usable { is_usable self.new ≡ true }
        ensures time { Passes moment left_since (may_leave self.new) self.old self.new }
        ensures cause { HasCause faults self.old self.new (IsErrOf result) };

    /// Writes over what is there, and past the end.
    fn write_at(&mut self, at: usize, bytes: &[u8]) -> Result<(), DeviceFault>
        requires within { at ≤ length (seen self.old) }
        requires usable { is_usable self.old ≡ true }
        ensures written { OnOk result (seen self.new ≡ overwritten (seen self.old) at bytes.now) }
        ensures crash { Follows (Torn at (length bytes.now)) (may_leave self.old) (may_leave self.new) }
        ensures usable { is_usable self.new ≡ true }
        ensures time { Passes moment left_since (may_leave self.new) self.old self.new }
        ensures cause { HasCause faults self.old self.new (IsErrOf result) };

    /// Cuts the file to a length.
    fn cut(&mut self, len: usize) -> Result<(), DeviceFault>
        requires within { len ≤ length (seen self.old) }
        requires usable { is_usable self.old ≡ true }
        ensures cut { OnOk result (seen self.new ≡ take len (seen self.old)) }
        ensures crash { Follows (Shortened len) (may_leave self.old) (may_leave self.new) }
        ensures usable { is_usable self.new ≡ true }
        ensures time { Passes moment left_since (may_leave self.new) self.old self.new }
        ensures cause { HasCause faults self.old self.new (IsErrOf result) };

    /// After it a crash leaves what a read returns. One that fails is the last call.
    fn sync(&mut self) -> Result<(), DeviceFault>
        requires { is_usable self.old ≡ true }
        ensures durable { OnOk result (Only (seen self.old) (may_leave self.new)) }
        ensures same { seen self.new ≡ seen self.old }
        ensures crash { (c : List ℕ) → may_leave self.new c → may_leave self.old c }
        ensures usable { is_usable self.new ≡ is_ok result }
        ensures time { Passes moment left_since (may_leave self.new) self.old self.new }
        ensures cause { HasCause faults self.old self.new (IsErrOf result) };

    /// Puts these bytes in the place of the whole file. A crash at any moment leaves what it might have left before,
    /// or exactly these bytes, and after it these bytes alone. One that fails is the last call.
    fn replace(&mut self, bytes: &[u8]) -> Result<(), DeviceFault>
        requires { is_usable self.old ≡ true }
        ensures replaced { OnOk result (seen self.new ≡ bytes.now) }
        ensures durable { OnOk result (Only bytes.now (may_leave self.new)) }
        ensures crash { (c : List ℕ) → may_leave self.new c → may_leave self.old c ⊎ (c ≡ bytes.now) }
        ensures usable { is_usable self.new ≡ is_ok result }
        ensures time { Passes moment left_since (may_leave self.new) self.old self.new }
        ensures cause { HasCause faults self.old self.new (IsErrOf result) };

    /// This moment is one of those since an earlier one.
    ghost includes_now: { (file : Self) (t : ℕ) (c : List ℕ) → t ≤ moment file → may_leave file c → left_since file t c };

    /// Since this moment there is no other.
    ghost begins_now: { (file : Self) (c : List ℕ) → left_since file (moment file) c → may_leave file c };
}
