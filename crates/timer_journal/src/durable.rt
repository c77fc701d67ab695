//! A change of a file that is on the disk when it returns.
ghost use Rattle.std.specs.Prelude.{◌≡◌, ◌≤◌, true, length, take, IsErrOf, OnOk};
ghost use Rattle.timer_journal.specs.Device.{overwritten, Torn, Shortened, Only, LeavesOnly, HasCause};

use crate::device::Device;
use crate::fault::DeviceFault;

/// Writes these bytes and syncs. A crash at any moment leaves the range torn, and nothing else.
pub fn write_durably<D: Device>(device: &mut D, at: usize, bytes: &[u8]) -> Result<(), DeviceFault>
    requires within { at ≤ length (D.seen device.old) }
    requires usable { D.is_usable device.old ≡ true }
    requires durable { Only (D.seen device.old) (D.may_leave device.old) }
    ensures written { OnOk result (D.seen device.new ≡ overwritten (D.seen device.old) at bytes.now) }
    ensures durable { OnOk result (Only (D.seen device.new) (D.may_leave device.new)) }
    ensures usable { OnOk result (D.is_usable device.new ≡ true) }
    ensures any_moment { LeavesOnly D.moment D.left_since device.old device.new
        (Torn at (length bytes.now) (D.seen device.old)) }
    ensures cause { HasCause D.faults device.old device.new (IsErrOf result) }
{
    device.write_at(at, bytes)?;
    device.sync()
}

/// Cuts the file and syncs. A crash at any moment leaves some front of it, and nothing else.
pub fn cut_durably<D: Device>(device: &mut D, len: usize) -> Result<(), DeviceFault>
    requires within { len ≤ length (D.seen device.old) }
    requires usable { D.is_usable device.old ≡ true }
    requires durable { Only (D.seen device.old) (D.may_leave device.old) }
    ensures cut { OnOk result (D.seen device.new ≡ take len (D.seen device.old)) }
    ensures durable { OnOk result (Only (D.seen device.new) (D.may_leave device.new)) }
    ensures usable { OnOk result (D.is_usable device.new ≡ true) }
    ensures any_moment { LeavesOnly D.moment D.left_since device.old device.new
        (Shortened len (D.seen device.old)) }
    ensures cause { HasCause D.faults device.old device.new (IsErrOf result) }
{
    device.cut(len)?;
    device.sync()
}
