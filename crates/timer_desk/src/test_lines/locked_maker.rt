//! The maker of a locked line.
ghost use Rattle.std.specs.Prelude.{◌≡◌, ◌≤◌, [], IfOk};
ghost use Rattle.timer_desk.specs.test_lines.Locked.{next_of_locked, got_by_locked, given_by_locked};

use crate::test_lines::locked::{LockedEnd, LockedInlet};
use crate::test_lines::queues::Queues;
use std::alloc::Global;
use std::sync::{Arc, Mutex, Wait};
use timer_base::{LAST, OutOfMemory};

/// A line with room for `capacity` items each way, under a lock.
pub fn locked_line<R: Wait + Drop>(
    rt: R,
    alloc: Global,
    capacity: usize,
    first_number: u64,
) -> Result<(LockedEnd, LockedInlet<R>), OutOfMemory>
    requires capacity { (1 ≤ capacity) × (capacity ≤ 65536) }
    requires first { (1 ≤ first_number) × (first_number ≤ LAST) }
    ensures end { IfOk result (λ r. next_of_locked r.0 ≡ first_number) }
    ensures inlet { IfOk result (λ r. (got_by_locked r.1 ≡ []) × (given_by_locked r.1 ≡ [])) }
{
    let Ok(queues) = Queues::new(alloc, capacity) else {
        return Err(OutOfMemory);
    };
    let Ok(mine) = Arc::new(alloc, Mutex::new(queues)) else {
        return Err(OutOfMemory);
    };
    let Ok(theirs) = Arc::try_clone(&mine) else {
        return Err(OutOfMemory);
    };
    let end = LockedEnd {
        queues: theirs,
        next: first_number,
    };
    let inlet = LockedInlet {
        rt,
        queues: mine,
        got: Vec::new(alloc),
        given: Vec::new(alloc),
    };
    Ok((end, inlet))
}
