//! Where a wheel keeps its pending timers, as lines of text.
//!
//!     plain     pending: 2:3 1:5 3:5     serial:deadline, by deadline and then serial
//!     hashed    slot 2: 1:16 3:0         serial:rounds, from the front of the bucket
//!     hier      wheel 1 slot 2: 1 3      serials, from the front
//!     clock     minute 15: 1
//!     smooth    wheel 1 slot 66: 1 3     the same, in two revolutions of each wheel: slots 0 to 127
//!
//! Each line begins with two spaces. A bucket without a timer has none. What is due is not shown: between
//! two lines of a script nothing is. A wheel that counts its work may show what it counted:
//!
//!     hier      starts 3 moves 1 visits 128     starts and restarts, moves to a lower wheel, slots visited
//!     smooth    starts 3 moves 1
//!
//! A hierarchy may show which timers moved while ticks passed:
//!
//!     hier      moved at 128 from wheel 1 slot 2 to wheel 0 slot 2: 1
//!     clock     moved at 900 from minute 15 to second 30: 1
//!
//! In a smooth wheel timers may leave several buckets at one tick, a few of each, and one at a start. So it shows no
//! such line.
//!
//! A filter says which timers are kept of each list. One without a timer that is kept has no line.
ghost use Rattle.std.specs.Prelude.{◌≡◌, ◌++◌, OnOk, Some, None};
ghost use Rattle.timer_script.specs.Decorator.{HasGrown};
ghost use Rattle.timer_commands.specs.Indented.{HasGrownByIndented, HasGrownByPicture};
ghost use Rattle.std.specs.List.{filter};
ghost use Rattle.timer_commands.specs.Shows.{is_kept};
ghost use Rattle.timer_commands.specs.Pictures.{work_line};
ghost use Rattle.timer_commands.specs.Wakeups.{wakeup_line};
ghost use Rattle.timer_wheels.specs.hier.HierWheel.{counts_of};
ghost use Rattle.timer_wheels.specs.smooth.SmoothWheel.{starts_of, moves_of};

use crate::render::lists::{first_list, has_kept, push_lists, push_move};
use crate::render::names::{Naming, naming_of, push_number};
use crate::shows::Filter;
use timer_base::{OutOfMemory, PlainWheel, Timer, Wheel};
use timer_wheels::{HashedWheel, HierWheel, SmoothWheel};

mod lists;
mod names;

/// A wheel that shows where its timers are.
pub trait Placement {
    /// Appends a line for each bucket with a timer that is kept, in the order of the buckets. The only error is out
    /// of memory.
    fn push_placement(&self, text: &mut Vec<u8>, filter: Filter) -> Result<(), OutOfMemory>
        ensures indented { OnOk result (HasGrownByIndented text.old.items text.new.items) }
        ensures kept { HasGrown text.old.items text.new.items };

    /// Appends a line of what the wheel counted, if it counts. The only error is out of memory.
    fn push_counts(&self, _text: &mut Vec<u8>) -> Result<(), OutOfMemory>
        ensures indented { OnOk result (HasGrownByIndented _text.old.items _text.new.items) }
        ensures kept { HasGrown _text.old.items _text.new.items }
    {
        Ok(())
    }

    /// The first bucket that has a timer, if timers move between buckets: they go to lower ones, from there first.
    fn first_bucket(&self) -> usize {
        0
    }

    /// Appends a line for each bucket below this one with a timer that is kept. None had a timer before some ticks, at
    /// the last of which at most the bucket was emptied, so these timers moved from there. The only error is out of
    /// memory.
    fn push_moves(
        &self,
        _text: &mut Vec<u8>,
        _bucket: usize,
        _filter: Filter,
    ) -> Result<(), OutOfMemory>
        ensures indented { OnOk result (HasGrownByIndented _text.old.items _text.new.items) }
        ensures kept { HasGrown _text.old.items _text.new.items }
    {
        Ok(())
    }
}

impl Placement for PlainWheel {
    fn push_placement(&self, text: &mut Vec<u8>, filter: Filter) -> Result<(), OutOfMemory> {
        let mut timers = self.list()?;
        keep(&mut timers, filter);
        if timers.is_empty() {
            return Ok(());
        }
        text.extend_from_slice(b"  pending:")?;
        for timer in &timers {
            push_number(text, b" ", timer.serial)?;
            push_number(text, b":", timer.deadline)?;
        }
        text.push(b'\n')?;
        Ok(())
    }
}

impl Placement for HashedWheel {
    fn push_placement(&self, text: &mut Vec<u8>, filter: Filter) -> Result<(), OutOfMemory> {
        push_lists(text, self.links(), Naming::Slots, filter)
    }
}

impl Placement for HierWheel {
    fn push_placement(&self, text: &mut Vec<u8>, filter: Filter) -> Result<(), OutOfMemory> {
        push_lists(text, self.links(), naming_of(self.table()), filter)
    }

    fn push_counts(&self, text: &mut Vec<u8>) -> Result<(), OutOfMemory>
        ensures line { OnOk result (text.new.items ≡ text.old.items
            ++ work_line (counts_of self.now).starts (counts_of self.now).moves (Some (counts_of self.now).visits)) }
        ensures indented { OnOk result (HasGrownByIndented text.old.items text.new.items) }
        ensures kept { HasGrown text.old.items text.new.items }
    {
        push_work(text, self.starts(), self.moves(), Some(self.visits()))
    }

    fn first_bucket(&self) -> usize {
        first_list(self.links())
    }

    fn push_moves(
        &self,
        text: &mut Vec<u8>,
        bucket: usize,
        filter: Filter,
    ) -> Result<(), OutOfMemory> {
        let naming = naming_of(self.table());
        let links = self.links();
        for to in 0..bucket.min(links.lists()) {
            if has_kept(links, to, filter) {
                push_number(text, b"  moved at ", self.now())?;
                push_move(text, links, bucket, to, naming, filter)?;
            }
        }
        Ok(())
    }
}

impl Placement for SmoothWheel {
    fn push_placement(&self, text: &mut Vec<u8>, filter: Filter) -> Result<(), OutOfMemory> {
        push_lists(text, self.links(), Naming::Turns, filter)
    }

    fn push_counts(&self, text: &mut Vec<u8>) -> Result<(), OutOfMemory>
        ensures line { OnOk result (text.new.items
            ≡ text.old.items ++ work_line (starts_of self.now) (moves_of self.now) None) }
        ensures indented { OnOk result (HasGrownByIndented text.old.items text.new.items) }
        ensures kept { HasGrown text.old.items text.new.items }
    {
        push_work(text, self.starts(), self.moves(), None)
    }
}

/// Drops the timers that aren't kept.
fn keep(timers: &mut Vec<Timer>, kept: Filter)
    ensures { timers.new.items ≡ filter (is_kept kept) timers.old.items }
{
    timers.retain(|timer| kept.keeps(*timer));
}

/// Appends the line of what a wheel counted. A smooth wheel counts no visits.
fn push_work(
    text: &mut Vec<u8>,
    starts: u64,
    moves: u64,
    visits: Option<u64>,
) -> Result<(), OutOfMemory>
    ensures line { OnOk result (text.new.items ≡ text.old.items ++ work_line starts moves visits) }
    ensures indented { OnOk result (HasGrownByIndented text.old.items text.new.items) }
    ensures kept { HasGrown text.old.items text.new.items }
{
    push_number(text, b"  starts ", starts)?;
    push_number(text, b" moves ", moves)?;
    if let Some(visits) = visits {
        push_number(text, b" visits ", visits)?;
    }
    text.push(b'\n')?;
    Ok(())
}

/// Appends the line of the clock, that of the counts if they are wanted, and a line for each bucket with a timer that
/// is kept.
pub fn push_shown<W: Wheel + Placement>(
    text: &mut Vec<u8>,
    wheel: &W,
    counts: bool,
    filter: Filter,
) -> Result<(), OutOfMemory>
    ensures picture { OnOk result (HasGrownByPicture (W.state wheel.now).now text.old.items text.new.items) }
    ensures kept { HasGrown text.old.items text.new.items }
{
    push_number(text, b"  now ", wheel.now())?;
    text.push(b'\n')?;
    if counts {
        wheel.push_counts(text)?;
    }
    wheel.push_placement(text, filter)
}

/// Appends the line of a wake-up.
pub fn push_wakeup(text: &mut Vec<u8>, quiet: Option<u64>) -> Result<(), OutOfMemory>
    ensures text { OnOk result (text.new.items ≡ text.old.items ++ wakeup_line quiet) }
    ensures kept { HasGrown text.old.items text.new.items }
{
    match quiet {
        None => text.extend_from_slice(b"wakeup never\n")?,
        Some(tick) => {
            push_number(text, b"wakeup ", tick)?;
            text.push(b'\n')?;
        }
    }
    Ok(())
}
