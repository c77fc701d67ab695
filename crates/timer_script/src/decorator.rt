//! What a server writes beside the answers: text after the answer to a line, and after the lines of one read.
//!
//!     Undecorated    started 0 1 1 4
//!
//!     one that       started 0 1 1 4
//!     shows ticks      now 0
ghost use Rattle.std.specs.Prelude.{OnOk};
ghost use Rattle.timer_script.specs.Decorator.{Decoration, IsLawful, HasGrown, HasGrownAfter, HasGrownAfterRead, HasGrownWithin};

use timer_base::{OutOfMemory, Wheel};
use timer_facility::Facility;

/// Adds text to answers.
pub trait Decorator<W: Wheel + Drop> {
    /// What comes after the answer to a line, by the serial of the first timer that the line could start and the
    /// facility's state at that place; what may stand after the steps of its ticks; and what comes once all lines of a
    /// read were played.
    ghost adds: { Self → Decoration };

    /// Whether the text for each line is written before the next line is played. If not, that for all lines
    /// of one read is written at once.
    fn sends_each_line(&self) -> bool;

    /// Appends what comes after the answer to a line. Before the line the next serial was this one: a timer that the
    /// line started has it. The only error is out of memory.
    fn decorate(
        &self,
        serial: u64,
        text: &mut Vec<u8>,
        facility: &Facility<W>,
    ) -> Result<(), OutOfMemory>
        ensures added { OnOk result (HasGrownAfter (adds self.now) serial facility.now.state text.old.items text.new.items) }
        ensures kept { HasGrown text.old.items text.new.items };

    /// Appends what comes after the lines of one read, of which at least one was played. The only error is out of memory.
    fn decorate_read(&self, text: &mut Vec<u8>, facility: &Facility<W>) -> Result<(), OutOfMemory>
        ensures added { OnOk result (HasGrownAfterRead (adds self.now) facility.now.state text.old.items text.new.items) }
        ensures kept { HasGrown text.old.items text.new.items };

    /// Whether the ticks of a line are played in steps, and what comes after each of them is added. A step ends at
    /// the latest at the tick until which the facility is quiet.
    fn shows_steps(&self) -> bool {
        false
    }

    /// What `decorate_step` has to know of the facility before a step.
    fn before_step(&self, _facility: &Facility<W>) -> usize {
        0
    }

    /// Appends what comes after a step: nothing, unless a decorator shows steps. The only error is out of memory.
    fn decorate_step(
        &self,
        _before: usize,
        _text: &mut Vec<u8>,
        _facility: &Facility<W>,
    ) -> Result<(), OutOfMemory>
        ensures added { OnOk result (HasGrownWithin (adds self.now) _text.old.items _text.new.items) }
        ensures kept { HasGrown _text.old.items _text.new.items }
    {
        Ok(())
    }

    /// Within a line, texts may be joined, and an answer may be left as it is.
    ghost is_lawful: { (decorator : Self) → IsLawful (adds decorator) };
}

/// Adds nothing.
#[derive(Clone, Copy, Debug, PartialEq, Eq)]
pub struct Undecorated;

impl<W: Wheel + Drop> Decorator<W> for Undecorated {
    ghost use Rattle.timer_script.specs.Decorator.{AddsNothing, IsNothing, after_is_lawful};

    ghost adds = { λ decorator. AddsNothing };

    fn sends_each_line(&self) -> bool {
        false
    }

    fn decorate(
        &self,
        _serial: u64,
        _text: &mut Vec<u8>,
        _facility: &Facility<W>,
    ) -> Result<(), OutOfMemory> {
        Ok(())
    }

    fn decorate_read(
        &self,
        _text: &mut Vec<u8>,
        _facility: &Facility<W>,
    ) -> Result<(), OutOfMemory> {
        Ok(())
    }

    ghost is_lawful = { λ decorator. after_is_lawful IsNothing IsNothing };
}
