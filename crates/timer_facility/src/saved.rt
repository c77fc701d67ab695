//! The state of a facility as values: the lines of a dump, and a state that is read from such lines.
//!
//!     Open { now, next_serial }     the first line; Closed of a closed facility
//!     Number { client, next }       for each client, from 0 on
//!     Pending(timer)                for each pending timer, by serial
//!     End { pending }               the last line, by which one that was cut off is told from a whole one
//!
//! A capacity, a last tick and what the wheel chooses are no part of it: `Facility::restore` is given them.
ghost use Rattle.std.specs.Prelude.{◌≡◌, ◌↔◌, ◌∷◌, ◌++◌, [], if◌then◌else◌, IsTrue, OnErr, OnOk, None};
ghost use Rattle.timer_facility.specs.Saved.{IsReadState, lines_read, nothing_read, is_beginning, is_body, line_fault, head_fault, number_fault, timer_fault, end_fault};
ghost use Rattle.timer_facility.specs.declared.saved.Stage.TheVariants as stages;
ghost use Rattle.timer_facility.specs.declared.saved.StateLine.TheVariants as lines;

use std::alloc::Global;
use std::marker::Model;
use thiserror::Error;
use timer_base::{LAST, OutOfMemory, Timer};

/// One line of a dump.
#[derive(Clone, Copy, Debug, PartialEq, Eq)]
pub enum StateLine {
    /// The first line of an open facility: the present tick, and the serial of the next timer.
    Open { now: u64, next_serial: u64 },
    /// The same of a closed one.
    Closed { now: u64, next_serial: u64 },
    /// The number of the client's next request.
    Number { client: u64, next: u64 },
    /// A pending timer.
    Pending(Timer),
    /// The last line: how many timers are pending.
    End { pending: u64 },
}

/// Why a line is not the next one of a dump that a facility with the limits can be restored from. Of a line of one
/// kind the faults are tested in this order.
#[derive(Clone, Copy, Debug, PartialEq, Eq, Error)]
pub enum StateFault {
    #[error("the line is out of place")]
    Place,
    #[error("the next serial is out of range")]
    NextSerial,
    #[error("the client is not the next one")]
    Client,
    #[error("there are more clients than the facility has")]
    Clients,
    #[error("the request number is out of range")]
    Number,
    #[error("the serial is not above the one before it and below the next")]
    Serial,
    #[error("there is no such client")]
    Owner,
    #[error("the deadline is not after the present tick")]
    Deadline,
    #[error("the tick is after the last one of the clock")]
    LastTick,
    #[error("there are more timers than the facility may hold")]
    Capacity,
    #[error("the number of timers is another")]
    Count,
}

/// What a facility that is restored has room for.
#[derive(Clone, Copy, Debug, PartialEq, Eq)]
pub struct Limits {
    pub clients: u64,
    pub capacity: u64,
    pub last_tick: u64,
}

/// How far the lines came.
#[derive(Clone, Copy, Debug, PartialEq, Eq)]
pub enum Stage {
    Begin,
    Body,
    Whole,
}

/// The state that lines say, taken one after another.
#[derive(Drop)]
pub struct SavedState {
    limits: Limits,
    stage: Stage,
    tick: u64,
    next_serial: u64,
    is_closed: bool,
    numbers: Vec<u64>,
    timers: Vec<Timer>,
    last_serial: u64,
}

impl Model for SavedState {
    ghost use Rattle.timer_facility.specs.Saved.{ReadState, IsReadState};

    ghost Value = { ReadState };

    ghost view = { λ s. record {
      limits = s.limits;
      stage = s.stage;
      saved = record {
        now = s.tick;
        next_serial = s.next_serial;
        is_closed = s.is_closed;
        numbers = s.numbers.items;
        timers = s.timers.items;
      };
      last_serial = s.last_serial;
    } };

    ghost invariant = { λ s. IsReadState (record {
      limits = s.limits;
      stage = s.stage;
      saved = record {
        now = s.tick;
        next_serial = s.next_serial;
        is_closed = s.is_closed;
        numbers = s.numbers.items;
        timers = s.timers.items;
      };
      last_serial = s.last_serial;
    }) };
}

impl SavedState {
    /// A state of which nothing was read, for a facility with these limits. Does not allocate.
    pub fn new(alloc: Global, limits: Limits) -> SavedState
        ensures state { result ≡ nothing_read limits }
        ensures read { IsReadState result }
    {
        SavedState {
            limits,
            stage: Stage::Begin,
            tick: 0,
            next_serial: 1,
            is_closed: false,
            numbers: Vec::new(alloc),
            timers: Vec::new(alloc),
            last_serial: 0,
        }
    }

    /// Why the line can't be the next one, if it can't. Does not allocate.
    pub fn fault_in(&self, line: StateLine) -> Option<StateFault>
        ensures { result ≡ line_fault self.now line }
    {
        match line {
            StateLine::Open { now, next_serial } => self.head_fault(now, next_serial),
            StateLine::Closed { now, next_serial } => self.head_fault(now, next_serial),
            StateLine::Number { client, next } => self.number_fault(client, next),
            StateLine::Pending(timer) => self.timer_fault(timer),
            StateLine::End { pending } => self.end_fault(pending),
        }
    }

    /// Takes the next line. The only error is out of memory, and then nothing changes.
    pub fn push(&mut self, line: StateLine) -> Result<(), OutOfMemory>
        requires { line_fault self.old line ≡ None }
        ensures limits { self.new.limits ≡ self.old.limits }
        ensures read { IsReadState self.new }
        ensures ok { OnOk result (lines_read self.new ≡ lines_read self.old ++ line ∷ []) }
        ensures err { OnErr result (self.new ≡ self.old) }
    {
        match line {
            StateLine::Open { now, next_serial } => self.begin(now, next_serial, false),
            StateLine::Closed { now, next_serial } => self.begin(now, next_serial, true),
            StateLine::Number { next, .. } => self.numbers.push(next)?,
            StateLine::Pending(timer) => {
                self.timers.push(timer)?;
                self.last_serial = timer.serial;
            }
            StateLine::End { .. } => self.stage = Stage::Whole,
        }
        Ok(())
    }

    /// Whether the last line was taken. Does not allocate.
    pub fn is_whole(&self) -> bool
        ensures { IsTrue result ↔ (self.now.stage ≡ stages.Whole) }
    {
        match self.stage {
            Stage::Whole => true,
            Stage::Begin | Stage::Body => false,
        }
    }

    /// The present tick. Does not allocate.
    pub fn now(&self) -> u64
        ensures { result ≡ self.now.saved.now }
    {
        self.tick
    }

    /// The serial of the next timer.
    pub(crate) fn next_serial(&self) -> u64
        ensures { result ≡ self.now.saved.next_serial }
    {
        self.next_serial
    }

    /// Whether the facility is closed.
    pub(crate) fn is_closed(&self) -> bool
        ensures { result ≡ self.now.saved.is_closed }
    {
        self.is_closed
    }

    /// The next request number of each client.
    pub(crate) fn numbers(&self) -> &[u64]
        ensures numbers { result.now ≡ self.now.saved.numbers }
        ensures read { IsReadState self.now }
    {
        &self.numbers
    }

    /// The pending timers, by serial.
    pub(crate) fn timers(&self) -> &[Timer]
        ensures timers { result.now ≡ self.now.saved.timers }
        ensures read { IsReadState self.now }
    {
        &self.timers
    }

    /// Takes a first line.
    fn begin(&mut self, now: u64, next_serial: u64, is_closed: bool)
        requires { head_fault self.old now next_serial ≡ None }
        ensures limits { self.new.limits ≡ self.old.limits }
        ensures read { IsReadState self.new }
        ensures line { lines_read self.new ≡ lines_read self.old
            ++ (if is_closed then lines.Closed now next_serial else lines.Open now next_serial) ∷ [] }
    {
        self.stage = Stage::Body;
        self.tick = now;
        self.next_serial = next_serial;
        self.is_closed = is_closed;
    }

    fn is_beginning(&self) -> bool
        ensures { result ≡ is_beginning self.now.stage }
    {
        match self.stage {
            Stage::Begin => true,
            Stage::Body | Stage::Whole => false,
        }
    }

    fn is_body(&self) -> bool
        ensures { result ≡ is_body self.now.stage }
    {
        match self.stage {
            Stage::Body => true,
            Stage::Begin | Stage::Whole => false,
        }
    }

    #[tactic(auto, unfolding(crate::specs::Saved::head_fault))]
    fn head_fault(&self, now: u64, next_serial: u64) -> Option<StateFault>
        ensures { result ≡ head_fault self.now now next_serial }
    {
        if !self.is_beginning() {
            return Some(StateFault::Place);
        }
        if now > self.limits.last_tick {
            return Some(StateFault::LastTick);
        }
        if next_serial == 0 || next_serial > LAST + 1 {
            return Some(StateFault::NextSerial);
        }
        None
    }

    #[tactic(auto, unfolding(crate::specs::Saved::number_fault))]
    fn number_fault(&self, client: u64, next: u64) -> Option<StateFault>
        ensures { result ≡ number_fault self.now client next }
    {
        if !self.is_body() || !self.timers.is_empty() {
            return Some(StateFault::Place);
        }
        if client != self.numbers.len() as u64 {
            return Some(StateFault::Client);
        }
        if client >= self.limits.clients {
            return Some(StateFault::Clients);
        }
        if next == 0 || next > LAST + 1 {
            return Some(StateFault::Number);
        }
        None
    }

    #[tactic(auto, unfolding(crate::specs::Saved::timer_fault))]
    fn timer_fault(&self, timer: Timer) -> Option<StateFault>
        ensures { result ≡ timer_fault self.now timer }
    {
        if !self.is_body() || self.is_closed {
            return Some(StateFault::Place);
        }
        if timer.serial <= self.last_serial || timer.serial >= self.next_serial {
            return Some(StateFault::Serial);
        }
        if timer.client >= self.numbers.len() as u64 {
            return Some(StateFault::Owner);
        }
        if timer.deadline <= self.tick {
            return Some(StateFault::Deadline);
        }
        if timer.deadline > self.limits.last_tick {
            return Some(StateFault::LastTick);
        }
        if self.timers.len() as u64 >= self.limits.capacity {
            return Some(StateFault::Capacity);
        }
        None
    }

    #[tactic(auto, unfolding(crate::specs::Saved::end_fault))]
    fn end_fault(&self, pending: u64) -> Option<StateFault>
        ensures { result ≡ end_fault self.now pending }
    {
        if !self.is_body() {
            return Some(StateFault::Place);
        }
        if pending != self.timers.len() as u64 {
            return Some(StateFault::Count);
        }
        None
    }
}
