//! The lines of a dump.
ghost use Rattle.std.specs.Prelude.{◌≡◌, ◌+◌, ◌<◌, ◌≤◌, ◌++◌, ◌⊎◌, length, map, OnErr, OnOk, vec_len, vec_capacity};
ghost use Rattle.timer_base.specs.Order.{AreDistinct};
ghost use Rattle.timer_facility.specs.Saved.{by_serial, saved_of, head_line, number_lines, timer_lines, state_lines};

use crate::event::Out;
use crate::facility::Facility;
use crate::saved::StateLine;
use std::alloc::Global;
use timer_base::{OutOfMemory, Timer, Wheel};

impl<W: Wheel + Drop> Facility<W> {
    /// Appends the lines of a dump, as outs: the state as values. The only error is out of memory, and then nothing is
    /// appended. It allocates a list of the pending timers, and room for the outs.
    pub fn dump(&self, alloc: Global, outs: &mut Vec<Out>) -> Result<(), OutOfMemory>
        ensures ok { OnOk result (outs.new.items
            ≡ outs.old.items ++ map (λ line. Out.Dumped line) (state_lines (saved_of self.now.state))) }
        ensures err { OnErr result (outs.new.items ≡ outs.old.items) }
        ensures memory { OnErr result ((vec_capacity outs.old
            < vec_len outs.old + (length self.now.state.numbers + length self.now.state.pending + 2))
            ⊎ (0 < length self.now.state.pending)) }
    {
        let mut timers = Vec::new(alloc);
        self.wheel.list_into(&mut timers)?;
        sort_by_serial(&mut timers);
        let numbers = &self.numbers[..self.clients as usize];
        outs.reserve(numbers.len() + timers.len() + 2)?;
        outs.push_reserved(Out::Dumped(self.head_line()));
        push_numbers(outs, numbers);
        push_timers(outs, &timers);
        outs.push_reserved(Out::Dumped(StateLine::End {
            pending: timers.len() as u64,
        }));
        Ok(())
    }

    /// The first line of a dump.
    fn head_line(&self) -> StateLine
        ensures { result ≡ head_line (saved_of self.now.state) }
    {
        let now = self.wheel.now();
        let next_serial = self.next_serial;
        if self.is_closed {
            StateLine::Closed { now, next_serial }
        } else {
            StateLine::Open { now, next_serial }
        }
    }
}

/// Sorts timers by serial. Does not allocate.
fn sort_by_serial(timers: &mut Vec<Timer>)
    requires { AreDistinct timers.old.items }
    ensures { timers.new.items ≡ by_serial timers.old.items }
{
    timers.sort_unstable_by_key(|t| t.serial);
}

/// Appends a line for each client's number. Room for them was reserved.
fn push_numbers(outs: &mut Vec<Out>, numbers: &[u64])
    requires { vec_len outs.old + length numbers.now ≤ vec_capacity outs.old }
    ensures items { outs.new.items ≡ outs.old.items ++ map (λ line. Out.Dumped line) (number_lines 0 numbers.now) }
    ensures len { vec_len outs.new ≡ vec_len outs.old + length numbers.now }
    ensures capacity { vec_capacity outs.new ≡ vec_capacity outs.old }
{
    for (client, next) in numbers.iter().enumerate() {
        outs.push_reserved(Out::Dumped(StateLine::Number {
            client: client as u64,
            next: *next,
        }));
    }
}

/// Appends a line for each timer. Room for them was reserved.
fn push_timers(outs: &mut Vec<Out>, timers: &[Timer])
    requires { vec_len outs.old + length timers.now ≤ vec_capacity outs.old }
    ensures items { outs.new.items ≡ outs.old.items ++ map (λ line. Out.Dumped line) (timer_lines timers.now) }
    ensures len { vec_len outs.new ≡ vec_len outs.old + length timers.now }
    ensures capacity { vec_capacity outs.new ≡ vec_capacity outs.old }
{
    for timer in timers {
        outs.push_reserved(Out::Dumped(StateLine::Pending(*timer)));
    }
}
