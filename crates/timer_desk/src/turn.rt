//! Turns of the desk: lists of steps, and the report of their results.
//!
//! Memory for the whole report is reserved before the first step. A step adds one member, and a notice of each
//! timer that it hands out. Each of these was pending before the turn or was started by a serve during it. So two
//! members a step, and one for each pending timer, are enough.
ghost use Rattle.std.specs.Prelude.{◌≡◌, [], ◌∷◌, ◌<◌, ◌≤◌, ◌+◌, length, true, All, IfOk, OnErr, vec_len, vec_capacity};
ghost use Rattle.timer_desk.specs.Desk.{clients_of, InRange, AddsStep, IsReport};
ghost use Rattle.timer_desk.specs.Report.{step_in};
ghost use Rattle.timer_desk.specs.Event.{is_event, IsEvent};

use crate::desk::Desk;
use crate::dispatch::hand_out_and_report;
use crate::inlet::Inlet;
use crate::report::{Done, Step};
use std::alloc::AllocError;
use std::mem;
use timer_base::{OutOfMemory, Wheel};
use timer_facility::Facility;
use timer_facility::laws::notices_are_owed;

impl<W: Wheel + Drop, I: Inlet + Drop> Desk<W, I> {
    /// Takes the steps in order, and returns the report of their results. The report is allocated first:
    /// if that fails, nothing has changed. What follows from a report is in `laws`.
    pub fn turn(&mut self, steps: &[Step]) -> Result<Vec<Done>, OutOfMemory>
        requires { All (InRange (clients_of self.old)) steps.now }
        ensures ok { IfOk result (λ report. IsReport I.kind steps.now report.items self.old self.new) }
        ensures err { OnErr result (self.new ≡ self.old) }
    {
        notices_are_owed();
        let room = steps
            .len()
            .saturating_mul(2)
            .saturating_add(self.facility.pending());
        let Ok(mut report) = self.empty_report(room) else {
            return Err(OutOfMemory);
        };
        for step in steps {
            self.step(*step, &mut report);
        }
        Ok(report)
    }

    /// Keeps the memory of a report for the next turn, which then allocates only if it needs more.
    pub fn recycle(&mut self, report: Vec<Done>)
        ensures { self.new ≡ self.old }
    {
        self.kept = report;
    }

    /// An empty report with room for so many members. It takes the memory that was kept.
    fn empty_report(&mut self, room: usize) -> Result<Vec<Done>, AllocError>
        ensures empty { IfOk result (λ report. report.items ≡ []) }
        ensures room { IfOk result (λ report. room ≤ vec_capacity report) }
        ensures same { self.new ≡ self.old }
    {
        let mut report = mem::replace(&mut self.kept, Vec::new(self.alloc));
        report.clear();
        report.reserve(room)?;
        Ok(report)
    }

    /// Takes one step, and appends its result to the report.
    fn step(&mut self, step: Step, report: &mut Vec<Done>)
        requires client { InRange (clients_of self.old) step }
        requires room { vec_len report.old + 2 + length self.old.facility.pending ≤ vec_capacity report.old }
        ensures adds { AddsStep I.kind step report.old.items report.new.items self.old self.new }
        ensures capacity { vec_capacity report.new ≡ vec_capacity report.old }
        ensures room { vec_len report.new + length self.new.facility.pending
            ≤ vec_len report.old + length self.old.facility.pending + 2 }
    {
        match step {
            Step::Serve(client) => {
                let served = self.backlogs[client].serve(
                    &mut self.inlets[client],
                    &mut self.facility,
                    client,
                );
                report.push_reserved(Done::Served { client, served });
                hand_out_and_report(&mut self.facility, &mut self.backlogs, report);
            }
            Step::Flush(client) => {
                let count = self.flush(client);
                report.push_reserved(Done::Flushed { client, count });
            }
            _ => {
                let done = make_event(&mut self.facility, step);
                report.push_reserved(done);
                hand_out_and_report(&mut self.facility, &mut self.backlogs, report);
            }
        }
    }
}

/// Makes the event of a step that is the owner's at the facility, and returns its member of the report.
fn make_event<W: Wheel + Drop>(facility: &mut Facility<W>, step: Step) -> Done
    requires quiet { facility.old.waiting ≡ [] }
    requires owner { is_event step ≡ true }
    requires some { InRange 0 step }
    ensures event { IsEvent result facility.old facility.new }
    ensures step { step_in result ≡ step ∷ [] }
{
    match step {
        Step::Tick => Done::Ticked(facility.tick()),
        Step::Ticks(limit) => Done::Passed {
            limit,
            passed: facility.ticks(limit),
        },
        Step::Close => Done::Closed(facility.close()),
        _ => unreachable!(),
    }
}
