//! Plays one request: a start, a stop or a restart.
ghost use Rattle.std.specs.Prelude.{◌≡◌, ◌<◌, ◌⊎◌, ◌+◌, ◌∷◌, false, [], IfOk, OnErr, OnOk, vec_len, vec_capacity};
ghost use Rattle.timer_facility.specs.Facility.{event_of_request, model_of, is_for_a_tick, MakesTimer};
ghost use Rattle.timer_facility.specs.Played.{MakesStep, AddsRun, TakesMemory};

use crate::event::{Event, Out};
use crate::handing_out::{hand_out, make_room};
use crate::player::Player;
use crate::request::{NotTaken, Request};
use timer_base::{OutOfMemory, Wheel};

impl<W: Wheel + Drop> Player<W> {
    /// Plays a start, and returns its out. The only error is out of memory, and then nothing changes. A start that makes
    /// no timer is never out of memory.
    ///
    /// This and the next two are inlined, with most of what they call: an out that is returned through memory is read
    /// in other pieces than it was written in, and such a read waits for the writes.
    #[inline(always)]
    pub fn play_start(
        &mut self,
        client: u64,
        number: u64,
        interval: u64,
        action: u64,
    ) -> Result<Out, OutOfMemory>
        ensures ok { IfOk result (λ out. AddsRun self.old (Event.Start client number interval action) []
            (out ∷ []) self.new) }
        ensures err { OnErr result (self.new ≡ self.old) }
        ensures memory { OnErr result (TakesMemory self.old (Event.Start client number interval action)) }
    {
        self.play_request(client, number, Request::Start { interval, action })
    }

    /// Plays a stop, and returns its out. Does not allocate.
    #[inline(always)]
    pub fn play_stop(&mut self, client: u64, number: u64, serial: u64) -> Out
        ensures { AddsRun self.old (Event.Stop client number serial) [] (result ∷ []) self.new }
    {
        let handle = self.handles.handle_of(serial);
        match self.facility.take(client, number, Request::Stop(handle)) {
            Ok(answer) => {
                self.handles.forget(&self.facility);
                Out::Answered {
                    client,
                    number,
                    answer,
                }
            }
            Err(reason) => Out::NotTaken {
                client,
                number,
                reason,
            },
        }
    }

    /// Plays a restart, and returns its out. The only error is out of memory, and then nothing changes. A restart that
    /// makes no timer is never out of memory.
    #[inline(always)]
    pub fn play_restart(
        &mut self,
        client: u64,
        number: u64,
        serial: u64,
        interval: u64,
        action: u64,
    ) -> Result<Out, OutOfMemory>
        ensures ok { IfOk result (λ out. AddsRun self.old (Event.Restart client number serial interval action) []
            (out ∷ []) self.new) }
        ensures err { OnErr result (self.new ≡ self.old) }
        ensures memory { OnErr result (TakesMemory self.old (Event.Restart client number serial interval action)) }
    {
        let handle = self.handles.handle_of(serial);
        let request = Request::Restart {
            handle,
            interval,
            action,
        };
        self.play_request(client, number, request)
    }

    /// Plays a start or a restart that is not for a tick, and keeps the handle of the timer that it makes.
    #[inline(always)]
    fn play_request(
        &mut self,
        client: u64,
        number: u64,
        request: Request,
    ) -> Result<Out, OutOfMemory>
        requires { is_for_a_tick request ≡ false }
        ensures ok { IfOk result (λ out. MakesStep self.old (event_of_request client number request) []
            (out ∷ []) self.new) }
        ensures err { OnErr result (self.new ≡ self.old) }
        ensures memory { OnErr result (MakesTimer self.old client number (model_of request)) }
    {
        self.handles
            .make_room(&self.facility, client, number, request)?;
        match self.facility.take(client, number, request) {
            Ok(answer) => {
                self.handles.record(answer);
                self.handles.forget(&self.facility);
                Ok(Out::Answered {
                    client,
                    number,
                    answer,
                })
            }
            Err(reason) => {
                if let NotTaken::OutOfMemory = reason {
                    return Err(OutOfMemory);
                }
                Ok(Out::NotTaken {
                    client,
                    number,
                    reason,
                })
            }
        }
    }

    /// Plays a restart by deadline.
    pub(crate) fn play_restart_at(
        &mut self,
        client: u64,
        number: u64,
        serial: u64,
        deadline: u64,
        action: u64,
        outs: &mut Vec<Out>,
    ) -> Result<(), OutOfMemory>
        ensures ok { OnOk result (AddsRun self.old (Event.RestartAt client number serial deadline action)
            outs.old.items outs.new.items self.new) }
        ensures state { OnErr result (self.new ≡ self.old) }
        ensures outs { OnErr result (outs.new.items ≡ outs.old.items) }
        ensures memory { OnErr result ((vec_capacity outs.old < vec_len outs.old + 2)
            ⊎ TakesMemory self.old (Event.RestartAt client number serial deadline action)) }
    {
        let handle = self.handles.handle_of(serial);
        let request = Request::RestartAt {
            handle,
            deadline,
            action,
        };
        self.play_for_a_tick(client, number, request, outs)
    }

    /// Plays a request for a tick, and keeps the handle of the timer that it makes. If the tick has passed, the
    /// timer's notice follows the answer.
    pub(crate) fn play_for_a_tick(
        &mut self,
        client: u64,
        number: u64,
        request: Request,
        outs: &mut Vec<Out>,
    ) -> Result<(), OutOfMemory>
        ensures ok { OnOk result (MakesStep self.old (event_of_request client number request)
            outs.old.items outs.new.items self.new) }
        ensures state { OnErr result (self.new ≡ self.old) }
        ensures outs { OnErr result (outs.new.items ≡ outs.old.items) }
        ensures memory { OnErr result ((vec_capacity outs.old < vec_len outs.old + 2)
            ⊎ MakesTimer self.old client number (model_of request)) }
    {
        outs.reserve(2)?;
        self.handles
            .make_room(&self.facility, client, number, request)?;
        match self.facility.take(client, number, request) {
            Ok(answer) => {
                self.handles.record(answer);
                outs.push_reserved(Out::Answered {
                    client,
                    number,
                    answer,
                });
                hand_out(&mut self.facility, outs);
                self.handles.forget(&self.facility);
                Ok(())
            }
            Err(NotTaken::OutOfMemory) => Err(OutOfMemory),
            Err(reason) => {
                outs.push_reserved(Out::NotTaken {
                    client,
                    number,
                    reason,
                });
                Ok(())
            }
        }
    }
}
