//! A session: events are played one after another, and answered in text.
ghost use Rattle.std.specs.Prelude.{◌≡◌, ◌++◌, ◌∷◌, [], length, OnErr, OnOk};
ghost use Rattle.timer_script.specs.SavedText.{dump_text};
ghost use Rattle.timer_script.specs.ScriptRun.{AddsLines};
ghost use Rattle.timer_script.specs.Text.{end_line};

use crate::script_run::play_event;
use crate::text::{push_end, push_outs};
use std::alloc::Global;
use timer_base::{OutOfMemory, Wheel};
use timer_facility::{Event, Out, Player};

/// A player, and the memory that it uses for one event after another.
#[derive(Drop)]
pub struct Session<W: Wheel + Drop> {
    pub player: Player<W>,
    /// The outs of one event.
    pub outs: Vec<Out>,
}

impl<W: Wheel + Drop> Session<W> {
    /// A session of this player. Does not allocate.
    pub fn new(alloc: Global, player: Player<W>) -> Session<W>
        ensures { result.player ≡ player }
    {
        Session {
            player,
            outs: Vec::new(alloc),
        }
    }

    /// Plays one event, and appends its lines. The only error is out of memory, and then the text is unchanged. Inlined
    /// as `play_event` is.
    #[inline(always)]
    pub fn play_one(&mut self, event: &Event, text: &mut Vec<u8>) -> Result<(), OutOfMemory>
        ensures played { OnOk result (AddsLines self.old.player (event.now ∷ []) text.old.items text.new.items
            self.new.player) }
        ensures text { OnErr result (text.new.items ≡ text.old.items) }
    {
        let before = text.len();
        match play_event(&mut self.player, event, &mut self.outs, text) {
            Ok(()) => Ok(()),
            Err(_) => {
                // A part of a line may have been appended.
                text.truncate(before);
                Err(OutOfMemory)
            }
        }
    }

    /// Appends the text of a dump. The only error is out of memory, and then the text means nothing.
    pub fn write_state(&mut self, alloc: Global, text: &mut Vec<u8>) -> Result<(), OutOfMemory>
        ensures player { self.new.player ≡ self.old.player }
        ensures text { OnOk result (text.new.items ≡ text.old.items ++ dump_text self.old.player) }
    {
        self.outs.clear();
        self.player.facility().dump(alloc, &mut self.outs)?;
        push_outs(text, &self.outs)
    }

    /// Appends the end line. The only error is out of memory, and then the text means nothing.
    pub fn write_end(&self, text: &mut Vec<u8>) -> Result<(), OutOfMemory>
        ensures { OnOk result (text.new.items
            ≡ text.old.items ++ end_line self.now.player.now (length self.now.player.pending)) }
    {
        let facility = self.player.facility();
        push_end(text, facility.now(), facility.pending() as u64)
    }
}
