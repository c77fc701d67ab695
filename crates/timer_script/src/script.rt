//! A whole script: a line for each event, and nothing else.
//!
//! Each event in range has one spelling, so a script is the script of one list of events. Bytes
//! that are not a script have a first bad line, after the lines of some events.
ghost use Rattle.std.specs.Prelude.{◌≡◌, List, IfOk, IfErr};
ghost use Rattle.timer_facility.specs.declared.event.Event.{Event};
ghost use Rattle.timer_script.specs.Script.{IsScript, IsFault};

use crate::fault::ScriptFault;
use crate::lines::read_line;
use std::alloc::Global;
use timer_facility::Event;

/// The events that the bytes spell.
///
/// `Bad` names the first bad line, counted from 1. Bytes after the last line feed are a bad line, and
/// so is an empty line. A well-formed line that the facility will refuse is not.
#[tactic(auto, using(crate::proofs::ScriptLemmas::reading))]
pub fn parse_script(alloc: Global, bytes: &[u8]) -> Result<Vec<Event>, ScriptFault>
    // The bytes spell these events.
    ensures read { IfOk result (λ events. IsScript events.items bytes.now) }
    // They spell no other list of events.
    ensures only { IfOk result (λ events. (others : List Event) → IsScript others bytes.now
        → others ≡ events.items) }
    // An error names the first bad line, unless memory ran out.
    ensures fault { IfErr result (λ fault. IsFault fault bytes.now) }
{
    let mut events = Vec::new(alloc);
    let mut rest = bytes;
    while !rest.is_empty() {
        let Some((event, after)) = read_line(rest) else {
            let line = events.len() as u64 + 1;
            return Err(ScriptFault::Bad { line });
        };
        events.push(event)?;
        rest = after;
    }
    Ok(events)
}
