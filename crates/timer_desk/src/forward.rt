//! Passes a client's request to the facility.
ghost use Rattle.std.specs.Prelude.{◌≡◌, [], false, None, IfSome, IsNone};
ghost use Rattle.timer_facility.specs.Facility.{NeedsMemory};
ghost use Rattle.timer_desk.specs.Forward.{IsForwarded};

use crate::word::{Numbered, Word, action_of};
use timer_base::Wheel;
use timer_facility::{Facility, NotTaken};

/// Makes a client's request at the facility, and returns the word for its answer or its refusal.
///
/// None if the facility is out of memory, and then nothing changes. It is never out of memory after a `reserve`.
#[inline(always)]
pub fn ask<W: Wheel + Drop>(
    facility: &mut Facility<W>,
    client: u64,
    numbered: Numbered,
) -> Option<Word>
    requires { facility.old.waiting ≡ [] }
    ensures some { IfSome result (λ word. IsForwarded facility.old.state client numbered word facility.new) }
    ensures none { IsNone result → facility.new ≡ facility.old }
    ensures memory { IsNone result → (facility.old.state.has_room ≡ false)
        × NeedsMemory facility.old.state client numbered.number numbered.request }
{
    let Numbered { number, request } = numbered;
    let action = action_of(request);
    match facility.take(client, number, request) {
        Ok(answer) => Some(Word::Answered {
            number,
            action,
            answer,
        }),
        Err(reason) => {
            if let NotTaken::OutOfMemory = reason {
                return None;
            }
            Some(Word::NotTaken {
                number,
                action,
                reason,
            })
        }
    }
}
