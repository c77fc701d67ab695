//! A visit of every timer that is held, pending or due, in the order of their places.
//!
//! A timer keeps its place until it is stopped or taken, and a restart keeps it too. So a visit that goes
//! from place to place finds each timer that is there all the time exactly once, whatever is started and
//! stopped meanwhile.
ghost use Rattle.std.specs.Prelude.{◌<◌};
ghost use Rattle.std.specs.Option.{IfSome};
ghost use Rattle.timer_wheels.specs.Buckets.{state_of};
ghost use Rattle.timer_wheels.specs.HeldPlaces.{IsFirstHeld, IsAlone};

use crate::buckets::Buckets;
use timer_base::Handle;
use timer_links::Kept;

/// The handle of the timer at this place or the first later one that has a timer. Does not allocate.
pub fn held_from<N: Kept>(buckets: &Buckets<N>, place: usize) -> Option<Handle>
    ensures first { IsFirstHeld place (state_of buckets.now) result }
    ensures alone { IfSome result (λ handle. IsAlone handle (state_of buckets.now)) }
    ensures in_range { IfSome result (λ handle. handle.place < 4294967296) }
{
    let links = &buckets.links;
    links.lemma_keys_unique();
    let Some(key) = links.used_from(place) else {
        return None;
    };
    let Some(node) = links.get(key) else {
        return None;
    };
    Some(Handle {
        place: key,
        serial: node.timer.serial,
    })
}
