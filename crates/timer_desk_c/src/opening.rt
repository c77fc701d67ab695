//! Opens the line of a client that is gone again, for another client of the same number.
//!
//! Nothing of the client that is gone is left then: so each request and each word of the new line is the new
//! client's. The numbers of its requests go on from those of the one that is gone, since the facility counts them.
ghost use Rattle.std.specs.Prelude.{◌≡◌, ◌<◌, ◌≤◌, ◌≢◌, ◌⊎◌, true, false, get_or, IfOk, IfErr};
ghost use Rattle.timer_desk_c.specs.Types.{LAST, RingInlet};
ghost use Rattle.timer_facility.specs.State.{number_of, pending_of};
ghost use Rattle.timer_desk.specs.Desk.{clients_of, backlog_at, IsIdle};
ghost use Rattle.timer_desk.specs.RingEnds.{IsOver};
ghost use Rattle.timer_desk_c.specs.Freed.{OnlyLooks};
ghost use Rattle.timer_desk_c.specs.Opening.{IsClear, IsSeenOver, HasOpened, WhyNotOpened};

use crate::desk_maker::{MAX_ITEMS, MIN_ITEMS, NewEnds, new_ends};
use crate::line::Line;
use crate::status::{LEFT, NO_CLIENT, NO_MEMORY, NOT_FREED, NUMBERS_SPENT, OUT_OF_RANGE};
use std::alloc::Global;
use timer_base::{LAST, Wheel};
use timer_desk::{Desk, RingInlet};

/// Opens a new line for a client whose line was freed and of which nothing is left, with room for `room` requests and
/// as many words, and returns the client's end.
pub(crate) fn open<W: Wheel + Drop>(
    alloc: Global,
    desk: &mut Desk<W, RingInlet>,
    client: usize,
    room: usize,
) -> Result<Box<Line>, u32>
    ensures opened { IfOk result (λ end. HasOpened client room desk.old desk.new end.value) }
    ensures refused { IfErr result (WhyNotOpened client room desk.old desk.new) }
    ensures status { IfErr result (λ status. 0 < status) }
    ensures kept { IfErr result (λ _. OnlyLooks client desk.old desk.new) }
{
    if client >= desk.clients() {
        return Err(NO_CLIENT);
    }
    if room < MIN_ITEMS || room > MAX_ITEMS {
        return Err(OUT_OF_RANGE);
    }
    if !desk.is_abandoned(client) {
        return Err(NOT_FREED);
    }
    if is_left(desk, client) {
        return Err(LEFT);
    }
    let number = next_number(desk, client);
    if number > LAST {
        return Err(NUMBERS_SPENT);
    }
    let Ok(NewEnds { inlet, end }) = new_ends(alloc, room, number) else {
        return Err(NO_MEMORY);
    };
    drop(desk.replace_line(client, inlet));
    Ok(end)
}

/// The number after that of a client's last request.
pub(crate) fn next_number<W: Wheel + Drop>(desk: &Desk<W, RingInlet>, client: usize) -> u64
    ensures { result ≡ number_of desk.now.facility client }
{
    desk.facility().next_number(client as u64).unwrap_or(0)
}

/// Whether something of a client is left at the desk. Only more is known of its line.
fn is_left<W: Wheel + Drop>(desk: &mut Desk<W, RingInlet>, client: usize) -> bool
    requires { client < clients_of desk.old }
    ensures no { result ≡ false → IsClear client desk.old }
    ensures over { result ≡ false → IsSeenOver client desk.new }
    ensures yes { result ≡ true → IsClear client desk.old → (i : RingInlet)
        → ¬ (IsOver (get_or desk.new.inlets client i)) }
    ensures looked { OnlyLooks client desk.old desk.new }
{
    let clear = is_clear(desk, client);
    let over = desk.is_over(client);
    !clear || !over
}

/// Whether nothing is held of a client, no word waits for it, and no timer of it is pending.
pub(crate) fn is_clear<W: Wheel + Drop>(desk: &Desk<W, RingInlet>, client: usize) -> bool
    requires { client < clients_of desk.now }
    ensures yes { result ≡ true → IsClear client desk.now }
    ensures no { result ≡ false → (¬ (IsIdle (backlog_at desk.now client))) ⊎ (0 < pending_of desk.now.facility client) }
{
    desk.held(client).is_none()
        && desk.outbox_len(client) == 0
        && desk.facility().pending_of(client as u64) == 0
}
