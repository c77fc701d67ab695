//! Rounds of the owner: each client is served, or each outbox flushed, in the order of the clients.
ghost use Rattle.std.specs.Prelude.{◌≡◌, ◌<◌, ◌+◌};
ghost use Rattle.timer_desk.specs.Desk.{clients_of};
ghost use Rattle.timer_desk_c.specs.Rounds.{did, starved, round_status, HasServedClient, HasServedAll, HasFlushedFirst, HasFlushedAll};
ghost use Rattle.timer_desk_c.specs.Freed.{HasDropped, HasDroppedFirst, waiting_at};

use crate::status::{IDLE, NO_MEMORY, OK};
use timer_base::Wheel;
use timer_desk::{Desk, RingInlet, Served};

/// What the serves of one client did.
#[derive(Drop)]
struct Round {
    /// A request was done.
    busy: bool,
    /// A serve failed with out of memory.
    starved: bool,
}

/// Serves each client in turn, each up to `most` times.
pub(crate) fn serve_all<W: Wheel + Drop>(desk: &mut Desk<W, RingInlet>, most: u64) -> u32
    ensures { HasServedAll most result desk.old desk.new }
{
    desk.lemma_invariant();
    let mut busy = false;
    let mut starved = false;
    for client in 0..desk.clients() {
        let round = serve_up_to(desk, client, most);
        busy |= round.busy;
        starved |= round.starved;
    }
    round_status(starved, busy)
}

/// Serves a client until `most` requests were done or a serve did none.
fn serve_up_to<W: Wheel + Drop>(desk: &mut Desk<W, RingInlet>, client: usize, most: u64) -> Round
    requires { client < clients_of desk.old }
    ensures { HasServedClient client most result.busy result.starved desk.old desk.new }
{
    desk.lemma_invariant();
    let mut busy = false;
    for _ in 0..most {
        let served = desk.serve(client);
        if !is_done(served) {
            let starved = is_starved(served);
            return Round { busy, starved };
        }
        busy = true;
    }
    Round {
        busy,
        starved: false,
    }
}

/// Flushes each client's outbox, and then drops the words that are left of clients whose line was freed. Returns
/// whether a word has left its outbox.
pub(crate) fn flush_all<W: Wheel + Drop>(desk: &mut Desk<W, RingInlet>) -> bool
    ensures { HasFlushedAll result desk.old desk.new }
{
    let put = flush_each(desk);
    let dropped = drop_each(desk);
    put | dropped
}

/// Drops the words of each client whose line was freed. Returns whether a word was dropped.
fn drop_each<W: Wheel + Drop>(desk: &mut Desk<W, RingInlet>) -> bool
    ensures { HasDroppedFirst (clients_of desk.old) result desk.old desk.new }
{
    let mut dropped = false;
    for client in 0..desk.clients() {
        dropped |= drop_rest(desk, client) > 0;
    }
    dropped
}

/// Drops the words in a client's outbox if its line was freed, and returns how many. If the outbox is empty, the line
/// is not examined.
pub(crate) fn drop_rest<W: Wheel + Drop>(desk: &mut Desk<W, RingInlet>, client: usize) -> usize
    requires { client < clients_of desk.old }
    ensures dropped { HasDropped client desk.old desk.new }
    ensures count { result + waiting_at desk.new client ≡ waiting_at desk.old client }
{
    if desk.outbox_len(client) == 0 {
        return 0;
    }
    desk.discard(client)
}

/// Flushes each client's outbox. Returns whether a word was moved.
fn flush_each<W: Wheel + Drop>(desk: &mut Desk<W, RingInlet>) -> bool
    ensures { HasFlushedFirst (clients_of desk.old) result desk.old desk.new }
{
    desk.lemma_invariant();
    let mut busy = false;
    for client in 0..desk.clients() {
        busy |= desk.flush(client) > 0;
    }
    busy
}

/// Whether a serve did a request.
fn is_done(served: Served) -> bool
    ensures { result ≡ did served }
{
    matches!(served, Served::Did { .. })
}

/// Whether a serve failed with out of memory.
fn is_starved(served: Served) -> bool
    ensures { result ≡ starved served }
{
    matches!(served, Served::NoMemory)
}

/// The status of a round: out of memory comes before what was done, so that the owner comes back for the held
/// request.
fn round_status(starved: bool, busy: bool) -> u32
    ensures { result ≡ round_status starved busy }
{
    if starved {
        return NO_MEMORY;
    }
    if busy { OK } else { IDLE }
}
