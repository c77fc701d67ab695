//! A desk and the lines of its clients.
ghost use Rattle.std.specs.Prelude.{◌≡◌, ◌<◌, ◌≤◌, map, vec_len, IfOk, IfErr, IfSome};
ghost use Rattle.timer_wheels.specs.Tiers.{AreTiersFor};
ghost use Rattle.timer_base.specs.declared.limits.TheConstants.{LAST};
ghost use Rattle.timer_desk_c.specs.Desks.{desk_config, IsFit, IsNewLine, AreNewLines, IsNewDesk, WhyNotMade};
ghost use Rattle.timer_desk_c.specs.Opening.{IsRoom};

use crate::layout::{CONFIG_SIZE, DeskConfig};
use crate::line::Line;
use crate::status::{NO_MEMORY, OUT_OF_RANGE};
use std::alloc::Global;
use timer_base::OutOfMemory;
use timer_desk::{Desk, MAX_ROOM, MIN_ROOM, RingInlet, ring_line};
use timer_facility::{Checked, Config, Facility};
use timer_wheels::{TieredWheel, Tiers};

/// The least room of a line, each way.
pub const MIN_ITEMS: usize = 1;

/// The greatest room of a line, each way.
pub const MAX_ITEMS: usize = 65536;

/// The owner's end of a new line, and the client's.
pub(crate) struct NewEnds {
    pub(crate) inlet: RingInlet,
    pub(crate) end: Box<Line>,
}

/// The ends of new lines: the owner's, and at the same index the client's.
struct NewLines {
    inlets: Vec<RingInlet>,
    ends: Vec<Box<Line>>,
}

/// A desk, and the clients' ends of its lines.
pub(crate) struct Made {
    pub(crate) desk: Box<Desk<TieredWheel, RingInlet>>,
    pub(crate) ends: Vec<Box<Line>>,
}

/// Makes a desk of `clients` clients.
pub(crate) fn make(alloc: Global, clients: usize, config: DeskConfig) -> Result<Made, u32>
    ensures fit { IfOk result (λ _. IsFit clients config) }
    ensures desk { IfOk result (λ m. IsNewDesk clients config m.desk.value) }
    ensures lines { IfOk result (λ m. AreNewLines config.line m.desk.value.inlets
        (map (λ b. b.value) m.ends.items)) }
    ensures as_many { IfOk result (λ m. vec_len m.ends ≡ clients) }
    ensures err { IfErr result (WhyNotMade clients config) }
{
    let Some((checked, tiers)) = checked(clients, config) else {
        return Err(OUT_OF_RANGE);
    };
    let Ok(wheel) = TieredWheel::with_tiers(alloc, tiers, config.first_tick) else {
        return Err(NO_MEMORY);
    };
    let facility = Facility::open(alloc, checked, wheel);
    let Ok(NewLines { inlets, ends }) = new_lines(alloc, clients, config.line) else {
        return Err(NO_MEMORY);
    };
    let Ok(desk) = Desk::open(alloc, facility, inlets, config.room) else {
        return Err(NO_MEMORY);
    };
    match Box::new(alloc, desk) {
        Ok(desk) => Ok(Made { desk, ends }),
        Err(_) => Err(NO_MEMORY),
    }
}

/// The configuration of the facility and the wheels, if each number is in its range.
fn checked(clients: usize, config: DeskConfig) -> Option<(Checked, Tiers)>
    ensures some { IfSome result (λ made. (made.0 ≡ desk_config clients config)
        × AreTiersFor config.table config.first_tick made.1 × IsFit clients config) }
    ensures none { result ≡ None → IsFit clients config → ⊥ }
{
    if config.size != CONFIG_SIZE {
        return None;
    }
    if config.room < MIN_ROOM || config.room > MAX_ROOM {
        return None;
    }
    if config.line < MIN_ITEMS || config.line > MAX_ITEMS {
        return None;
    }
    let tiers = Tiers::with_number(config.table)?;
    if config.first_tick > tiers.last_tick() {
        return None;
    }
    let numbers = Config {
        clients: clients as u64,
        capacity: config.capacity,
        first_tick: config.first_tick,
        first_serial: 1,
        first_number: 1,
    };
    let checked = numbers.check().ok()?;
    Some((checked, tiers))
}

/// Makes a line for each of `clients` clients, each with this room each way.
fn new_lines(alloc: Global, clients: usize, room: usize) -> Result<NewLines, OutOfMemory>
    requires room { (MIN_ITEMS ≤ room) × (room ≤ MAX_ITEMS) }
    ensures lines { IfOk result (λ l. AreNewLines room l.inlets.items (map (λ b. b.value) l.ends.items)) }
    ensures as_many { IfOk result (λ l. (vec_len l.inlets ≡ clients) × (vec_len l.ends ≡ clients)) }
{
    let mut inlets = Vec::with_capacity(alloc, clients)?;
    let mut ends = Vec::with_capacity(alloc, clients)?;
    for _ in 0..clients {
        let NewEnds { inlet, end } = new_ends(alloc, room, 1)?;
        inlets.push_reserved(inlet);
        ends.push_reserved(end);
    }
    Ok(NewLines { inlets, ends })
}

/// The two ends of a new line, whose first request has this number.
pub(crate) fn new_ends(alloc: Global, room: usize, number: u64) -> Result<NewEnds, OutOfMemory>
    requires room { IsRoom room }
    requires number { number ≤ LAST }
    ensures { IfOk result (λ ends. IsNewLine number room ends.inlet ends.end.value) }
{
    let (end, inlet) = ring_line(alloc, room, number)?;
    match Box::new(alloc, Line::Open(end)) {
        Ok(end) => Ok(NewEnds { inlet, end }),
        Err(_) => Err(OutOfMemory),
    }
}
