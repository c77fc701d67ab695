//! How buckets are named, and numbers behind words.
ghost use Rattle.std.specs.Prelude.{◌≡◌, ◌<◌, ◌++◌, decimal, OnOk};
ghost use Rattle.timer_script.specs.Decorator.{HasGrown};
ghost use Rattle.timer_commands.specs.Indented.{HasGrownByBare};
ghost use Rattle.timer_commands.specs.Pictures.{shows_rounds, slot_name, hand_name, bucket_name};

use itoa::Buffer;
use timer_base::OutOfMemory;
use timer_wheels::{Table, lowest_slots};

/// The slots of two revolutions of a hierarchy's wheel, which the smooth wheel has for each.
const TURN_SLOTS: u64 = 128;

/// The lists of the clock's slots come second by second, then minute by minute, and so on.
const FIRST_MINUTE: u64 = 60;

const FIRST_HOUR: u64 = 120;

const FIRST_DAY: u64 = 144;

/// How the buckets of a wheel are named.
#[derive(Clone, Copy)]
pub enum Naming {
    /// By their slots alone. Each timer is shown with its rounds.
    Slots,
    /// By wheel and slot, of a table whose wheels have equally many slots.
    Wheels(Table),
    /// By wheel and slot of its two revolutions.
    Turns,
    /// By the hands of the clock.
    Clock,
}

/// How the buckets of a hierarchy are named.
pub(crate) fn naming_of(table: Table) -> Naming {
    match table {
        Table::Clock => Naming::Clock,
        _ => Naming::Wheels(table),
    }
}

/// Whether timers are shown with their rounds.
pub(crate) fn has_rounds(naming: Naming) -> bool
    ensures { result ≡ shows_rounds naming }
{
    match naming {
        Naming::Slots => true,
        Naming::Wheels(_) | Naming::Turns | Naming::Clock => false,
    }
}

/// Appends a space, and the name of the bucket that is this list.
#[tactic(auto, using(crate::proofs::IndentedLemmas::bare_numbers))]
pub(crate) fn push_name(text: &mut Vec<u8>, list: u64, naming: Naming) -> Result<(), OutOfMemory>
    ensures name { OnOk result (text.new.items ≡ text.old.items ++ bucket_name naming list) }
    ensures bare { OnOk result (HasGrownByBare text.old.items text.new.items) }
    ensures kept { HasGrown text.old.items text.new.items }
{
    match naming {
        Naming::Slots => push_number(text, b" slot ", list),
        Naming::Wheels(table) => push_slot(text, list, lowest_slots(table) as u64),
        Naming::Turns => push_slot(text, list, TURN_SLOTS),
        Naming::Clock => push_hand(text, list),
    }
}

/// Appends a space, and the wheel and slot of the bucket that is this list, where each wheel has so many slots.
#[tactic(auto, using(crate::proofs::IndentedLemmas::bare_numbers))]
fn push_slot(text: &mut Vec<u8>, list: u64, slots: u64) -> Result<(), OutOfMemory>
    requires { 0 < slots }
    ensures name { OnOk result (text.new.items ≡ text.old.items ++ slot_name slots list) }
    ensures bare { OnOk result (HasGrownByBare text.old.items text.new.items) }
    ensures kept { HasGrown text.old.items text.new.items }
{
    push_number(text, b" wheel ", list / slots)?;
    push_number(text, b" slot ", list % slots)
}

/// Appends a space, and the hand of the clock and its slot, whose bucket is this list.
#[tactic(auto, using(crate::proofs::IndentedLemmas::numbered_ok))]
fn push_hand(text: &mut Vec<u8>, list: u64) -> Result<(), OutOfMemory>
    ensures name { OnOk result (text.new.items ≡ text.old.items ++ hand_name list) }
    ensures bare { OnOk result (HasGrownByBare text.old.items text.new.items) }
    ensures kept { HasGrown text.old.items text.new.items }
{
    if list < FIRST_MINUTE {
        push_number(text, b" second ", list)
    } else if list < FIRST_HOUR {
        push_number(text, b" minute ", list - FIRST_MINUTE)
    } else if list < FIRST_DAY {
        push_number(text, b" hour ", list - FIRST_HOUR)
    } else {
        push_number(text, b" day ", list - FIRST_DAY)
    }
}

/// Appends a word and a number.
pub(crate) fn push_number(text: &mut Vec<u8>, word: &[u8], n: u64) -> Result<(), OutOfMemory>
    ensures text { OnOk result (text.new.items ≡ text.old.items ++ word.now ++ decimal n) }
    ensures kept { HasGrown text.old.items text.new.items }
{
    let mut buffer = Buffer::new();
    text.extend_from_slice(word)?;
    text.extend_from_slice(buffer.format(n).as_bytes())?;
    Ok(())
}
