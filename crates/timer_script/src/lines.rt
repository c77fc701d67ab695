//! One line of a script or of a stream, read from the front of the bytes; and where it ends.
//!
//!     start 0 1 130 7    client 0's request 1 starts a timer that expires after 130 ticks, with action 7
//!
//! docs/formats.md lists the lines. The word of a line leads to the reader of its fields, which returns the event.
//! Fields are separated by one space, and a line feed ends the line. A number is at most `LAST` and
//! has no sign and no leading zero. Each reader returns what it read and the bytes after it, so no line
//! is copied.
ghost use Rattle.std.specs.Prelude.{◌≡◌, ◌<◌, ◌≤◌, ◌-◌, ℕ, IsTrue, length, take, get_or, slice_index};
ghost use Rattle.std.specs.Char.{digit_value};
ghost use Rattle.std.specs.Int.{from_le_bytes, w32};
ghost use Rattle.std.specs.Str.Parse.{AllDigits, digits_value};
ghost use Rattle.timer_script.specs.declared.lines.TheConstants.{MOST_DIGITS};
ghost use Rattle.timer_script.specs.Script.{HasNoFeed};
ghost use Rattle.timer_script.specs.Lines.{read_view, has_word, number_at, field_at, tick_count_at, other_at, line_at, other_own_at, own_line_at, stream_at, line_in};
// made by tools/facts: imports of readers
ghost use Rattle.timer_script.specs.Lines.{start_at, stop_at, restart_at, tick_at, close_at, at_line_at, start_at_line_at, restart_at_line_at, state_line_at};

use timer_base::LAST;
use timer_facility::Event;

/// The most ticks of one line.
pub const MAX_TICKS: u64 = 1000000;

/// The most bytes of one line of a stream, with its line feed: `restart-at`, five numbers of 19 digits, and a space
/// before each.
pub const MAX_LINE: usize = 111;

/// Which lines are read.
#[derive(Clone, Copy, Debug, PartialEq, Eq)]
pub enum Grammar {
    /// Those of a script, which is played or checked as a whole.
    Script,
    /// Those, and the lines of a stream alone: by tick in place of by interval.
    Stream,
}

/// The most digits of a number.
const MOST_DIGITS: usize = 19;

/// The value of the digits at the front, and their number. Of more than `MOST_DIGITS` the value wraps around, so that
/// the value is not tested at each digit. Inlined, as what calls it: a call would return through memory.
#[inline(always)]
fn read_digits(bytes: &[u8]) -> (u64, usize)
    ensures digits { AllDigits 10 (take result.1 bytes.now) }
    ensures within { result.1 ≤ length bytes.now }
    ensures stop { 10 ≤ digit_value (get_or bytes.now result.1 0) }
    ensures value { result.1 ≤ MOST_DIGITS → result.0 ≡ digits_value 10 (take result.1 bytes.now) }
{
    let mut value = 0u64;
    let mut len = 0;
    for b in bytes {
        let Some(digit) = char::from(*b).to_digit(10) else {
            break;
        };
        value = value.wrapping_mul(10).wrapping_add(digit as u64);
        len += 1;
    }
    (value, len)
}

/// A number with no leading zero, and the bytes after it.
#[inline(always)]
#[tactic(auto, using(crate::proofs::LineLemmas::number_tests), unfolding(crate::specs::Lines::number_at))]
fn read_number(bytes: &[u8]) -> Option<(u64, &[u8])>
    ensures { read_view (λ n. n) result ≡ number_at bytes.now }
{
    let (value, len) = read_digits(bytes);
    if len == 0 {
        return None;
    }
    if len > 1 && bytes[0] == b'0' {
        return None;
    }
    if len > MOST_DIGITS || value > LAST {
        return None;
    }
    Some((value, &bytes[len..]))
}

/// A number, and what follows the byte that ends its field.
#[inline(always)]
#[tactic(auto, using(crate::proofs::LineLemmas::bytes_of_fields), unfolding(crate::specs::Lines::field_at))]
pub fn read_field(bytes: &[u8], end: u8) -> Option<(u64, &[u8])>
    ensures { read_view (λ n. n) result ≡ field_at end bytes.now }
{
    let (value, rest) = read_number(bytes)?;
    if rest.is_empty() || rest[0] != end {
        return None;
    }
    Some((value, &rest[1..]))
}

/// A count of ticks, and what follows the byte that ends its field.
#[inline(always)]
#[tactic(auto, unfolding(crate::specs::Lines::tick_count_at))]
fn read_tick_count(bytes: &[u8], end: u8) -> Option<(u64, &[u8])>
    ensures { read_view (λ n. n) result ≡ tick_count_at end bytes.now }
{
    let (count, rest) = read_field(bytes, end)?;
    if count == 0 || count > MAX_TICKS {
        return None;
    }
    Some((count, rest))
}

/// The first four bytes as one number.
#[inline(always)]
fn front(bytes: &[u8]) -> u32
    requires { 4 ≤ length bytes.now }
    ensures { result ≡ from_le_bytes w32 (take 4 bytes.now) }
{
    u32::from_le_bytes([bytes[0], bytes[1], bytes[2], bytes[3]])
}

/// Whether the bytes begin with this word. Its first four bytes alone distinguish it from the others.
#[inline(always)]
fn has_word(bytes: &[u8], word: &[u8]) -> bool
    requires { 4 ≤ length word.now }
    ensures value { result ≡ has_word word.now bytes.now }
    ensures within { IsTrue result → length word.now ≤ length bytes.now }
{
    if bytes.len() < word.len() || front(bytes) != front(word) {
        return false;
    }
    bytes[4..].starts_with(&word[4..])
}

/// Whether the bytes begin with this word, however short it is.
#[tactic(auto, unfolding(crate::specs::Lines::has_word))]
pub fn has_short_word(bytes: &[u8], word: &[u8]) -> bool
    ensures value { result ≡ has_word word.now bytes.now }
    ensures within { IsTrue result → length word.now ≤ length bytes.now }
{
    bytes.starts_with(word)
}

// made by tools/facts: readers of lines
/// The event of a line, from what follows `start `.
#[inline(always)]
#[tactic(auto, unfolding(crate::specs::Lines::start_at))]
fn read_start(bytes: &[u8]) -> Option<(Event, &[u8])>
    ensures { read_view (λ e. e) result ≡ start_at bytes.now }
{
    let (client, rest) = read_field(bytes, b' ')?;
    let (number, rest) = read_field(rest, b' ')?;
    let (interval, rest) = read_field(rest, b' ')?;
    let (action, rest) = read_field(rest, b'\n')?;
    let event = Event::Start {
        client,
        number,
        interval,
        action,
    };
    Some((event, rest))
}

/// The event of a line, from what follows `stop `.
#[inline(always)]
#[tactic(auto, unfolding(crate::specs::Lines::stop_at))]
fn read_stop(bytes: &[u8]) -> Option<(Event, &[u8])>
    ensures { read_view (λ e. e) result ≡ stop_at bytes.now }
{
    let (client, rest) = read_field(bytes, b' ')?;
    let (number, rest) = read_field(rest, b' ')?;
    let (serial, rest) = read_field(rest, b'\n')?;
    let event = Event::Stop {
        client,
        number,
        serial,
    };
    Some((event, rest))
}

/// The event of a line, from what follows `restart `.
#[inline(never)]
#[tactic(auto, unfolding(crate::specs::Lines::restart_at))]
fn read_restart(bytes: &[u8]) -> Option<(Event, &[u8])>
    ensures { read_view (λ e. e) result ≡ restart_at bytes.now }
{
    let (client, rest) = read_field(bytes, b' ')?;
    let (number, rest) = read_field(rest, b' ')?;
    let (serial, rest) = read_field(rest, b' ')?;
    let (interval, rest) = read_field(rest, b' ')?;
    let (action, rest) = read_field(rest, b'\n')?;
    let event = Event::Restart {
        client,
        number,
        serial,
        interval,
        action,
    };
    Some((event, rest))
}

/// The event of a line, from what follows `tick `.
#[inline(never)]
#[tactic(auto, unfolding(crate::specs::Lines::tick_at))]
fn read_tick(bytes: &[u8]) -> Option<(Event, &[u8])>
    ensures { read_view (λ e. e) result ≡ tick_at bytes.now }
{
    let (count, rest) = read_tick_count(bytes, b'\n')?;
    let event = Event::Ticks { count };
    Some((event, rest))
}

/// The event of a line, from what follows `close\n`.
#[inline(always)]
#[tactic(auto, unfolding(crate::specs::Lines::close_at))]
fn read_close(bytes: &[u8]) -> Option<(Event, &[u8])>
    ensures { read_view (λ e. e) result ≡ close_at bytes.now }
{
    let event = Event::Close;
    Some((event, bytes))
}

/// The event of a line, from what follows `at `.
#[inline(never)]
#[tactic(auto, unfolding(crate::specs::Lines::at_line_at))]
fn read_at(bytes: &[u8]) -> Option<(Event, &[u8])>
    ensures { read_view (λ e. e) result ≡ at_line_at bytes.now }
{
    let (tick, rest) = read_field(bytes, b'\n')?;
    let event = Event::TicksTo { tick };
    Some((event, rest))
}

/// The event of a line, from what follows `start-at `.
#[inline(never)]
#[tactic(auto, unfolding(crate::specs::Lines::start_at_line_at))]
fn read_start_at(bytes: &[u8]) -> Option<(Event, &[u8])>
    ensures { read_view (λ e. e) result ≡ start_at_line_at bytes.now }
{
    let (client, rest) = read_field(bytes, b' ')?;
    let (number, rest) = read_field(rest, b' ')?;
    let (deadline, rest) = read_field(rest, b' ')?;
    let (action, rest) = read_field(rest, b'\n')?;
    let event = Event::StartAt {
        client,
        number,
        deadline,
        action,
    };
    Some((event, rest))
}

/// The event of a line, from what follows `restart-at `.
#[inline(never)]
#[tactic(auto, unfolding(crate::specs::Lines::restart_at_line_at))]
fn read_restart_at(bytes: &[u8]) -> Option<(Event, &[u8])>
    ensures { read_view (λ e. e) result ≡ restart_at_line_at bytes.now }
{
    let (client, rest) = read_field(bytes, b' ')?;
    let (number, rest) = read_field(rest, b' ')?;
    let (serial, rest) = read_field(rest, b' ')?;
    let (deadline, rest) = read_field(rest, b' ')?;
    let (action, rest) = read_field(rest, b'\n')?;
    let event = Event::RestartAt {
        client,
        number,
        serial,
        deadline,
        action,
    };
    Some((event, rest))
}

/// The event of a line, from what follows `state\n`.
#[inline(never)]
#[tactic(auto, unfolding(crate::specs::Lines::state_line_at))]
fn read_state(bytes: &[u8]) -> Option<(Event, &[u8])>
    ensures { read_view (λ e. e) result ≡ state_line_at bytes.now }
{
    let event = Event::Dump;
    Some((event, bytes))
}

// by hand
/// The event of a line whose word is read by a call. Inlined as a function of its own, so that the results of its calls
/// take no time in lines of other kinds. With all readers in place, `read_line` would be too large to be inlined.
#[inline(always)]
#[tactic(auto, unfolding(crate::specs::Lines::other_at))]
fn read_other(bytes: &[u8]) -> Option<(Event, &[u8])>
    ensures { read_view (λ e. e) result ≡ other_at bytes.now }
{
    // made by tools/facts: words that are read by calls
    if has_word(bytes, b"tick ") {
        return read_tick(&bytes[5..]);
    }
    if has_word(bytes, b"restart ") {
        return read_restart(&bytes[8..]);
    }
    // by hand
    None
}

/// The event whose line is at the front, and the bytes after the line. Inlined: an event that is returned through
/// memory is read back in other pieces than it was written in, and waits for the writes.
#[inline(always)]
#[tactic(auto, unfolding(crate::specs::Lines::line_at))]
pub fn read_line(bytes: &[u8]) -> Option<(Event, &[u8])>
    ensures { read_view (λ e. e) result ≡ line_at bytes.now }
{
    // made by tools/facts: words that are read in place
    if has_word(bytes, b"start ") {
        return read_start(&bytes[6..]);
    }
    if has_word(bytes, b"stop ") {
        return read_stop(&bytes[5..]);
    }
    if has_word(bytes, b"close\n") {
        return read_close(&bytes[6..]);
    }
    // by hand
    read_other(bytes)
}

/// The event of another line of a stream alone.
#[tactic(auto, unfolding(crate::specs::Lines::other_own_at))]
fn read_other_own(bytes: &[u8]) -> Option<(Event, &[u8])>
    ensures { read_view (λ e. e) result ≡ other_own_at bytes.now }
{
    // made by tools/facts: other words of a stream
    if has_short_word(bytes, b"state\n") {
        return read_state(&bytes[6..]);
    }
    // by hand
    None
}

/// The event of a line of a stream alone.
#[inline(never)]
#[tactic(auto, unfolding(crate::specs::Lines::own_line_at))]
fn read_own_line(bytes: &[u8]) -> Option<(Event, &[u8])>
    ensures { read_view (λ e. e) result ≡ own_line_at bytes.now }
{
    // made by tools/facts: words of a stream
    if has_short_word(bytes, b"at ") {
        return read_at(&bytes[3..]);
    }
    if has_short_word(bytes, b"start-at ") {
        return read_start_at(&bytes[9..]);
    }
    if has_short_word(bytes, b"restart-at ") {
        return read_restart_at(&bytes[11..]);
    }
    // by hand
    read_other_own(bytes)
}

/// The event whose line is at the front of a stream, and the bytes after the line.
#[inline(always)]
#[tactic(auto, using(crate::proofs::LineLemmas::stream_reading))]
pub fn read_stream_line(bytes: &[u8]) -> Option<(Event, &[u8])>
    ensures { read_view (λ e. e) result ≡ stream_at bytes.now }
{
    match read_line(bytes) {
        Some((event, rest)) => Some((event, rest)),
        None => read_own_line(bytes),
    }
}

/// The event whose line is at the front in this grammar, and the bytes after the line.
#[tactic(auto, using(crate::proofs::LineLemmas::stream_reading))]
pub fn read_line_in(grammar: Grammar, bytes: &[u8]) -> Option<(Event, &[u8])>
    ensures { read_view (λ e. e) result ≡ line_in grammar bytes.now }
{
    match grammar {
        Grammar::Script => read_line(bytes),
        Grammar::Stream => read_stream_line(bytes),
    }
}

/// How many bytes at the front belong to one line: all up to the first line feed.
pub fn line_len(bytes: &[u8]) -> usize
    requires some { 0 < length bytes.now }
    ensures some { 0 < result }
    ensures within { result ≤ length bytes.now }
    ensures no_feed { HasNoFeed (take (result - 1) bytes.now) }
    ensures whole { result < length bytes.now → slice_index bytes.now (result - 1) ≡ 10 }
{
    let last = bytes.len() - 1;
    for i in 0..last {
        if bytes[i] == b'\n' {
            return i + 1;
        }
    }
    bytes.len()
}
