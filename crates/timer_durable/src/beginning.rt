//! How the text of a journal begins: what it is a journal of, how many lines and answers came before, and the state there.
//!
//!     timers-journal 1 hier 64 1048576 256     the options of the server, which stand for its wheel and its limits
//!     begins 20 31 54                          20 lines and 31 answers came before; the state has 54 bytes
//!     state open 7 2                           the state: the text of a dump
//!     number 0 2
//!     ..
//!     start 0 3 130 7                          from here on the lines of the stream, as they came
ghost use Rattle.std.specs.Prelude.{◌≡◌, ◌≢◌, ◌≤◌, ◌<◌, ◌++◌, ◌∷◌, ℕ, List, length, take, codes, decimal, slice_index, true, IfOk, IfErr, IfSome, IfNone, OnOk, IsErrOf};
ghost use Rattle.timer_durable.specs.Types.{LAST};
ghost use Rattle.timer_durable.specs.Beginning.{preamble_of, first_line, text_kept, counts_line, IsCounted, IsWithout, MatchFound, WhyNotKept, is_of_preamble};
ghost use Rattle.timer_journal.specs.declared.fault.JournalFault.TheVariants.{TooLong};

use crate::fault::BeginFault;
use itoa::Buffer;
use std::alloc::Global;
use std::str;
use timer_base::LAST;
use timer_journal::JournalFault;

/// How many lines of the stream, and how many answers, there were before a journal begins.
#[derive(Clone, Copy, Debug, PartialEq, Eq)]
pub struct Beginning {
    pub lines: u64,
    pub answers: u64,
}

/// What a journal keeps that has begun.
#[derive(Debug, PartialEq, Eq, Drop)]
pub struct Kept {
    pub beginning: Beginning,
    /// The text of the state at the beginning.
    pub state: Vec<u8>,
    /// The lines since.
    pub lines: Vec<u8>,
}

/// The text that a journal begins with. A state of more than `LAST` bytes is refused as too long.
#[tactic(auto, unfolding(crate::specs::Beginning::preamble_of, crate::specs::Beginning::first_line, crate::specs::Beginning::counts_line))]
pub fn preamble(
    alloc: Global,
    options: &[u8],
    beginning: Beginning,
    state: &[u8],
) -> Result<Vec<u8>, JournalFault>
    ensures text { IfOk result (λ text. text.items ≡ preamble_of options.now beginning state.now) }
    ensures small { OnOk result (length state.now ≤ LAST) }
    ensures too_long { IsErrOf result TooLong → LAST < length state.now }
    ensures only { IfErr result (λ fault. is_of_preamble fault ≡ true) }
{
    if state.len() as u64 > LAST {
        return Err(JournalFault::TooLong);
    }
    let mut number = Buffer::new();
    let mut text = Vec::from_slice(alloc, b"timers-journal 1 ")?;
    text.extend_from_slice(options)?;
    text.extend_from_slice(b"\nbegins ")?;
    text.extend_from_slice(number.format(beginning.lines).as_bytes())?;
    text.extend_from_slice(b" ")?;
    text.extend_from_slice(number.format(beginning.answers).as_bytes())?;
    text.extend_from_slice(b" ")?;
    text.extend_from_slice(number.format(state.len()).as_bytes())?;
    text.extend_from_slice(b"\n")?;
    text.extend_from_slice(state)?;
    Ok(text)
}

/// How many bytes come before the first of this one, or all.
fn len_before(bytes: &[u8], end: u8) -> usize
    ensures within { result ≤ length bytes.now }
    ensures before { IsWithout end (take result bytes.now) }
    ensures at { result < length bytes.now → slice_index bytes.now result ≡ end }
{
    for i in 0..bytes.len() {
        if bytes[i] == end {
            return i;
        }
    }
    bytes.len()
}

/// What follows this front, if the bytes begin with it.
fn after<'a>(bytes: &'a [u8], front: &[u8]) -> Option<&'a [u8]>
    ensures some { IfSome result (λ rest. bytes.now ≡ front.now ++ rest.now) }
    ensures none { IfNone result ((rest : List ℕ) → bytes.now ≢ front.now ++ rest) }
{
    if bytes.starts_with(front) {
        Some(&bytes[front.len()..])
    } else {
        None
    }
}

/// The number that these bytes spell. It is at most `LAST`, and has one spelling.
fn number_in(bytes: &[u8]) -> Option<u64>
    ensures some { IfSome result (λ n. (n ≤ LAST) × (bytes.now ≡ decimal n)) }
    ensures none { IfNone result ((n : ℕ) → n ≤ LAST → bytes.now ≢ decimal n) }
{
    let Ok(digits) = str::from_utf8(bytes) else {
        return None;
    };
    let Ok(number) = digits.parse::<u64>() else {
        return None;
    };
    let mut buffer = Buffer::new();
    if number > LAST || buffer.format(number).as_bytes() != bytes {
        return None;
    }
    Some(number)
}

/// The number before the first of this byte, and what follows it.
fn read_number(bytes: &[u8], end: u8) -> Option<(u64, &[u8])>
    requires { end < 48 }
    ensures some { IfSome result (λ read. (read.0 ≤ LAST) × (bytes.now ≡ decimal read.0 ++ end ∷ read.1.now)) }
    ensures none { IfNone result ((n : ℕ) (rest : List ℕ) → n ≤ LAST → bytes.now ≢ decimal n ++ end ∷ rest) }
{
    let len = len_before(bytes, end);
    if len == bytes.len() {
        return None;
    }
    let Some(number) = number_in(&bytes[..len]) else {
        return None;
    };
    Some((number, &bytes[len + 1..]))
}

/// The counts of the line `begins`, the length of the state, and what follows the line.
#[tactic(auto, unfolding(crate::specs::Beginning::counts_line))]
fn read_counts(bytes: &[u8]) -> Option<(Beginning, u64, &[u8])>
    ensures some { IfSome result (λ read. IsCounted read.0 × (read.1 ≤ LAST)
        × (bytes.now ≡ counts_line read.0 read.1 ++ read.2.now)) }
    ensures none { IfNone result ((b : Beginning) (len : ℕ) (rest : List ℕ) → IsCounted b → len ≤ LAST
        → bytes.now ≢ counts_line b len ++ rest) }
{
    let rest = after(bytes, b"begins ")?;
    let (lines, rest) = read_number(rest, b' ')?;
    let (answers, rest) = read_number(rest, b' ')?;
    let (len, rest) = read_number(rest, b'\n')?;
    Some((Beginning { lines, answers }, len, rest))
}

/// The first line of a journal with other options, behind the word and the version.
fn other_options(alloc: Global, rest: &[u8]) -> BeginFault
    ensures { MatchFound result rest.now }
{
    match Vec::from_slice(alloc, &rest[..len_before(rest, b'\n')]) {
        Ok(found) => BeginFault::OtherOptions { found },
        Err(fault) => fault.into(),
    }
}

/// What follows the first line, if it is that of a journal with these options.
#[tactic(auto, unfolding(crate::specs::Beginning::first_line))]
fn after_first_line<'a>(
    alloc: Global,
    text: &'a [u8],
    options: &[u8],
) -> Result<&'a [u8], BeginFault>
    requires { 0 < length text.now }
    ensures ok { IfOk result (λ rest. text.now ≡ first_line options.now ++ rest.now) }
    ensures fault { IfErr result (WhyNotKept options.now text.now) }
{
    let Some(rest) = after(text, b"timers-journal ") else {
        return Err(BeginFault::NoJournal);
    };
    let Some(rest) = after(rest, b"1 ") else {
        return Err(BeginFault::OtherVersion);
    };
    if let Some(behind) = after(rest, options) {
        if let Some(behind) = after(behind, b"\n") {
            return Ok(behind);
        }
    }
    Err(other_options(alloc, rest))
}

/// What a journal keeps by its text: nothing, if it has not begun. The text is refused if it is not that of a journal
/// with these options.
pub fn read_kept(alloc: Global, text: &[u8], options: &[u8]) -> Result<Option<Kept>, BeginFault>
    ensures ok { IfOk result (λ kept. text.now ≡ text_kept options.now kept) }
    ensures counted { IfOk result (λ kept. IfSome kept (λ k. IsCounted k.beginning)) }
    ensures fault { IfErr result (WhyNotKept options.now text.now) }
{
    if text.is_empty() {
        return Ok(None);
    }
    let rest = after_first_line(alloc, text, options)?;
    let Some((beginning, len, rest)) = read_counts(rest) else {
        return Err(BeginFault::NoBeginning);
    };
    if len > rest.len() as u64 {
        return Err(BeginFault::NoBeginning);
    }
    let (state, lines) = rest.split_at(len as usize);
    Ok(Some(Kept {
        beginning,
        state: Vec::from_slice(alloc, state)?,
        lines: Vec::from_slice(alloc, lines)?,
    }))
}
