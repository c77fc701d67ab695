//! The answers to the lines that were recovered. They were written before the crash, so they are swallowed, but
//! for those that the caller has not seen. A line that says when to wake up is none: how many there are depends on how
//! the lines came.
ghost use Rattle.std.specs.Prelude.{true, ◌≡◌, ◌≤◌, ◌<◌, ◌+◌, ◌-◌, ◌++◌, List, ℕ, codes, decimal, ◌==◌, if◌then◌else◌, None, Some, IfOk, IfErr, IfSome, IfNone, OnErr, OnOk};
ghost use Rattle.timer_durable.specs.Answers.{lines_in, counted as counted_on, answers_of, answers_in, answered as answered_on, begun_in, first_at, after_lines as text_after, unseen_of, IsSeenWithin, IsFaultInSeen, WhyNotGreeted};
ghost use Rattle.timer_durable.specs.Durable.{IsCounting};
ghost use Rattle.timer_durable.specs.Types.{LAST};

use crate::beginning::Beginning;
use crate::fault::KeepFault;
use itoa::Buffer;
use std::alloc::{AllocError, Global};
use timer_base::LAST;

/// The first byte of a line that says when to wake up, and of no other that a server writes.
const WAKEUP: u8 = b'w';

/// How many lines end in a text.
fn count_lines(text: &[u8]) -> usize
    ensures { result ≡ lines_in text.now }
{
    let mut count = 0;
    for byte in text {
        if *byte == b'\n' {
            count += 1;
        }
    }
    count
}

/// A count that goes on with the lines of a text. It stays at its greatest value.
pub fn counted(count: u64, text: &[u8]) -> u64
    ensures { result ≡ counted_on count text.now }
{
    count.saturating_add(count_lines(text) as u64)
}

/// The same, if there are snapshots, which are the only ones to need it once the lines that were recovered are played.
pub fn counted_if(every: Option<u64>, count: u64, text: &[u8]) -> u64
    ensures { IsCounting true every → result ≡ counted_on count text.now }
{
    match every {
        Some(_) => counted(count, text),
        None => count,
    }
}

/// The first byte of a byte's line. That of the line before it is `begun`, if its end has not come.
#[inline(always)]
fn first_byte(begun: Option<u8>, byte: u8) -> u8
    ensures { result ≡ first_at begun byte }
{
    match begun {
        Some(first) => first,
        None => byte,
    }
}

/// The first byte of the line that a text ends with, if its end has not come. The last byte and its line are these.
#[inline(always)]
fn begun_behind(first: u8, byte: u8) -> Option<u8>
    ensures { result ≡ (if byte == 10 then None else Some first) }
{
    if byte == b'\n' { None } else { Some(first) }
}

/// How many answers end in a text, and the first byte of the line that it ends with, if its end has not come. That of
/// the line before the text is `begun`, likewise.
fn count_answers(begun: Option<u8>, text: &[u8]) -> (usize, Option<u8>)
    ensures count { (before : List ℕ) → begun ≡ begun_in before → answers_in (before ++ text.now) ≡ answers_in before + result.0 }
    ensures begun { (before : List ℕ) → begun ≡ begun_in before → result.1 ≡ begun_in (before ++ text.now) }
{
    let mut count = 0;
    let mut line = begun;
    for byte in text {
        let first = first_byte(line, *byte);
        line = begun_behind(first, *byte);
        if first == WAKEUP {
            continue;
        }
        if *byte == b'\n' {
            count += 1;
        }
    }
    (count, line)
}

/// A count of answers that goes on with those of a text. It stays at its greatest value. `begun` is as in `count_answers`.
pub fn answered(count: u64, begun: Option<u8>, text: &[u8]) -> (u64, Option<u8>)
    ensures count { (start : ℕ) (before : List ℕ) → begun ≡ begun_in before → count ≡ answered_on start before
        → result.0 ≡ answered_on start (before ++ text.now) }
    ensures begun { (before : List ℕ) → begun ≡ begun_in before → result.1 ≡ begun_in (before ++ text.now) }
{
    let (ended, begun) = count_answers(begun, text);
    (count.saturating_add(ended as u64), begun)
}

/// The same, if there are snapshots.
pub fn answered_if(
    every: Option<u64>,
    count: u64,
    begun: Option<u8>,
    text: &[u8],
) -> (u64, Option<u8>)
    ensures count { IsCounting true every → (start : ℕ) (before : List ℕ) → begun ≡ begun_in before
        → count ≡ answered_on start before → result.0 ≡ answered_on start (before ++ text.now) }
    ensures begun { IsCounting true every → (before : List ℕ) → begun ≡ begun_in before → result.1 ≡ begun_in (before ++ text.now) }
{
    match every {
        Some(_) => answered(count, begun, text),
        None => (count, begun),
    }
}

/// How many lines are left after this byte.
#[inline(always)]
fn lines_left(left: u64, byte: u8) -> u64
    requires { 0 < left }
    ensures { result ≡ (if byte == 10 then left - 1 else left) }
{
    if byte == b'\n' { left - 1 } else { left }
}

/// Appends the answers of a text that come after so many of them. `begun` is as in `count_answers`.
fn push_answers(
    to: &mut Vec<u8>,
    skipped: u64,
    begun: Option<u8>,
    text: &[u8],
) -> Result<(), AllocError>
    ensures ok { OnOk result ((before : List ℕ) → begun ≡ begun_in before → (seen : ℕ) → skipped ≡ seen - answers_in before
        → to.old.items ≡ text_after seen (answers_of before) → to.new.items ≡ text_after seen (answers_of (before ++ text.now))) }
    ensures kept { OnErr result (to.new.items ≡ to.old.items) }
{
    let whole = to.len();
    let mut left = skipped;
    let mut line = begun;
    for byte in text {
        let first = first_byte(line, *byte);
        line = begun_behind(first, *byte);
        if first == WAKEUP {
            continue;
        }
        if left > 0 {
            left = lines_left(left, *byte);
            continue;
        }
        if to.push(*byte).is_err() {
            to.truncate(whole);
            return Err(AllocError);
        }
    }
    Ok(())
}

/// Appends the answers of a text that the caller has not seen, if there were so many answers before. `begun` is as in
/// `count_answers`.
pub fn push_unseen(
    unseen: &mut Vec<u8>,
    seen: Option<u64>,
    answers: u64,
    begun: Option<u8>,
    text: &[u8],
) -> Result<(), AllocError>
    ensures ok { OnOk result ((start : ℕ) (before : List ℕ) → begun ≡ begun_in before → answers ≡ answered_on start before
        → unseen.old.items ≡ unseen_of start seen before → unseen.new.items ≡ unseen_of start seen (before ++ text.now)) }
    ensures kept { OnErr result (unseen.new.items ≡ unseen.old.items) }
{
    match seen {
        Some(seen) => push_answers(unseen, seen.saturating_sub(answers), begun, text),
        None => Ok(()),
    }
}

/// Why the caller can't be told the answers that it has not seen: so many came before the journal's beginning, and there
/// were so many in all.
fn fault_in_seen(seen: Option<u64>, before: u64, answers: u64) -> Option<KeepFault>
    ensures none { IfNone result (IsSeenWithin seen before answers) }
    ensures some { IfSome result (λ fault. IsFaultInSeen seen before answers fault) }
{
    let seen = seen?;
    if seen < before {
        return Some(KeepFault::AnswersGone { before });
    }
    if seen > answers {
        return Some(KeepFault::FewAnswers { answers });
    }
    None
}

/// The line that says how much was recovered, and the answers that the caller has not seen. So many answers came before
/// the journal's beginning.
pub fn greeting(
    alloc: Global,
    so_far: Beginning,
    before: u64,
    seen: Option<u64>,
    unseen: &[u8],
) -> Result<Vec<u8>, KeepFault>
    ensures text { IfOk result (λ text. text.items ≡ codes "recovered " ++ decimal so_far.lines ++ codes " "
        ++ decimal so_far.answers ++ codes "\n" ++ unseen.now) }
    ensures counted { OnOk result ((so_far.lines ≤ LAST) × (so_far.answers ≤ LAST)) }
    ensures seen { OnOk result (IsSeenWithin seen before so_far.answers) }
    ensures fault { IfErr result (WhyNotGreeted seen before so_far) }
{
    if so_far.lines > LAST || so_far.answers > LAST {
        return Err(KeepFault::TooMany);
    }
    if let Some(fault) = fault_in_seen(seen, before, so_far.answers) {
        return Err(fault);
    }
    let mut number = Buffer::new();
    let mut text = Vec::from_slice(alloc, b"recovered ")?;
    text.extend_from_slice(number.format(so_far.lines).as_bytes())?;
    text.extend_from_slice(b" ")?;
    text.extend_from_slice(number.format(so_far.answers).as_bytes())?;
    text.extend_from_slice(b"\n")?;
    text.extend_from_slice(unseen)?;
    Ok(text)
}
