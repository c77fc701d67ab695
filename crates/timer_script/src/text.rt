//! The text that answers a script: a line for each out, and the end line.
//!
//!     started CLIENT NUMBER SERIAL DEADLINE     the client's request NUMBER started a timer
//!     stopped CLIENT NUMBER SERIAL              the client's request NUMBER stopped a timer
//!     restarted CLIENT NUMBER OLD SERIAL DEADLINE
//!                                               the request stopped the timer OLD and started another
//!     refused CLIENT NUMBER REASON              the request was refused, or not taken
//!     expired TICK CLIENT SERIAL ACTION         a timer expired at its deadline
//!     closed COUNT                              the close returns this many timers
//!     returned CLIENT SERIAL DEADLINE ACTION    a timer was returned by the close
//!     tick refused REASON                       a tick was refused
//!     close refused closed                      the facility had been closed before
//!     state open NOW SERIALS                    the state: the tick, and how many serials were used
//!     state closed NOW SERIALS                  the same of a closed facility
//!     number CLIENT NUMBERS                     how many request numbers a client has used
//!     timer SERIAL CLIENT NUMBER DEADLINE ACTION
//!                                               a pending timer
//!     state end PENDING                         the last line of the state
//!     end NOW PENDING                           the tick and the number of pending timers at the end
//!
//! The text is built in one `Vec`, with no formatting machinery for each line.
ghost use Rattle.std.specs.Prelude.{◌≡◌, ◌≤◌, ◌+◌, ◌∷◌, [], ◌++◌, length, drop, IfOk, OnOk, codes, decimal};
ghost use Rattle.timer_script.specs.declared.text.TheConstants.{MAX_NUMBERS, MAX_DIGITS, MAX_WORD};
ghost use Rattle.std.specs.List.{flat_map};
ghost use Rattle.timer_script.specs.Decorator.{HasGrown};
ghost use Rattle.timer_script.specs.Text.{numbers, reason_word, refusal_word, fault_word, state_line, out_line, end_line, text};

use itoa::write_digits;
use std::alloc::Global;
use timer_base::OutOfMemory;
use timer_facility::{Answer, NotTaken, Notice, Out, Reason, StateLine, TickFault};

/// The word for a refusal of a request that was taken.
fn reason_of(reason: Reason) -> &'static [u8]
    ensures { result.now ≡ reason_word reason }
{
    match reason {
        // made by tools/facts: words of refusals
        Reason::ZeroInterval => b"zero-interval",
        Reason::TooLate => b"too-late",
        Reason::SerialsSpent => b"serials-spent",
        Reason::Full => b"full",
        Reason::NoSuch => b"no-such",
    }
}

/// The word for a request that was not taken.
fn refusal_of(reason: NotTaken) -> &'static [u8]
    ensures { result.now ≡ refusal_word reason }
{
    match reason {
        // made by tools/facts: words of requests that are not taken
        NotTaken::Closed => b"closed",
        NotTaken::NoClient => b"no-client",
        NotTaken::Repeated { .. } => b"repeated",
        NotTaken::NumbersSpent => b"numbers-spent",
        NotTaken::Ahead { .. } => b"ahead",
        // by hand: a request that ran out of memory is repeated, and no script sees this
        NotTaken::OutOfMemory => b"out-of-memory",
    }
}

/// The word for a refused tick.
fn tick_refusal_of(fault: TickFault) -> &'static [u8]
    ensures { result.now ≡ fault_word fault }
{
    match fault {
        // made by tools/facts: words of refused ticks
        TickFault::Closed => b"closed",
        TickFault::ClockEnd => b"clock-end",
    }
}

/// The most numbers of a line.
const MAX_NUMBERS: usize = 5;

/// The most bytes of a number and the space before it.
const MAX_DIGITS: usize = 21;

/// The most bytes of a line's first word.
const MAX_WORD: usize = 12;

/// The most bytes of a line's first word, its numbers and the byte after them.
const ROOM: usize = 118;

/// Writes a space and a number so that they end at `end`, and returns where they start.
#[inline(always)]
#[tactic(auto, using(crate::proofs::TextLemmas::spaced_decimal))]
fn put_number(n: u64, buffer: &mut [u8], end: usize) -> usize
    requires { (MAX_DIGITS ≤ end) × (end ≤ length buffer.old) }
    ensures written { drop result buffer.new ≡ 32 ∷ decimal n ++ drop end buffer.old }
    ensures room { end ≤ result + MAX_DIGITS }
    ensures within { result ≤ end }
    ensures same { length buffer.new ≡ length buffer.old }
{
    let at = write_digits(n, buffer, end) - 1;
    buffer[at] = b' ';
    at
}

/// Writes a word so that it ends at `end`, and returns where it starts.
#[inline(always)]
fn put_word(word: &[u8], buffer: &mut [u8], end: usize) -> usize
    requires { (length word.now ≤ end) × (end ≤ length buffer.old) }
    ensures written { drop result buffer.new ≡ word.now ++ drop end buffer.old }
    ensures within { result ≤ end }
    ensures same { length buffer.new ≡ length buffer.old }
{
    let at = end - word.len();
    buffer[at..end].copy_from_slice(word);
    at
}

/// Writes a word, numbers, each after a space, and the byte that follows them: from the last to the first into a piece
/// of memory, which is then copied at once. Inlined, so that the word's length and the numbers' places are known.
#[inline(always)]
fn push_words(out: &mut Vec<u8>, word: &[u8], all: &[u64], last: u8) -> Result<(), OutOfMemory>
    requires { (length word.now ≤ MAX_WORD) × (length all.now ≤ MAX_NUMBERS) }
    ensures text { OnOk result (out.new.items ≡ out.old.items ++ word.now ++ numbers all.now ++ last ∷ []) }
    ensures kept { HasGrown out.old.items out.new.items }
{
    let mut buffer = [0u8; ROOM];
    let mut at = ROOM - 1;
    buffer[at] = last;
    let mut i = all.len();
    while i > 0 {
        i -= 1;
        at = put_number(all[i], &mut buffer, at);
    }
    at = put_word(word, &mut buffer, at);
    out.extend_from_slice(&buffer[at..])?;
    Ok(())
}

/// Writes a word and numbers as a line.
#[inline(always)]
fn push_line(out: &mut Vec<u8>, word: &[u8], all: &[u64]) -> Result<(), OutOfMemory>
    requires { (length word.now ≤ MAX_WORD) × (length all.now ≤ MAX_NUMBERS) }
    ensures text { OnOk result (out.new.items ≡ out.old.items ++ word.now ++ numbers all.now ++ codes "\n") }
    ensures kept { HasGrown out.old.items out.new.items }
{
    push_words(out, word, all, b'\n')
}

/// Writes a word, numbers and a reason as a line.
#[inline(never)]
fn push_refused(
    out: &mut Vec<u8>,
    word: &[u8],
    all: &[u64],
    reason: &[u8],
) -> Result<(), OutOfMemory>
    requires { (length word.now ≤ MAX_WORD) × (length all.now ≤ MAX_NUMBERS) }
    ensures text { OnOk result (out.new.items ≡ out.old.items ++ word.now ++ numbers all.now ++ codes " "
        ++ reason.now ++ codes "\n") }
    ensures kept { HasGrown out.old.items out.new.items }
{
    push_words(out, word, all, b' ')?;
    out.extend_from_slice(reason)?;
    out.push(b'\n')?;
    Ok(())
}

/// Writes the answer to a client's request as its line.
///
/// Answers and outs are read in place, field by field. A copy would be read in other pieces than the out was
/// written in, and such a read waits for the writes.
#[inline(always)]
fn push_answer(
    text: &mut Vec<u8>,
    client: u64,
    number: u64,
    answer: &Answer,
) -> Result<(), OutOfMemory>
    ensures text { OnOk result (text.new.items
        ≡ text.old.items ++ out_line (Out.Answered client number answer.now)) }
    ensures kept { HasGrown text.old.items text.new.items }
{
    match answer {
        Answer::Started { handle, deadline } => push_line(
            text,
            b"started",
            &[client, number, handle.serial, *deadline],
        ),
        Answer::Stopped { serial } => push_line(text, b"stopped", &[client, number, *serial]),
        Answer::Restarted {
            handle,
            deadline,
            old,
        } => push_line(
            text,
            b"restarted",
            &[client, number, *old, handle.serial, *deadline],
        ),
        Answer::Refused(reason) => {
            push_refused(text, b"refused", &[client, number], reason_of(*reason))
        }
    }
}

/// Writes one line of a dump. Of serials and of request numbers it says how many were used.
#[inline(never)]
pub fn push_state_line(text: &mut Vec<u8>, line: &StateLine) -> Result<(), OutOfMemory>
    ensures text { OnOk result (text.new.items ≡ text.old.items ++ state_line line.now) }
    ensures kept { HasGrown text.old.items text.new.items }
{
    match line {
        StateLine::Open { now, next_serial } => push_line(
            text,
            b"state open",
            &[*now, next_serial.saturating_sub(1)],
        ),
        StateLine::Closed { now, next_serial } => push_line(
            text,
            b"state closed",
            &[*now, next_serial.saturating_sub(1)],
        ),
        StateLine::Number { client, next } => push_line(
            text,
            b"number",
            &[*client, next.saturating_sub(1)],
        ),
        StateLine::Pending(t) => push_line(
            text,
            b"timer",
            &[t.serial, t.client, t.number, t.deadline, t.action],
        ),
        StateLine::End { pending } => push_line(text, b"state end", &[*pending]),
    }
}

/// Writes one out as its line. Inlined, so that an out of which the kind is known need not be in memory.
#[inline(always)]
pub fn push_out(text: &mut Vec<u8>, out: &Out) -> Result<(), OutOfMemory>
    ensures text { OnOk result (text.new.items ≡ text.old.items ++ out_line out.now) }
    ensures kept { HasGrown text.old.items text.new.items }
{
    match out {
        Out::Answered {
            client,
            number,
            answer,
        } => push_answer(text, *client, *number, answer),
        Out::NotTaken {
            client,
            number,
            reason,
        } => push_refused(text, b"refused", &[*client, *number], refusal_of(*reason)),
        Out::Notice(Notice::Expired(t)) => push_line(
            text,
            b"expired",
            &[t.deadline, t.client, t.serial, t.action],
        ),
        Out::Notice(Notice::Returned(t)) => push_line(
            text,
            b"returned",
            &[t.client, t.serial, t.deadline, t.action],
        ),
        Out::TickRefused(fault) => push_refused(
            text,
            b"tick refused",
            &[],
            tick_refusal_of(*fault),
        ),
        Out::Closed { count } => push_line(text, b"closed", &[*count]),
        Out::CloseRefused => {
            text.extend_from_slice(b"close refused closed\n")?;
            Ok(())
        }
        Out::Dumped(line) => push_state_line(text, line),
    }
}

/// Writes each out as its line.
pub fn push_outs(text: &mut Vec<u8>, outs: &[Out]) -> Result<(), OutOfMemory>
    ensures text { OnOk result (text.new.items ≡ text.old.items ++ flat_map out_line outs.now) }
    ensures kept { HasGrown text.old.items text.new.items }
{
    for out in outs {
        push_out(text, out)?;
    }
    Ok(())
}

/// Writes the end line, with this tick and this number of pending timers.
pub fn push_end(text: &mut Vec<u8>, now: u64, pending: u64) -> Result<(), OutOfMemory>
    ensures { OnOk result (text.new.items ≡ text.old.items ++ end_line now pending) }
{
    push_line(text, b"end", &[now, pending])
}

/// The lines of the outs, in their order, and the end line with this tick and this number of pending
/// timers. Each out has a text, also `NotTaken::OutOfMemory`, which a player never returns.
///
/// Fails only if memory runs out. Only the text is allocated: it grows with the lines.
pub fn text_of(alloc: Global, outs: &[Out], now: u64, pending: u64) -> Result<Vec<u8>, OutOfMemory>
    ensures { IfOk result (λ bytes. bytes.items ≡ text outs.now now pending) }
{
    let mut bytes = Vec::new(alloc);
    push_outs(&mut bytes, outs)?;
    push_end(&mut bytes, now, pending)?;
    Ok(bytes)
}
