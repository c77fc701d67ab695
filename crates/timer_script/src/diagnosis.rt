//! Diagnoses a bad line: where it goes wrong, and what is there.
//!
//! A line is read from its front as long as the bytes can still become the line of an event:
//!
//!     start 0 1 05 7
//!                ^ column 12, in the interval
//!
//! A number goes wrong at the digit with which it leaves its range: `tick 1000001` at its last one.
//!
//! It is proved which bytes have a fault, and that its reason is that of its column and no other (of the two ranges,
//! one). That no earlier byte is at fault, and which of its word's fields is named, is only tested.
ghost use Rattle.std.specs.Prelude.{◌≡◌, ◌↔◌, ◌+◌, ◌<◌, ◌≤◌, ℕ, None, Some, false, IsTrue, IfSome, length, take, slice_index, Option};
ghost use Rattle.timer_base.specs.declared.limits.TheConstants.{LAST};
ghost use Rattle.timer_script.specs.Types.{Grammar};
ghost use Rattle.timer_script.specs.Script.{IsWord};
ghost use Rattle.timer_script.specs.Diagnosis.{IsLine, IsReasonAt, NamesField, IsFaultOf, IsVerdict, IsDigit, IsLetter, IsByteAt, IsByteBefore, AreBytesBefore, IsDigitAt, IsBehind, IsEndOf, IsInNumber};

use crate::line_fault::{Field, LineFault, LineReason};
use crate::lines::{Grammar, MAX_TICKS, read_line_in};
use crate::words::{fields_of, known_len, word_len};
use timer_base::LAST;

/// What is wrong with a line, of which the bytes have the line feed too. Nothing if they are the line
/// of an event.
///
/// Does not allocate.
pub fn fault_in_line(grammar: Grammar, line: &[u8]) -> Option<LineFault>
    ensures { IsVerdict grammar result line.now }
{
    if is_line(grammar, line) {
        None
    } else {
        Some(fault_of_bad(grammar, line))
    }
}

/// Whether the bytes are the line of an event.
#[tactic(auto, using(crate::proofs::DiagnosisLemmas::whole_lines))]
fn is_line(grammar: Grammar, line: &[u8]) -> bool
    ensures line { IsTrue result → IsLine grammar line.now }
    ensures none { result ≡ false → ¬ (IsLine grammar line.now) }
{
    match read_line_in(grammar, line) {
        Some((_, rest)) => rest.is_empty(),
        None => false,
    }
}

/// What is wrong with bytes that are not the line of an event.
#[tactic(auto, using(crate::proofs::DiagnosisLemmas::word_some))]
pub fn fault_of_bad(grammar: Grammar, line: &[u8]) -> LineFault
    ensures { IsFaultOf grammar result line.now }
{
    let word = word_len(line);
    match fields_of(grammar, &line[..word]) {
        Some(fields) => fault_in_fields(grammar, line, word, fields),
        None => fault_in_word(grammar, line),
    }
}

/// A fault at this place of the line, counted from 0.
fn fault_at(
    grammar: Grammar,
    line: &[u8],
    at: usize,
    field: Option<Field>,
    reason: LineReason,
) -> LineFault
    requires within { at ≤ length line.now }
    requires reason { IsReasonAt grammar reason line.now at }
    requires field { NamesField reason field }
    ensures fault { IsFaultOf grammar result line.now }
    ensures column { result.column ≡ at + 1 }
{
    LineFault {
        column: at + 1,
        field,
        reason,
    }
}

/// What is wrong with a line whose word does not begin one: the first byte that begins none.
fn fault_in_word(grammar: Grammar, line: &[u8]) -> LineFault
    requires { (n : ℕ) → AreBytesBefore IsLetter line.now n → ¬ (IsLetter (slice_index line.now n)) → ¬ (IsWord grammar (take n line.now)) }
    ensures { IsFaultOf grammar result line.now }
{
    let at = known_len(grammar, line);
    if at == line.len() {
        return fault_at(grammar, line, at, None, LineReason::NoLineEnd);
    }
    let reason = match line[at] {
        b'\r' => LineReason::CarriageReturn,
        b'\t' => LineReason::Tab,
        b' ' if at == 0 => LineReason::Space,
        b'\n' if at == 0 => LineReason::EmptyLine,
        _ if at == 0 && line.starts_with(b"\xEF\xBB\xBF") => LineReason::ByteOrderMark,
        _ => LineReason::UnknownWord,
    };
    fault_at(grammar, line, at, None, reason)
}

/// What is wrong after a word that begins a line with these fields.
fn fault_in_fields(grammar: Grammar, line: &[u8], word: usize, fields: &[Field]) -> LineFault
    requires { IsEndOf grammar None line.now word }
    ensures { IsFaultOf grammar result line.now }
{
    let mut at = word;
    let mut before = None;
    for field in fields {
        if !is_byte(line, at, b' ') {
            return fault_in_gap(grammar, line, at, before, *field);
        }
        let number = at + 1;
        let len = number_len(&line[number..], *field);
        at = number + len;
        if len == 0 || is_digit_at(line, at) {
            return fault_in_number(grammar, line, at, len, *field);
        }
        before = Some(*field);
    }
    fault_at_end(grammar, line, at, before)
}

/// Whether this byte is at `at`.
fn is_byte(line: &[u8], at: usize, byte: u8) -> bool
    ensures { (IsTrue result) ↔ IsByteAt byte line.now at }
{
    at < line.len() && line[at] == byte
}

/// Whether a digit is at `at`.
fn is_digit_at(line: &[u8], at: usize) -> bool
    ensures { (IsTrue result) ↔ IsDigitAt line.now at }
{
    at < line.len() && line[at] >= b'0' && line[at] <= b'9'
}

/// The least and the greatest number of a field.
fn range_of(field: Field) -> (u64, u64)
    ensures { result.1 ≤ LAST }
{
    match field {
        Field::Count => (1, MAX_TICKS),
        _ => (0, LAST),
    }
}

/// How many bytes at the front begin a number in the range of the field.
fn number_len(bytes: &[u8], field: Field) -> usize
    ensures within { result ≤ length bytes.now }
    ensures digits { AreBytesBefore IsDigit bytes.now result }
{
    let (least, most) = range_of(field);
    let mut value = 0u64;
    let mut len = 0;
    for b in bytes {
        let Some(digit) = char::from(*b).to_digit(10) else {
            break;
        };
        let next = value * 10 + digit as u64;
        let after_zero = len == 1 && value == 0;
        if after_zero || next < least || next > most {
            break;
        }
        value = next;
        len += 1;
    }
    len
}

/// What is wrong if a space and a field should follow.
fn fault_in_gap(
    grammar: Grammar,
    line: &[u8],
    at: usize,
    before: Option<Field>,
    field: Field,
) -> LineFault
    requires end { IsEndOf grammar before line.now at }
    requires no_space { ¬ (IsByteAt 32 line.now at) }
    ensures { IsFaultOf grammar result line.now }
{
    if is_byte(line, at, b'\n') {
        return fault_at(grammar, line, at, Some(field), LineReason::MissingField);
    }
    fault_of_byte(grammar, line, at, before)
}

/// What is wrong within a number, of which `len` digits were read.
fn fault_in_number(grammar: Grammar, line: &[u8], at: usize, len: usize, field: Field) -> LineFault
    requires { IsInNumber line.now at len }
    ensures { IsFaultOf grammar result line.now }
{
    if is_byte(line, at, b'\n') {
        return fault_at(grammar, line, at, Some(field), LineReason::MissingField);
    }
    if is_byte(line, at, b' ') {
        return fault_at(grammar, line, at, None, LineReason::Space);
    }
    if !is_digit_at(line, at) {
        return fault_of_byte(grammar, line, at, Some(field));
    }
    fault_at(
        grammar,
        line,
        at,
        Some(field),
        reason_of_digit(grammar, line, at, len, field),
    )
}

/// Why a digit may not follow `len` others.
#[tactic(auto, using(crate::proofs::DiagnosisLemmas::digit_reasons))]
fn reason_of_digit(grammar: Grammar, line: &[u8], at: usize, len: usize, field: Field) -> LineReason
    requires number { IsInNumber line.now at len }
    requires digit { IsDigitAt line.now at }
    ensures reason { IsReasonAt grammar result line.now at }
    ensures field { NamesField result (Some field) }
{
    if len == 1 && line[at - 1] == b'0' {
        LineReason::LeadingZero
    } else if field == Field::Count {
        LineReason::OutOfTicks
    } else {
        LineReason::OutOfRange
    }
}

/// What is wrong if the line should end.
fn fault_at_end(grammar: Grammar, line: &[u8], at: usize, before: Option<Field>) -> LineFault
    requires { IsEndOf grammar before line.now at }
    ensures { IsFaultOf grammar result line.now }
{
    if is_byte(line, at, b' ') {
        let next = at + 1;
        let ends = next == line.len() || line[next] == b'\n' || line[next] == b'\r';
        let reason = if ends {
            LineReason::Space
        } else {
            LineReason::TooManyFields
        };
        return fault_at(grammar, line, at, None, reason);
    }
    if is_byte(line, at, b'\n') {
        return fault_after_feed(grammar, line, at + 1);
    }
    fault_of_byte(grammar, line, at, before)
}

/// What is wrong after a line feed that ends a line. The line of an event, which ends there, is not diagnosed.
fn fault_after_feed(grammar: Grammar, line: &[u8], at: usize) -> LineFault
    requires { (at ≤ length line.now) × IsByteBefore 10 line.now at }
    ensures { IsFaultOf grammar result line.now }
{
    let reason = if at < line.len() {
        LineReason::TooManyFields
    } else {
        LineReason::NoLineEnd
    };
    fault_at(grammar, line, at, None, reason)
}

/// What is wrong with a byte that is in no line, or may not follow this field or the word.
fn fault_of_byte(grammar: Grammar, line: &[u8], at: usize, before: Option<Field>) -> LineFault
    requires within { (1 ≤ at) × (at ≤ length line.now) }
    requires behind { IsBehind grammar before line.now at }
    requires other { ¬ (IsByteAt 10 line.now at) × ¬ (IsByteAt 32 line.now at) }
    ensures { IsFaultOf grammar result line.now }
{
    if at == line.len() {
        return fault_at(grammar, line, at, None, LineReason::NoLineEnd);
    }
    if is_byte(line, at, b'\r') {
        return fault_at(grammar, line, at, None, LineReason::CarriageReturn);
    }
    if is_byte(line, at, b'\t') {
        return fault_at(grammar, line, at, None, LineReason::Tab);
    }
    if before.is_none() || is_digit_at(line, at) {
        return fault_at(grammar, line, at, None, LineReason::UnknownWord);
    }
    fault_at(grammar, line, at, before, LineReason::NotANumber)
}
