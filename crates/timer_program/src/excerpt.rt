//! What is wrong with a line of a file, for the report of an error. The file is read again, as far as that line, since
//! `play`, `serve` and `show` keep no line that they read.
use std::alloc::{AllocError, Global};
use std::io::{Read, Seek};
use timer_script::{Grammar, LineFault, LineReason, fault_in_line};

/// How many bytes are read at a time.
const PIECE: usize = 4096;

/// The most bytes of a line that are kept. The error of a longer line is in its front.
const MOST_KEPT: usize = 1024;

/// The most bytes of a field that are shown, on either side of the error.
const MOST_SHOWN: usize = 20;

/// The front of the line with this number, counted from 1. None if the file can't be read a second time, as a pipe, or
/// if memory runs out.
pub fn read_line_again<O: Read + Seek>(alloc: Global, file: &mut O, line: u64) -> Option<Vec<u8>> {
    if file.rewind().is_err() {
        return None;
    }
    let mut piece = [0u8; PIECE];
    let mut kept = Vec::new(alloc);
    let mut number = 1u64;
    for _ in 0..u64::MAX {
        let Ok(n) = file.read(&mut piece) else {
            return None;
        };
        for byte in &piece[..n] {
            if number == line && kept.len() < MOST_KEPT && kept.push(*byte).is_err() {
                return None;
            }
            if *byte == b'\n' {
                number = number.saturating_add(1);
            }
        }
        if n == 0 || number > line {
            return Some(kept);
        }
    }
    None
}

/// What is wrong with a line: the field, the reason, and what is there if it can be shown. None if memory runs out.
pub fn reason_of(alloc: Global, grammar: Grammar, line: &[u8]) -> Option<Vec<u8>> {
    // Who wrote to the file in the meantime may have made the line good.
    let fault = fault_in_line(grammar, line)?;
    let mut reason = Vec::new(alloc);
    if push_reason(&mut reason, fault).is_err() || push_field(&mut reason, line, fault).is_err() {
        return None;
    }
    Some(reason)
}

/// Appends the field and the reason.
fn push_reason(text: &mut Vec<u8>, fault: LineFault) -> Result<(), AllocError> {
    if let Some(field) = fault.field {
        text.extend_from_slice(field.words().as_bytes())?;
        text.extend_from_slice(b": ")?;
    }
    text.extend_from_slice(fault.reason.words().as_bytes())?;
    Ok(())
}

/// Appends the bytes between spaces that are at fault, in quotes. None are if a field is missing, or there is one too many.
fn push_field(text: &mut Vec<u8>, line: &[u8], fault: LineFault) -> Result<(), AllocError> {
    let (before, after) = line.split_at(fault.column.saturating_sub(1).min(line.len()));
    let front = behind_spaces(before);
    let rest = before_space(after);
    if rest.is_empty() && fault.reason != LineReason::UnknownWord {
        return Ok(());
    }
    if is_shown(front) && is_shown(rest) && !(front.is_empty() && rest.is_empty()) {
        text.extend_from_slice(b" '")?;
        text.extend_from_slice(front)?;
        text.extend_from_slice(rest)?;
        text.extend_from_slice(b"'")?;
    }
    Ok(())
}

/// What follows the last space, or byte below that.
fn behind_spaces(bytes: &[u8]) -> &[u8] {
    let mut found = bytes;
    for i in 0..bytes.len() {
        if bytes[i] <= b' ' {
            found = &bytes[i + 1..];
        }
    }
    found
}

/// What is before the first space, or byte below that.
fn before_space(bytes: &[u8]) -> &[u8] {
    for i in 0..bytes.len() {
        if bytes[i] <= b' ' {
            return &bytes[..i];
        }
    }
    bytes
}

/// Whether the bytes are a few letters, digits and signs, so that they can be shown at any terminal.
fn is_shown(bytes: &[u8]) -> bool {
    bytes.len() <= MOST_SHOWN && bytes.iter().all(|b| b.is_ascii_graphic())
}
