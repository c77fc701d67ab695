//! Groups as bytes.
//!
//!     group   gate  length  checksum  lines          a gate is a byte, the numbers have 8, high first
//!     file    group group .. closed gate
//!
//! An open gate counts, a closed one does not. The closed gate behind the last group is on the disk before
//! anything is written behind it, and is opened by a write of its own, so no checksum has to tell a torn
//! group from a whole one. The checksum is for damage.
ghost use Rattle.std.specs.Prelude.{◌≡◌, ◌≤◌, ◌+◌, ◌++◌, ◌∷◌, [], length, take, drop, true, false, IfOk, Some, None, MatchOption};
ghost use Rattle.std.specs.Int.{w64, from_be_bytes};
ghost use Rattle.std.specs.List.{concat};
ghost use Rattle.timer_journal.specs.Format.{checksum as checksum_of, checksum_from, blocks, file_of, body_of, first_group as group_at, is_whole, stated_length, stated_lines, groups_of, tail_of, is_torn_end as may_be_torn, is_foreign as is_foreign_file};

use std::alloc::{AllocError, Global};

pub const OPEN: u8 = 6;

pub const CLOSED: u8 = 21;

/// Bytes of the length and the checksum.
const HEAD: usize = 16;

const FACTOR: u64 = 1_099_511_628_211;

/// The checksum goes on with a byte.
#[inline(always)]
fn with_byte(sum: u64, byte: u8) -> u64
    ensures { result ≡ checksum_from sum (byte ∷ []) }
{
    sum.wrapping_add(u64::from(byte)).wrapping_mul(FACTOR)
}

/// The checksum goes on with four bytes.
#[inline(always)]
fn with_four(sum: u64, a: u8, b: u8, c: u8, d: u8) -> u64
    ensures { result ≡ checksum_from sum (a ∷ b ∷ c ∷ d ∷ []) }
{
    with_byte(with_byte(with_byte(with_byte(sum, a), b), c), d)
}

/// The checksum goes on with these bytes.
fn checksum_on(start: u64, bytes: &[u8]) -> u64
    ensures { result ≡ checksum_from start bytes.now }
{
    let mut sum = start;
    for byte in bytes {
        sum = with_byte(sum, *byte);
    }
    sum
}

/// Any byte that is changed changes it. Eight bytes at a time take half the steps.
fn checksum(bytes: &[u8]) -> u64
    ensures { result ≡ checksum_of bytes.now }
{
    let mut sum = 1u64;
    let mut rest = bytes;
    while let [a, b, c, d, e, f, g, h, behind @ ..] = rest {
        sum = with_four(with_four(sum, *a, *b, *c, *d), *e, *f, *g, *h);
        rest = behind;
    }
    checksum_on(sum, rest)
}

/// The group behind its gate, and the closed gate behind it.
pub fn staged(alloc: Global, lines: &[u8]) -> Result<Vec<u8>, AllocError>
    ensures { IfOk result (λ bytes. bytes.items ≡ body_of lines.now ++ 21 ∷ []) }
{
    let mut bytes = Vec::new(alloc);
    bytes.extend_from_slice(&(lines.len() as u64).to_be_bytes())?;
    bytes.extend_from_slice(&checksum(lines).to_be_bytes())?;
    bytes.extend_from_slice(lines)?;
    bytes.push(CLOSED)?;
    Ok(bytes)
}

/// A file of one group.
pub fn alone(alloc: Global, lines: &[u8]) -> Result<Vec<u8>, AllocError>
    ensures { IfOk result (λ bytes. bytes.items ≡ file_of (lines.now ∷ [])) }
{
    let mut bytes = staged(alloc, lines)?;
    bytes.insert(0, OPEN)?;
    Ok(bytes)
}

fn number_at(bytes: &[u8]) -> u64
    requires { 8 ≤ length bytes.now }
    ensures { result ≡ from_be_bytes w64 (take 8 bytes.now) }
{
    u64::from_be_bytes([
        bytes[0], bytes[1], bytes[2], bytes[3], bytes[4], bytes[5], bytes[6], bytes[7],
    ])
}

/// The lines behind a gate, and the bytes behind them, if the group is whole.
fn whole_group(bytes: &[u8]) -> Option<(&[u8], &[u8])>
    ensures { MatchOption result (is_whole bytes.now ≡ false) (λ group. (is_whole bytes.now ≡ true)
        × (group.0.now ≡ stated_lines bytes.now) × (group.1.now ≡ drop (16 + stated_length bytes.now) bytes.now)) }
{
    if bytes.len() < HEAD {
        return None;
    }
    let len = number_at(bytes);
    let sum = number_at(&bytes[8..]);
    let rest = &bytes[HEAD..];
    if len > rest.len() as u64 {
        return None;
    }
    let (lines, behind) = rest.split_at(len as usize);
    if checksum(lines) != sum {
        return None;
    }
    Some((lines, behind))
}

fn first_group(bytes: &[u8]) -> Option<(&[u8], &[u8])>
    ensures { MatchOption result (group_at bytes.now ≡ None)
        (λ group. group_at bytes.now ≡ Some (group.0.now, group.1.now)) }
{
    match bytes {
        [OPEN, rest @ ..] => whole_group(rest),
        _ => None,
    }
}

/// The text of the whole groups, and what is behind them.
pub fn read_groups(alloc: Global, bytes: &[u8]) -> Result<(Vec<u8>, &[u8]), AllocError>
    ensures lines { IfOk result (λ read. read.0.items ≡ concat (groups_of bytes.now)) }
    ensures tail { IfOk result (λ read. read.1.now ≡ tail_of bytes.now) }
    // These are all the bytes.
    ensures split { bytes.now ≡ blocks (groups_of bytes.now) ++ tail_of bytes.now }
{
    let mut lines = Vec::new(alloc);
    let mut rest = bytes;
    while let Some((group, behind)) = first_group(rest) {
        lines.extend_from_slice(group)?;
        rest = behind;
    }
    Ok((lines, rest))
}

/// Whether the file was never a journal: a text begins with no gate.
pub fn is_foreign(file: &[u8]) -> bool
    ensures { result ≡ is_foreign_file file.now }
{
    !matches!(file, [] | [_] | [OPEN, ..] | [CLOSED, ..])
}

/// Whether a crash may have left this behind the groups. If not, the file is damaged.
pub fn is_torn_end(tail: &[u8]) -> bool
    ensures { result ≡ may_be_torn tail.now }
{
    match tail {
        [] | [_] | [CLOSED, ..] => true,
        [OPEN, ..] => false,
        [_, rest @ ..] => rest.len() <= HEAD || rest.len() as u64 - 17 <= number_at(rest),
    }
}
