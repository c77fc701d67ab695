//! Reads a script to its end, in few large reads. No error is retried.
ghost use Rattle.std.specs.Prelude.{◌+◌, vec_len, ◌≡◌, ◌≤◌, ◌<◌, length, IfOk, IfErr, true, false};
ghost use Rattle.timer_script.specs.declared.input.TheConstants.{MAX_BYTES};
ghost use Rattle.timer_script.specs.Input.{ReadsWhole, StopsReading, HasRead, FailsToRead};

use crate::fault::ReadFault;
use crate::watched::Watched;
use std::alloc::Global;
use std::io::Read;
use timer_base::OutOfMemory;

/// The most bytes that a script may have: 1 MiB.
pub const MAX_BYTES: usize = 1048576;

/// The most bytes that are read: one more than a script may have shows that an input is too long.
const READ_LIMIT: usize = MAX_BYTES + 1;

/// The most bytes of one read.
const PIECE: usize = 65536;

/// A buffer of this many zeros.
pub fn zeroed_buffer(alloc: Global, len: usize) -> Result<Vec<u8>, OutOfMemory>
    ensures len { IfOk result (λ piece. vec_len piece ≡ len) }
{
    vec![in alloc; 0u8; len].map_err(|_| OutOfMemory)
}

/// Reads once, and appends what came. Returns how many bytes came: 0 only at the end.
fn read_once<R: Read>(
    reader: &mut Watched<R>,
    piece: &mut [u8],
    bytes: &mut Vec<u8>,
) -> Result<usize, ReadFault>
    requires good { reader.old.failed ≡ false }
    requires room { 0 < length piece.old }
    ensures ok { IfOk result (λ n. HasRead (R.remaining reader.old.inner)
        (R.remaining reader.new.inner) reader.new.failed
        bytes.old.items bytes.new.items n) }
    ensures within { IfOk result (λ n. n ≤ length piece.old) }
    ensures len { IfOk result (λ n. vec_len bytes.new ≡ vec_len bytes.old + n) }
    ensures fault { IfErr result (λ fault. FailsToRead fault (length piece.old)
        (R.remaining reader.old.inner) (R.remaining reader.new.inner) reader.new.failed) }
{
    let Ok(n) = reader.read(piece) else {
        return Err(ReadFault::Read);
    };
    if bytes.extend_from_slice(&piece[..n]).is_err() {
        return Err(ReadFault::OutOfMemory);
    }
    Ok(n)
}

/// The bytes up to the reader's end.
///
/// Fails with `Read` if the reader failed, and with `TooLong`, or out of memory, once it gave more than
/// `MAX_BYTES` bytes, of which one is read.
#[tactic(auto, using(crate::proofs::KnownBytes::reads_more))]
pub fn read_script<R: Read>(alloc: Global, reader: &mut Watched<R>) -> Result<Vec<u8>, ReadFault>
    requires { reader.old.failed ≡ false }
    ensures whole { IfOk result (λ bytes. ReadsWhole (R.remaining reader.old.inner)
        (R.remaining reader.new.inner) bytes.items) }
    ensures short { IfOk result (λ bytes. length bytes.items ≤ MAX_BYTES) }
    ensures good { IfOk result (λ _. reader.new.failed ≡ false) }
    ensures fault { IfErr result (λ fault. StopsReading fault (R.remaining reader.old.inner)
        (R.remaining reader.new.inner) reader.new.failed) }
{
    let mut piece = zeroed_buffer(alloc, PIECE)?;
    let mut bytes = Vec::new(alloc);
    while bytes.len() < READ_LIMIT {
        let room = PIECE.min(READ_LIMIT - bytes.len());
        let n = read_once(reader, &mut piece[..room], &mut bytes)?;
        if n == 0 {
            return Ok(bytes);
        }
    }
    Err(ReadFault::TooLong)
}
