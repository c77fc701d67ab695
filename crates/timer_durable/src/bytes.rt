//! Bytes that are read from a peer until whole lines are among them.
ghost use Rattle.std.specs.Prelude.{◌≡◌, ◌⊎◌, ◌+◌, ◌-◌, ◌<◌, ◌≤◌, length, drop, slice_index, IfOk};
ghost use Rattle.std.specs.Io.KnownBytes.{IsAtEnd};
ghost use Rattle.timer_script.specs.Script.{HasNoFeed};
ghost use Rattle.timer_durable.specs.Durable.{HasReadOn};

use crate::fault::KeepFault;
use timer_script::Peer;

/// After so many bytes without a line feed a line is refused.
pub const LONGEST: usize = 16384;

/// Reads once into the piece, and puts what came behind the bytes that came before. Returns how many bytes came: none
/// only at the end. After an error the bytes are those from before.
#[tactic(auto, using(crate::proofs::Reading::read_none, crate::proofs::Reading::read_some, crate::proofs::Reading::read_failed))]
fn read_on<P: Peer>(peer: &mut P, piece: &mut [u8], bytes: &mut Vec<u8>) -> Result<usize, KeepFault>
    requires { 0 < length piece.old }
    ensures read { HasReadOn (P.state peer.old) bytes.old.items (P.state peer.new) bytes.new.items }
    ensures more { IfOk result (λ n. length bytes.new.items ≡ length bytes.old.items + n) }
    ensures none { IfOk result (λ n. n ≡ 0 → bytes.new.items ≡ bytes.old.items) }
    ensures end { IfOk result (λ n. n ≡ 0 → IsAtEnd (P.state peer.new).remaining) }
{
    // What is read must not be lost for want of memory.
    bytes.reserve(piece.len())?;
    let Ok(n) = peer.read(piece) else {
        return Err(KeepFault::Read);
    };
    bytes.extend_from_slice(&piece[..n])?;
    Ok(n)
}

/// How many of these bytes are whole lines, from the front on.
fn whole_len(bytes: &[u8]) -> usize
    ensures within { result ≤ length bytes.now }
    ensures whole { (result ≡ 0) ⊎ (slice_index bytes.now (result - 1) ≡ 10) }
    ensures rest { HasNoFeed (drop result bytes.now) }
{
    let mut len = bytes.len();
    while len > 0 {
        if bytes[len - 1] == b'\n' {
            return len;
        }
        len -= 1;
    }
    len
}

/// Reads until whole lines are at the front of the bytes, and returns how many bytes they have: none only at the
/// end of the stream. Then the last line has no end.
#[tactic(auto, using(crate::proofs::Reading::read_none, crate::proofs::Reading::read_on))]
pub fn read_lines<P: Peer>(
    peer: &mut P,
    piece: &mut [u8],
    bytes: &mut Vec<u8>,
) -> Result<usize, KeepFault>
    requires { 0 < length piece.old }
    ensures read { HasReadOn (P.state peer.old) bytes.old.items (P.state peer.new) bytes.new.items }
    ensures within { IfOk result (λ n. n ≤ length bytes.new.items) }
    ensures whole { IfOk result (λ n. (n ≡ 0) ⊎ (slice_index bytes.new.items (n - 1) ≡ 10)) }
    ensures rest { IfOk result (λ n. HasNoFeed (drop n bytes.new.items)) }
    ensures end { IfOk result (λ n. n ≡ 0 → IsAtEnd (P.state peer.new).remaining) }
{
    let mut whole = whole_len(bytes);
    while whole == 0 {
        if bytes.len() >= LONGEST {
            return Err(KeepFault::LongLine);
        }
        if read_on(peer, piece, bytes)? == 0 {
            return Ok(0);
        }
        whole = whole_len(bytes);
    }
    Ok(whole)
}
