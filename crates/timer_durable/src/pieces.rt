//! Pieces of bytes that go to and fro.
ghost use Rattle.std.specs.Prelude.{◌≡◌, ◌++◌, ℕ, true, min, length, take, is_ok};
ghost use Rattle.std.specs.Io.{WritesAtMost};
ghost use Rattle.std.specs.Io.KnownBytes.{Appends};
ghost use Rattle.timer_script.specs.Peer.{count_in};
ghost use Rattle.timer_script.specs.Service.{gone_of};
ghost use Rattle.timer_script.specs.Watched.{took_nothing};

use crate::calls::Calls;
use crate::fault::KeepFault;
use std::io;
use timer_script::Peer;

/// The bytes that a write took.
pub fn taken<'a>(written: &io::Result<usize>, piece: &'a [u8]) -> &'a [u8]
    requires { WritesAtMost written.now piece.now }
    ensures { result.now ≡ take (count_in written.now) piece.now }
{
    match written {
        Ok(n) => &piece[..*n],
        Err(_) => &[],
    }
}

/// Whether a write failed, or took no byte of a piece that is not empty.
pub fn takes_nothing(written: &io::Result<usize>, piece: &[u8]) -> bool
    ensures { result ≡ took_nothing written.now piece.now }
{
    match written {
        Ok(n) => *n == 0 && !piece.is_empty(),
        Err(_) => true,
    }
}

/// Copies as many bytes as there is room for, and returns how many.
pub fn copy_front(from: &[u8], to: &mut [u8]) -> usize
    ensures count { result ≡ min (length from.now) (length to.old) }
    ensures copied { take result to.new ≡ take result from.now }
{
    let n = from.len().min(to.len());
    to[..n].copy_from_slice(&from[..n]);
    n
}

/// Writes the text and flushes it. Notes what was taken of it.
pub fn send<P: Peer>(peer: &mut P, text: &[u8], calls: &mut Calls) -> Result<(), KeepFault>
    ensures sent { (count : ℕ) × Appends (P.state peer.old).contents (P.state peer.new).contents (take count text.now)
        × (gone_of calls.new.so_far ≡ gone_of calls.old.so_far ++ take count text.now)
        × (is_ok result ≡ true → count ≡ length text.now) }
    ensures remaining { (P.state peer.new).remaining ≡ (P.state peer.old).remaining }
{
    let mut written = 0;
    while written < text.len() {
        let Ok(n) = peer.write(&text[written..]) else {
            return Err(KeepFault::Write);
        };
        if n == 0 {
            return Err(KeepFault::Write);
        }
        calls.went(&text[written..written + n]);
        written += n;
    }
    match peer.flush() {
        Ok(()) => Ok(()),
        Err(_) => Err(KeepFault::Write),
    }
}
