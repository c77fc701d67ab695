//! Writes a text by a loop of its own over `write`, so that it is known how much went out if the
//! writer fails. No error is retried.
ghost use Rattle.std.specs.Prelude.{◌≡◌, ◌<◌, length, take, Ok, IfOk, IfErr, OnOk, true, false};
ghost use Rattle.std.specs.Io.KnownBytes.{Appends};
ghost use Rattle.timer_script.specs.Watched.{StopsWriting, inner_of, has_failed};

use crate::fault::WriteFault;
use crate::watched::Watched;
use std::io::Write;

/// Writes the text and nothing else.
///
/// The error comes if the writer failed, or took no byte, and has the number of bytes of the text that were
/// written before.
#[tactic(auto, using(crate::proofs::KnownBytes::sends_more))]
pub fn write_text<S: Write>(writer: &mut Watched<S>, text: &[u8]) -> Result<(), WriteFault>
    requires { has_failed writer.old ≡ false }
    ensures ok { OnOk result (Appends (S.contents (inner_of writer.old))
        (S.contents (inner_of writer.new)) text.now) }
    ensures good { OnOk result (has_failed writer.new ≡ false) }
    ensures fault { IfErr result (λ fault. StopsWriting fault (S.contents (inner_of writer.old))
        (S.contents (inner_of writer.new))
        (has_failed writer.new) text.now) }
{
    let mut written = 0;
    while written < text.len() {
        let fault = WriteFault { written };
        let Ok(n) = writer.write(&text[written..]) else {
            return Err(fault);
        };
        if n == 0 {
            return Err(fault);
        }
        written += n;
    }
    Ok(())
}
