//! The subcommand `check`: each bad line of a script is reported, and nothing is played.
ghost use Rattle.std.specs.Prelude.{◌≡◌, false};
ghost use Rattle.timer_commands.specs.Subcommands.{HasCheckedScript};
ghost use Rattle.timer_script.specs.Watched.{has_failed};

use crate::ending::Ending;
use crate::fault::Fault;
use std::alloc::Global;
use std::io::{Read, Write};
use timer_script::{Streams, check};

/// Reports the bad lines of the script of the reader on the writer. An error of input or output, or out of memory, is
/// returned, and not reported.
pub fn check_script<R: Read, W: Write>(
    alloc: Global,
    streams: &mut Streams<R, W>,
) -> Result<Ending, Fault>
    requires reader_good { has_failed streams.old.reader ≡ false }
    requires writer_good { has_failed streams.old.writer ≡ false }
    ensures { HasCheckedScript (record { remaining = R.remaining; contents = W.contents })
        streams.old streams.new result }
{
    match check(alloc, &mut streams.reader, &mut streams.writer) {
        Ok(0) => Ok(Ending::Done),
        Ok(_) => Ok(Ending::Bad),
        Err(fault) => Err(Fault::Check(fault)),
    }
}
