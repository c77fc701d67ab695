//! The text of clients in threads: a line for each client, and the end line.
//!
//!     client CLIENT sent SENT started STARTED expired EXPIRED
//!     end
ghost use Rattle.std.specs.Prelude.{◌≡◌, ◌++◌, codes, decimal, IfOk, OnOk};
ghost use Rattle.timer_threads.specs.Threads.{client_line, clients_text};

use crate::outcome::Worked;
use itoa::Buffer;
use std::alloc::Global;
use timer_base::OutOfMemory;

/// Writes a word as it is, and a number after it.
fn push_count(text: &mut Vec<u8>, word: &[u8], count: u64) -> Result<(), OutOfMemory>
    ensures { OnOk result (text.new.items ≡ text.old.items ++ word.now ++ decimal count) }
{
    let mut buffer = Buffer::new();
    text.extend_from_slice(word)?;
    text.extend_from_slice(buffer.format(count).as_bytes())?;
    Ok(())
}

/// Writes the line of one client.
fn push_client(text: &mut Vec<u8>, client: usize, worked: &Worked) -> Result<(), OutOfMemory>
    ensures { OnOk result (text.new.items ≡ text.old.items
        ++ client_line client worked.now.sent worked.now.started worked.now.expired) }
{
    push_count(text, b"client ", client as u64)?;
    push_count(text, b" sent ", worked.sent)?;
    push_count(text, b" started ", worked.started)?;
    push_count(text, b" expired ", worked.expired)?;
    text.push(b'\n')?;
    Ok(())
}

/// The text of all clients, by number.
pub fn threads_text(alloc: Global, all: &[Worked]) -> Result<Vec<u8>, OutOfMemory>
    ensures { IfOk result (λ text. text.items ≡ clients_text 0 all.now ++ codes "end\n") }
{
    let mut text = Vec::new(alloc);
    for (client, worked) in all.iter().enumerate() {
        push_client(&mut text, client, worked)?;
    }
    text.extend_from_slice(b"end\n")?;
    Ok(text)
}
