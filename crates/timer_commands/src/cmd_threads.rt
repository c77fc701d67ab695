//! The subcommand `threads`: clients in threads of their own, and one line for each.
ghost use Rattle.std.specs.Prelude.{◌≡◌, IfOk, IfErr, OnOk, OnErr, IsTrue, ◌↔◌, vec_len, true, false};
ghost use Rattle.std.specs.Io.KnownBytes.{Appends};
ghost use Rattle.timer_threads.specs.Threads.{whole_text, IsThreadsRun, IsExplained, HasSucceeded};
ghost use Rattle.timer_commands.specs.Clients.{IsRunnable, HasRunClients, HasEndedClients, error_line, client_fault};
ghost use Rattle.timer_script.specs.Watched.{inner_of, has_failed};

use crate::ending::{Ending, report};
use crate::threads_options::ThreadsOptions;
use itoa::Buffer;
use std::alloc::{AllocError, Global};
use std::io::Write;
use std::thread::Threads;
use timer_script::{Watched, WriteFault, write_text};
use timer_threads::{Open, ThreadsFault, threads_run};

/// Idle turns, one after another, before a side gives up.
const LIMIT: u64 = 10_000_000;

/// Runs as many clients as the options say, and writes their text. The writer is untouched if a number is out of range
/// or the run fails, and then `faults` gets a line. An error in writing that line is ignored. Waits for the clients'
/// threads.
pub fn run_clients<W: Write, F: Write>(
    rt: &impl Threads,
    alloc: Global,
    options: ThreadsOptions,
    writer: &mut Watched<W>,
    faults: &mut Watched<F>,
) -> Ending
    requires writer_good { has_failed writer.old ≡ false }
    requires faults_good { has_failed faults.old ≡ false }
    ensures { HasRunClients options W.contents F.contents writer.old writer.new faults.old faults.new result }
{
    if !options.is_in_range() {
        let _ = write_text(
            faults,
            b"the number of clients or of timers is out of range\n",
        );
        return Ending::Refused;
    }
    let ended = run_open(rt, alloc, options);
    end_clients(ended, writer, faults)
}

/// Runs as many clients as the options say, whose gates are open.
fn run_open(
    rt: &impl Threads,
    alloc: Global,
    options: ThreadsOptions,
) -> Result<Vec<u8>, ThreadsFault>
    requires { IsRunnable options }
    ensures text { IfOk result (λ text. text.items ≡ whole_text options.clients options.timers) }
    ensures ended { IfOk result (λ _. IsThreadsRun options.clients options.timers 10000000 HasSucceeded) }
    ensures failed { IfErr result (λ fault. IsExplained options.clients options.timers 10000000 fault) }
{
    match open_gates(alloc, options.clients as usize) {
        Ok(gates) => threads_run(rt, alloc, gates, options.timers, LIMIT),
        Err(_) => Err(ThreadsFault::OutOfMemory),
    }
}

/// Writes the text of clients that finished, or reports in one line why they did not. An error in reporting is ignored.
pub fn end_clients<W: Write, F: Write>(
    ended: Result<Vec<u8>, ThreadsFault>,
    writer: &mut Watched<W>,
    faults: &mut Watched<F>,
) -> Ending
    requires writer_good { has_failed writer.old ≡ false }
    requires faults_good { has_failed faults.old ≡ false }
    ensures { HasEndedClients ended W.contents F.contents writer.old writer.new faults.old faults.new result }
{
    match ended {
        Ok(text) => match write_text(writer, &text) {
            Ok(()) => Ending::Done,
            Err(fault) => report(fault, Ending::Failed, faults),
        },
        Err(fault) => {
            let _ = write_fault(fault, faults);
            Ending::Failed
        }
    }
}

/// Writes the line of an error of a run of clients. Does not allocate.
fn write_fault<F: Write>(fault: ThreadsFault, faults: &mut Watched<F>) -> Result<(), WriteFault>
    requires { has_failed faults.old ≡ false }
    ensures ok { OnOk result (Appends (F.contents (inner_of faults.old)) (F.contents (inner_of faults.new))
        (error_line fault)) }
    ensures good { OnOk result (has_failed faults.new ≡ false) }
    ensures failed { OnErr result (has_failed faults.new ≡ true) }
{
    match fault {
        ThreadsFault::OutOfMemory => write_text(faults, b"out of memory\n"),
        ThreadsFault::Client(client) => write_client(client, faults),
        ThreadsFault::Desk => write_text(faults, b"desk failed\n"),
    }
}

/// Writes the line of an error of this client.
fn write_client<F: Write>(client: usize, faults: &mut Watched<F>) -> Result<(), WriteFault>
    requires { has_failed faults.old ≡ false }
    ensures ok { OnOk result (Appends (F.contents (inner_of faults.old)) (F.contents (inner_of faults.new))
        (client_fault client)) }
    ensures good { OnOk result (has_failed faults.new ≡ false) }
    ensures failed { OnErr result (has_failed faults.new ≡ true) }
{
    let mut buffer = Buffer::new();
    write_text(faults, b"client ")?;
    write_text(faults, buffer.format(client as u64).as_bytes())?;
    write_text(faults, b" failed\n")
}

/// An open gate for each client.
fn open_gates(alloc: Global, clients: usize) -> Result<Vec<Open>, AllocError>
    ensures { IfOk result (λ gates. vec_len gates ≡ clients) }
{
    let mut gates = Vec::with_capacity(alloc, clients)?;
    for _ in 0..clients {
        gates.push_reserved(Open);
    }
    Ok(gates)
}
