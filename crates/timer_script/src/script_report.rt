//! Reports every bad line of a script, and plays nothing: `line L, column C: FIELD: REASON`.
ghost use Rattle.std.specs.Prelude.{◌≡◌, ◌↔◌, ◌++◌, ℕ, false, IsTrue, IfOk, OnOk, IsErrOf, decimal};
ghost use Rattle.timer_script.specs.ScriptReport.{fault_line, of_field, IsScriptReport, HasChecked};
ghost use Rattle.timer_script.specs.Watched.{has_failed};

use crate::diagnosis::fault_in_line;
use crate::fault::CheckFault;
use crate::input::read_script;
use crate::line_fault::{Field, LineFault};
use crate::lines::{Grammar, line_len};
use crate::output::write_text;
use crate::watched::Watched;
use itoa::Buffer;
use std::alloc::Global;
use std::io::{Read, Write};
use timer_base::OutOfMemory;

/// Adds a number in decimal.
fn push_decimal(text: &mut Vec<u8>, n: u64) -> Result<(), OutOfMemory>
    ensures { OnOk result (text.new.items ≡ text.old.items ++ decimal n) }
{
    let mut buffer = Buffer::new();
    text.extend_from_slice(buffer.format(n).as_bytes())?;
    Ok(())
}

/// Adds the name of the field, if there is one.
fn push_field(text: &mut Vec<u8>, field: Option<Field>) -> Result<(), OutOfMemory>
    ensures { OnOk result (text.new.items ≡ text.old.items ++ of_field field) }
{
    if let Some(field) = field {
        text.extend_from_slice(field.words().as_bytes())?;
        text.extend_from_slice(b": ")?;
    }
    Ok(())
}

/// Adds the report of a fault in the n-th line.
pub fn push_fault(text: &mut Vec<u8>, n: u64, fault: LineFault) -> Result<(), OutOfMemory>
    ensures { OnOk result (text.new.items ≡ text.old.items ++ fault_line n fault) }
{
    text.extend_from_slice(b"line ")?;
    push_decimal(text, n)?;
    text.extend_from_slice(b", column ")?;
    push_decimal(text, fault.column as u64)?;
    text.extend_from_slice(b": ")?;
    push_field(text, fault.field)?;
    text.extend_from_slice(fault.reason.words().as_bytes())?;
    text.push(b'\n')?;
    Ok(())
}

/// The report of a script, and how many of its lines are bad.
fn report_of(alloc: Global, script: &[u8]) -> Result<(Vec<u8>, u64), OutOfMemory>
    ensures { IfOk result (λ r. IsScriptReport script.now r.0.items r.1) }
{
    let mut text = Vec::new(alloc);
    let mut lines = 0u64;
    let mut bad = 0u64;
    let mut rest = script;
    while !rest.is_empty() {
        let len = line_len(rest);
        lines += 1;
        if let Some(fault) = fault_in_line(Grammar::Script, &rest[..len]) {
            push_fault(&mut text, lines, fault)?;
            bad += 1;
        }
        rest = &rest[len..];
    }
    Ok((text, bad))
}

/// Reads a script to its end, and writes one line for each of its bad lines. Returns how many they are.
///
/// After `Write` a prefix of the report was written, after any other error nothing was. Neither side may have failed
/// before.
pub fn check<R: Read, S: Write>(
    alloc: Global,
    reader: &mut Watched<R>,
    writer: &mut Watched<S>,
) -> Result<u64, CheckFault>
    requires reader_good { has_failed reader.old ≡ false }
    requires writer_good { has_failed writer.old ≡ false }
    ensures checked { HasChecked (record { remaining = R.remaining; contents = S.contents })
        (record { reader = reader.old; writer = writer.old })
        (record { reader = reader.new; writer = writer.new }) result }
    ensures reader_failed { IsTrue (has_failed reader.new) ↔ IsErrOf result CheckFault.Read }
    ensures writer_failed { IsTrue (has_failed writer.new)
        ↔ ((written : ℕ) × IsErrOf result (CheckFault.Write written)) }
{
    let script = read_script(alloc, reader)?;
    let (report, bad) = report_of(alloc, &script)?;
    write_text(writer, &report)?;
    Ok(bad)
}
