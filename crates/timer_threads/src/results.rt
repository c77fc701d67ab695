//! Splits the clients' results, and finds the first client that failed.
ghost use Rattle.std.specs.Prelude.{◌≡◌, IfOk, IfSome, IsNone};
ghost use Rattle.timer_threads.specs.Results.{NoneFailed, AllRequestsEnded, IsFirstFailed, lower_of, AreUnzipped};

use crate::outcome::Worked;
use std::alloc::Global;
use timer_base::OutOfMemory;
use timer_desk::{ClientReader, RequestsEnded};

/// The first client that failed.
pub fn first_failed(all: &[Worked]) -> Option<usize>
    ensures some { IfSome result (λ c. IsFirstFailed all.now c) }
    ensures none { IsNone result → NoneFailed all.now }
{
    for (c, worked) in all.iter().enumerate() {
        if worked.failed || worked.ended.is_none() {
            return Some(c);
        }
    }
    None
}

/// The lower of two clients, if there are any.
pub fn lower(one: Option<usize>, other: Option<usize>) -> Option<usize>
    ensures { result ≡ lower_of one other }
{
    match (one, other) {
        (Some(a), Some(b)) => Some(a.min(b)),
        (Some(a), None) => Some(a),
        (None, b) => b,
    }
}

/// The ends and the readers of what the clients left. None if a client's requests could not be
/// ended.
pub fn unzip_results(
    alloc: Global,
    all: Vec<Worked>,
) -> Result<Option<(Vec<RequestsEnded>, Vec<ClientReader>)>, OutOfMemory>
    ensures some { IfOk result (λ parts. IfSome parts (λ p. AreUnzipped all.items p.0.items p.1.items)) }
    ensures none { IfOk result (λ parts. IsNone parts → ¬ (AllRequestsEnded all.items)) }
{
    let mut ends = Vec::with_capacity(alloc, all.len())?;
    let mut readers = Vec::with_capacity(alloc, all.len())?;
    for worked in all {
        let Worked { ended, reader, .. } = worked;
        let Some(ended) = ended else {
            return Ok(None);
        };
        ends.push_reserved(ended);
        readers.push_reserved(reader);
    }
    Ok(Some((ends, readers)))
}
