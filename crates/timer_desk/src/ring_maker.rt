//! The constructor of a ring line.
ghost use Rattle.std.specs.Prelude.{◌≡◌, ◌≤◌, [], false, IfOk};
ghost use Rattle.timer_desk.specs.RingEnds.{line_of_end, line_of_inlet, submitted, received_by_end, next_of, free_of, got_of, given_of, is_settled, free_of_inlet, found_by_end, found_by_inlet};
ghost use Rattle.timer_desk.specs.declared.looks.Found.TheVariants as Found;

use crate::looks::Looks;
use crate::ring_ends::{ClientEnd, RingInlet};
use rtrb::RingBuffer;
use std::alloc::Global;
use timer_base::{LAST, OutOfMemory};

/// The two ends of a new line, with room for `capacity` items each way.
pub fn ring_line(
    alloc: Global,
    capacity: usize,
    first_number: u64,
) -> Result<(ClientEnd, RingInlet), OutOfMemory>
    requires capacity { (1 ≤ capacity) × (capacity ≤ 65536) }
    requires first { first_number ≤ LAST }
    ensures line { IfOk result (λ r. line_of_end r.0 ≡ line_of_inlet r.1) }
    ensures end { IfOk result (λ r. (submitted r.0 ≡ []) × (received_by_end r.0 ≡ [])
        × (next_of r.0 ≡ first_number)) }
    ensures inlet { IfOk result (λ r. (got_of r.1 ≡ []) × (given_of r.1 ≡ []) × (is_settled r.1 ≡ false)) }
    ensures found { IfOk result (λ r. (found_by_end r.0 ≡ Found.Nothing) × (found_by_inlet r.1 ≡ Found.Nothing)) }
    ensures room { IfOk result (λ r. (free_of r.0 ≡ capacity) × (free_of_inlet r.1 ≡ capacity)) }
{
    let Ok((requests_in, requests_out)) = RingBuffer::new(alloc, capacity) else {
        return Err(OutOfMemory);
    };
    let Ok((words_in, words_out)) = RingBuffer::new(alloc, capacity) else {
        return Err(OutOfMemory);
    };
    let end = ClientEnd {
        requests: requests_in,
        words: words_out,
        next: first_number,
        looks: Looks::new(),
    };
    let inlet = RingInlet {
        requests: requests_out,
        words: words_in,
        settled: false,
        looks: Looks::new(),
    };
    Ok((end, inlet))
}
