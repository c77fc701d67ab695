//! Puts the clients' ends of new lines into C's structs.
ghost use Rattle.std.specs.Prelude.{◌≡◌, map, length, vec_len, true, false};
ghost use Rattle.timer_desk_c.specs.Desks.{AllEmpty, IsOneHeld, HoldsLine, AreHeld};
ghost use Rattle.timer_desk_c.specs.Frames.{HasNoLine};

use crate::c_structs::CLine;
use crate::line::Line;

/// Whether none of them holds a line.
pub(crate) fn are_empty(lines: &mut [CLine]) -> bool
    ensures empty { result ≡ true → AllEmpty lines.old }
    ensures held { result ≡ false → IsOneHeld lines.old }
    ensures same { lines.new ≡ lines.old }
{
    for k in 0..lines.len() {
        if let Some(_) = lines[k].line() {
            return false;
        }
    }
    true
}

/// Puts each end into the line at its index, in this life of their desk's struct.
pub(crate) fn place(ends: Vec<Box<Line>>, lines: &mut [CLine], life: u64)
    requires empty { AllEmpty lines.old }
    requires as_many { vec_len ends ≡ length lines.old }
    ensures held { AreHeld life (map (λ b. b.value) ends.items) lines.new }
{
    let mut ends = ends;
    while let Some(end) = ends.pop() {
        let k = ends.len();
        hold(&mut lines[k], end, k, life);
    }
}

/// Puts the end of a client into a line that holds none, in this life of its desk's struct.
pub(crate) fn hold(line: &mut CLine, end: Box<Line>, client: usize, life: u64)
    requires { HasNoLine line.old }
    ensures { HoldsLine life client end.value line.new }
{
    line.slot.cell().put(end);
    line.client = client as u64;
    line.life = life;
}
