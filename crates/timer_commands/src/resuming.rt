//! Serves a stream from a state that was read.
//!
//!     saved --> a wheel of the scheme, at its tick --> a player --> the stream
//!
//! The player goes on as the facility whose state it was: it gives the same answers to the lines that come.
ghost use Rattle.std.specs.Prelude.{◌≡◌, IfOk};
ghost use Rattle.timer_base.specs.declared.timer.Timer.{Timer};
ghost use Rattle.timer_base.specs.WheelState.{empty_wheel};
ghost use Rattle.timer_script.specs.Service.{AreGood};
ghost use Rattle.timer_commands.specs.Options.{scheme_last, scheme_layout, config_of};
ghost use Rattle.timer_commands.specs.Serving.{FitsOptions, HasGoneOn, HasResumed};

use crate::ending::Ending;
use crate::fault::Fault;
use crate::options::{RunOptions, Scheme};
use crate::schemes::OfScheme;
use crate::verbs::talk;
use std::alloc::Global;
use std::io::Write;
use timer_base::{MakeFault, PlainWheel, Wheel};
use timer_facility::{Checked, Player, SavedState};
use timer_script::{OnBadLine, Peer, ServeFault, Watched};
use timer_wheels::{HashedWheel, HierWheel, SmoothWheel, Table};

/// Answers lines as they come, from a state that was read. It has to fit the options, and its tick is the first one,
/// not that of the options. If the options are refused, or memory runs out before the first line, nothing is read or
/// written. An error is returned, and not reported.
pub fn resume<P: Peer, F: Write>(
    alloc: Global,
    options: RunOptions,
    saved: &SavedState,
    on_bad: OnBadLine,
    wakeups: bool,
    peer: &mut P,
    faults: &mut Watched<F>,
) -> Result<Ending, Fault>
    requires good { AreGood (P.state peer.old) }
    requires fits { FitsOptions options saved.now }
    ensures { HasResumed options saved.now
        (record { on_bad = on_bad; wakeups = wakeups; state = P.state; reports = F.contents })
        (record { peer = peer.old; faults = faults.old })
        (record { peer = peer.new; faults = faults.new }) result }
{
    let checked = match options.check() {
        Ok(checked) => checked,
        Err(fault) => return Err(Fault::Options(fault)),
    };
    let tick = saved.now();
    match options.scheme {
        Scheme::Plain => {
            let made = PlainWheel::new(alloc, tick);
            over_wheel(
                alloc, options, checked, saved, made, on_bad, wakeups, peer, faults,
            )
        }
        Scheme::Hashed => {
            let made = HashedWheel::new(alloc, options.slots as usize, tick);
            over_wheel(
                alloc, options, checked, saved, made, on_bad, wakeups, peer, faults,
            )
        }
        Scheme::Hier => {
            let made = HierWheel::with_table(alloc, Table::Wide, tick);
            over_wheel(
                alloc, options, checked, saved, made, on_bad, wakeups, peer, faults,
            )
        }
        Scheme::Clock => {
            let made = HierWheel::with_table(alloc, Table::Clock, tick);
            over_wheel(
                alloc, options, checked, saved, made, on_bad, wakeups, peer, faults,
            )
        }
        Scheme::Smooth => {
            let made = SmoothWheel::new(alloc, tick);
            over_wheel(
                alloc, options, checked, saved, made, on_bad, wakeups, peer, faults,
            )
        }
    }
}

/// Serves over this wheel, if there was memory for it.
fn over_wheel<P: Peer, F: Write, W: Wheel + OfScheme + Drop>(
    alloc: Global,
    _options: RunOptions,
    checked: Checked,
    saved: &SavedState,
    made: Result<W, MakeFault>,
    on_bad: OnBadLine,
    wakeups: bool,
    peer: &mut P,
    faults: &mut Watched<F>,
) -> Result<Ending, Fault>
    requires wheel { IfOk made (λ wheel. W.is_wheel_of _options wheel) }
    requires state { IfOk made (λ wheel. W.state wheel ≡ empty_wheel (scheme_layout _options.scheme _options.slots)
        (scheme_last _options.scheme) saved.now.saved.now) }
    requires keeps { (timer : Timer) → W.keeps timer }
    requires config { checked ≡ config_of _options }
    requires good { AreGood (P.state peer.old) }
    requires fits { FitsOptions _options saved.now }
    ensures { HasGoneOn _options saved.now
        (record { on_bad = on_bad; wakeups = wakeups; state = P.state; reports = F.contents })
        (record { peer = peer.old; faults = faults.old })
        (record { peer = peer.new; faults = faults.new }) result }
{
    let Ok(wheel) = made else {
        return Err(Fault::Serve(ServeFault::OutOfMemory));
    };
    match Player::restore(alloc, checked, wheel, saved) {
        Ok(player) => talk(alloc, player, on_bad, wakeups, peer, faults),
        Err(_) => Err(Fault::Serve(ServeFault::OutOfMemory)),
    }
}
