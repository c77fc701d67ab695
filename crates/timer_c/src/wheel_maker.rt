//! C's wheel, and how one is made by C's number for its table.
ghost use Rattle.std.specs.Prelude.{◌≡◌, ◌<◌, ◌≤◌, ◌⊎◌, IfOk, IfErr};
ghost use Rattle.timer_base.specs.Counts.{no_counts};
ghost use Rattle.timer_base.specs.WheelState.{empty_wheel};
ghost use Rattle.timer_wheels.specs.TieredWheel.{counts_in, tiered_state};
ghost use Rattle.timer_c.specs.Outcomes.{IsEmptyWheel, WhyNoWheel};

use crate::status::{NO_MEMORY, NO_TABLE, TOO_LATE};
use std::alloc::Global;
use timer_base::MakeFault;
use timer_links::Unowned;
use timer_wheels::{TieredWheel, Tiers};

/// C's wheel. Its timers have no client and no number, so its lists keep neither.
pub(crate) type CWheel = TieredWheel<Unowned>;

/// An empty wheel at its first tick, or the status that says why there is none.
pub(crate) fn wheel_of(alloc: Global, table: u32, first_tick: u64) -> Result<CWheel, u32>
    ensures made { IfOk result (λ wheel. IsEmptyWheel table first_tick (tiered_state wheel)) }
    ensures counts { IfOk result (λ wheel. counts_in wheel ≡ no_counts) }
    ensures refused { IfErr result (WhyNoWheel table first_tick) }
{
    let Some(tiers) = Tiers::with_number(table) else {
        return Err(NO_TABLE);
    };
    match CWheel::with_tiers(alloc, tiers, first_tick) {
        Ok(wheel) => Ok(wheel),
        Err(MakeFault::FirstTick) => Err(TOO_LATE),
        Err(_) => Err(NO_MEMORY),
    }
}
