//! Timers over any wheel, for a caller that proves nothing.
//!
//! A wheel has preconditions that its caller must meet. `Timers` tests them: each call but `new` is total, and if
//! a precondition does not hold it returns the error of the first that fails and changes nothing. There
//! are no clients and no request numbers. The serials are counted here and not in the wheel, so that they
//! continue from one wheel to the next.
#![tactic(auto)]

mod fault;
mod timers;

pub use fault::{AdvanceFault, RestartFault, StartFault};
pub use timers::Timers;
