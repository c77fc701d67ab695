//! Text that outlives the process: lines are kept in a file, group by group, each durable before it is
//! acknowledged.
//!
//! A crash at any moment leaves the groups from before an append, with the new one or without. Over any
//! device: `device` has what is supposed of one.
#![tactic(auto)]

mod device;
mod durable;
mod fault;
mod format;
mod host;
mod journal;
mod memory;
mod place;
mod record;
mod recovery;

pub use device::Device;
pub use fault::{DeviceFault, JournalFault};
pub use host::{HostFile, OpenFault, open_host};
pub use journal::Journal;
pub use memory::{Change, Memory};
pub use recovery::{Recovered, recover};
