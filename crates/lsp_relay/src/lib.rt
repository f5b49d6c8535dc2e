//! A relay: a channel that passes messages from one thread to another in order, and then says that they ended. Other
//! threads can wake the thread that takes. `give_back` is a channel for messages on their way back, to be dropped.
#![tactic(auto)]

mod account;
mod ends;
pub mod give_back;
mod start_fault;

pub use account::{AnyPlan, Plan, Source};
pub use ends::{Parcel, RelayRx, RelayTx, RelayWaker, Taken, plan, relay, settle_all};
pub use start_fault::StartFault;
