// The host's side of the bus below its calls: tries, transactions, control transfers, commands.
#![tactic(auto)]

mod bus;
mod command;
mod control;
mod fault;
mod host;
mod judging;
mod pipe;
mod promises;
mod transaction;

pub use command::{CommandFailed, DataOver, Opened, Outcome};
pub use control::Request;
pub use fault::{Cause, Fault, Place, Stage, TransactionFault, TransportFault};
pub use host::Host;
pub use judging::{Arrival, Reply};
pub use pipe::{Address, Pipe};
pub use promises::{failed_deliveries_are_paid_for, failed_fetches_are_paid_for};
