// Stores: what a USB disk keeps its sectors in, as one interface, and four stores behind it.
#![tactic(auto)]

mod access;
mod answers;
mod blank;
mod interface;
mod limited;
mod lock;
mod plain;

pub use access::{MOST_SECTORS, SECTOR_BYTES, allowed};
pub use answers::{StoreRefusal, Verdict};
pub use blank::BlankSector;
pub use interface::Store;
pub use limited::LimitedDisk;
pub use lock::Lock;
pub use plain::PlainDisk;
