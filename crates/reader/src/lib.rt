// The reader: a USB disk of the Bulk-Only kind, from a port reset to the last status block, over any store.
#![tactic(auto)]

mod answer;
mod answering;
mod bulk;
mod control;
mod device;
mod halts;
mod phase;
mod planning;
mod promises;
mod receiving;
mod sending;
mod stages;
mod state;

pub use answer::Answer;
pub use device::Reader;
pub use packet::Body;
pub use phase::{Phase, Receiving, Sending, Source};
pub use promises::{
    a_repeat_changes_nothing, a_status_answers_its_command, an_answer_is_nothing_or_a_built_packet,
    an_unacknowledged_packet_is_sent_again_unchanged, only_a_completed_sector_reaches_the_disk,
    reset_recovery_ends_every_halt_and_command,
    what_does_not_reach_the_bulk_endpoints_writes_nothing,
};
pub use state::{Addresses, Bulk, Control, Core, Expectation, Halts, Request, Transfer};
pub use transport::Toggles;
