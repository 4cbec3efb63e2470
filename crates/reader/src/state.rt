// The reader's state but for its store.
ghost use Rattle.std.specs.Prelude.{◌≡◌};
ghost use Rattle.reader.specs.State.{bulk_seen, seen, fresh};

use super::phase::Phase;
use transport::{DataDirection, Toggles};

// The address that the reader hears; while a new one is being set, the old one and the new.
#[derive(Clone, Copy)]
pub enum Addresses {
    One(u8),
    Two { old: u8, new: u8 },
}

// The requests that are answered. A bulk endpoint goes by its direction.
#[derive(Clone, Copy)]
pub enum Request {
    SetAddress(u8),
    Configure(bool),
    ClearHalt(DataDirection),
    ResetTransport,
}

// The control transfer that the last accepted setup began: none yet, a request that is to take effect when its status is
// first sent, one that has, or one that is refused.
#[derive(Clone, Copy)]
pub enum Transfer {
    None,
    Asked(Request),
    Answered,
    Stalled,
}

// What must be heard next for it to count; anything else ends the expectation. An `Option` around the
// other cases would add `Some` to the arms of a match and take none away.
#[derive(Clone, Copy, Default)]
pub enum Expectation {
    #[default]
    Nothing,
    SetupData,
    ControlData,
    BulkData,
    ControlAck,
    BulkAck,
}

// Which endpoints are halted. After an invalid block both are, and clear halt does nothing before a reset of the
// transport or a configuration.
#[derive(Clone, Copy)]
pub enum Halts {
    Each { sending: bool, receiving: bool },
    Invalid,
}

// The control endpoint.
#[derive(Clone, Copy)]
pub struct Control {
    pub addresses: Addresses,
    pub configured: bool,
    pub transfer: Transfer,
}

// The bulk endpoints: data in are those of the one that sends (1 IN), data out those of the one that receives (2 OUT). The
// bytes of a sector that is being received stand in the front of the buffer.
#[derive(Clone, Copy)]
pub struct Bulk {
    pub toggles: Toggles,
    pub halts: Halts,
    pub phase: Phase,
    pub buffer: [u8; 512],
}

#[derive(Clone, Copy)]
pub struct Core {
    pub control: Control,
    pub bulk: Bulk,
    pub expects: Expectation,
}

impl Bulk {
    // As after a port reset.
    pub(crate) fn fresh() -> Bulk
        ensures { bulk_seen result ≡ fresh.bulk }
    {
        Bulk {
            toggles: Toggles::fresh(),
            halts: Halts::NONE,
            phase: Phase::Command,
            buffer: [0; 512],
        }
    }
}

impl Core {
    // As after a port reset.
    pub(crate) fn fresh() -> Core
        ensures { seen result ≡ fresh }
    {
        Core {
            control: Control {
                addresses: Addresses::One(0),
                configured: false,
                transfer: Transfer::None,
            },
            bulk: Bulk::fresh(),
            expects: Expectation::Nothing,
        }
    }
}
