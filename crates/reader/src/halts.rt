// Which bulk endpoints are halted.
ghost use Rattle.std.specs.Prelude.{◌≡◌};
ghost use Rattle.reader.specs.BulkEnds.{halted};
ghost use Rattle.reader.specs.Control.{halts_kept};
ghost use Rattle.reader.specs.Stages.{halt_set};

use super::state::Halts;
use transport::DataDirection;

impl Halts {
    pub(crate) const NONE: Halts = Halts::Each {
        sending: false,
        receiving: false,
    };

    const BOTH: Halts = Halts::Each {
        sending: true,
        receiving: true,
    };

    pub(crate) fn is_halted(self, direction: DataDirection) -> bool
        ensures { result ≡ halted direction self }
    {
        match (self, direction) {
            (Halts::Each { sending, .. }, DataDirection::In) => sending,
            (Halts::Each { receiving, .. }, DataDirection::Out) => receiving,
            (Halts::Invalid, _) => true,
        }
    }

    // The halt of one endpoint begun or ended; after an invalid block neither does anything.
    pub(crate) fn with(self, direction: DataDirection, halted: bool) -> Halts
        ensures { result ≡ halt_set direction halted self }
    {
        match (self, direction) {
            (Halts::Each { receiving, .. }, DataDirection::In) => Halts::Each {
                sending: halted,
                receiving,
            },
            (Halts::Each { sending, .. }, DataDirection::Out) => Halts::Each {
                sending,
                receiving: halted,
            },
            (Halts::Invalid, _) => Halts::Invalid,
        }
    }

    // Over a reset of the transport halts stay, and can be cleared from then on.
    pub(crate) fn keep(self) -> Halts
        ensures { result ≡ halts_kept self }
    {
        match self {
            Halts::Each { .. } => self,
            Halts::Invalid => Halts::BOTH,
        }
    }
}
