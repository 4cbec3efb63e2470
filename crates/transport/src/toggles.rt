// The data toggles of the two bulk endpoints, which each end keeps for itself.
ghost use Rattle.std.specs.Prelude.{◌≡◌};
ghost use Rattle.transport.specs.Toggles.{both_fresh, toggle_turned, toggle_freshened, toggle_of, toggle_set};

use super::DataDirection;
use packet::DataKind;

// The kind of the next data in each direction: what one end sends, and the other awaits.
#[derive(Clone, Copy, PartialEq, Eq)]
pub struct Toggles {
    pub data_in: DataKind,
    pub data_out: DataKind,
}

impl Toggles {
    // Both as a reset leaves them.
    pub fn fresh() -> Toggles
        ensures { result ≡ both_fresh }
    {
        Toggles {
            data_in: DataKind::Data0,
            data_out: DataKind::Data0,
        }
    }

    fn of(self, direction: DataDirection) -> DataKind
        ensures { result ≡ toggle_of direction self }
    {
        match direction {
            DataDirection::In => self.data_in,
            DataDirection::Out => self.data_out,
        }
    }

    // As data that were acknowledged leave them.
    pub fn toggle(self, direction: DataDirection) -> Toggles
        ensures { result ≡ toggle_turned direction self }
    {
        self.with(direction, self.of(direction).toggled())
    }

    // As the end of a halt leaves them.
    pub fn reset(self, direction: DataDirection) -> Toggles
        ensures { result ≡ toggle_freshened direction self }
    {
        self.with(direction, DataKind::Data0)
    }

    fn with(self, direction: DataDirection, kind: DataKind) -> Toggles
        ensures { result ≡ toggle_set direction kind self }
    {
        match direction {
            DataDirection::In => Toggles {
                data_in: kind,
                ..self
            },
            DataDirection::Out => Toggles {
                data_out: kind,
                ..self
            },
        }
    }
}
