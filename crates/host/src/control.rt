// Control transfers: a setup, and then empty DATA1 on IN.
ghost use Rattle.std.specs.Prelude.{◌≡◌};
ghost use Rattle.packet.specs.Bodies.{held};
ghost use Rattle.host.specs.Buses.{PerformsOver};
ghost use Rattle.host.specs.Pipes.{address_number};
ghost use Rattle.host.specs.Transfers.{request_setup, placed_as, transfers};

use super::bus::Bus;
use super::fault::{Cause, Place, Stage, TransactionFault, TransportFault};
use super::judging::Awaited;
use super::pipe::{Address, Pipe};
use super::transaction::Transacted;
use packet::{Body, DataKind};
use store::Store;
use transport::DataDirection;
use wire::Wire;

// The requests that the host makes.
#[derive(Clone, Copy)]
pub enum Request {
    SetAddress,
    Configure,
    ResetTransport,
    ClearHalt(DataDirection),
}

impl Request {
    // The eight bytes of its setup. Clear halt names the endpoint with its direction: 1 IN, or 2 OUT.
    fn setup(self) -> Body
        ensures { held result ≡ request_setup self }
    {
        Body::of(&match self {
            Request::SetAddress => [0x00, 0x05, 1, 0, 0, 0, 0, 0],
            Request::Configure => [0x00, 0x09, 1, 0, 0, 0, 0, 0],
            Request::ResetTransport => [0x21, 0xff, 0, 0, 0, 0, 0, 0],
            Request::ClearHalt(DataDirection::In) => [0x02, 0x01, 0, 0, 0x81, 0, 0, 0],
            Request::ClearHalt(DataDirection::Out) => [0x02, 0x01, 0, 0, 0x02, 0, 0, 0],
        })
    }
}

// How a transaction ended, with the place of its packet; STALL counts as given up too.
pub(crate) fn placed<T>(ended: Transacted<T>, place: Place) -> Result<T, TransportFault>
    ensures { result ≡ placed_as place.endpoint place.stage place.packet ended }
{
    let stalled = TransactionFault {
        cause: Cause::Stalled,
    };
    ended
        .map_err(|fault| fault.at(place))?
        .ok_or(stalled.at(place))
}

// The two packets of a control transfer.
const SETUP: Place = Place {
    endpoint: 0,
    stage: Stage::Control,
    packet: 0,
};

const REPLY: Place = Place { packet: 1, ..SETUP };

impl<W: Wire, S: Store> Bus<'_, W, S> {
    pub(crate) fn transfer(
        &mut self,
        address: Address,
        request: Request,
    ) -> Result<(), TransportFault>
        ensures { PerformsOver W.Wire S.Store (transfers (address_number address) (request_setup request)) self.old result self.new }
    {
        let sent = self.deliver(Pipe::Control(address), DataKind::Data0, &request.setup());
        placed(sent, SETUP)?;
        let awaited = Awaited {
            toggle: DataKind::Data1,
            length: None,
        };
        let reply = self.fetch(Pipe::Control(address), awaited);
        placed(reply, REPLY)?;
        Ok(())
    }
}
