// The host: its toggles and the tag of its next command; attaching and recovering.
ghost use Rattle.std.specs.Prelude.{◌≡◌};
ghost use Rattle.host.specs.Buses.{PerformsOver};
ghost use Rattle.host.specs.Process.{Performs, bus_of};
ghost use Rattle.host.specs.Transfers.{clears, attaches, recovers};
ghost use Rattle.transport.specs.Toggles.{both_fresh};

use super::bus::Bus;
use super::control::Request;
use super::fault::{Fault, TransportFault};
use super::pipe::Address;
use reader::Reader;
use store::Store;
use transport::{DataDirection, Toggles};
use wire::Wire;

#[derive(Drop)]
pub struct Host {
    pub(crate) toggles: Toggles,
    pub(crate) tag: u32,
}

// Each call says that the tag stays, as its run tells the toggles and the bus only.
impl Host {
    // The tags of commands begin at 1.
    pub fn new() -> Host
        ensures toggles { result.toggles ≡ both_fresh }
        ensures tag { result.tag ≡ 1 }
    {
        Host {
            toggles: Toggles::fresh(),
            tag: 1,
        }
    }

    // Clears a halt, and with it that toggle.
    pub(crate) fn clear_halt<W: Wire, S: Store>(
        &mut self,
        direction: DataDirection,
        bus: &mut Bus<'_, W, S>,
    ) -> Result<(), TransportFault>
        ensures performs { PerformsOver W.Wire S.Store (clears direction self.old.toggles) bus.old (result, self.new.toggles) bus.new }
        ensures tag { self.new.tag ≡ self.old.tag }
    {
        bus.transfer(Address::Assigned, Request::ClearHalt(direction))?;
        self.toggles = self.toggles.reset(direction);
        Ok(())
    }

    // A port reset, address 1, configuration 1. Both toggles are DATA0 then.
    pub fn attach<W: Wire, S: Store>(
        &mut self,
        wire: &mut W,
        reader: &mut Reader<S>,
    ) -> Result<(), Fault>
        ensures performs { Performs (attaches self.old.toggles) (bus_of W.Wire S.Store wire.old reader.old) (result, self.new.toggles) (bus_of W.Wire S.Store wire.new reader.new) }
        ensures tag { self.new.tag ≡ self.old.tag }
    {
        reader.reset();
        let mut bus = Bus { wire, reader };
        bus.transfer(Address::Default, Request::SetAddress)?;
        bus.transfer(Address::Assigned, Request::Configure)?;
        self.toggles = Toggles::fresh();
        Ok(())
    }

    // The transport's reset, and clear halt of both endpoints. Both toggles are DATA0 then.
    pub fn recover<W: Wire, S: Store>(
        &mut self,
        wire: &mut W,
        reader: &mut Reader<S>,
    ) -> Result<(), Fault>
        ensures performs { Performs (recovers self.old.toggles) (bus_of W.Wire S.Store wire.old reader.old) (result, self.new.toggles) (bus_of W.Wire S.Store wire.new reader.new) }
        ensures tag { self.new.tag ≡ self.old.tag }
    {
        let mut bus = Bus { wire, reader };
        bus.transfer(Address::Assigned, Request::ResetTransport)?;
        bus.transfer(Address::Assigned, Request::ClearHalt(DataDirection::In))?;
        bus.transfer(Address::Assigned, Request::ClearHalt(DataDirection::Out))?;
        self.toggles = Toggles::fresh();
        Ok(())
    }
}
