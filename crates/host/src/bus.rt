// The bus as the host has it, and one exchange over it: a packet goes out, the reader hears what arrives, and its answer
// goes home.
ghost use Rattle.packet.specs.Parts.{parts};
ghost use Rattle.packet.specs.Reading.{reading};
ghost use Rattle.host.specs.Buses.{PerformsOver};
ghost use Rattle.host.specs.Process.{sends};

use packet::WellFormed;
use reader::Reader;
use store::Store;
use wire::{Direction, Wire};

// A wire, and the reader at its far end.
#[derive(Drop)]
pub(crate) struct Bus<'a, W: Wire, S: Store> {
    pub(crate) wire: &'a mut W,
    pub(crate) reader: &'a mut Reader<S>,
}

impl<W: Wire, S: Store> Bus<'_, W, S> {
    // Answers what came home, in the front of the memory. There is no heap: the wire and the reader fill memory of a fixed
    // size, and answer how much of it.
    pub(crate) fn exchange<'h>(
        &mut self,
        packet: WellFormed<'_>,
        memory: &'h mut [u8; 67],
    ) -> &'h [u8]
        ensures { PerformsOver W.Wire S.Store (sends (parts packet.entry.packet)) self.old (reading result.now) self.new }
    {
        let mut sent = [0; 67];
        let length = packet.build(&mut sent);
        let arrived = self.wire.carry(Direction::Outward, &sent[..length], memory);
        let mut answer = [0; 67];
        let answered = self.reader.hear(&memory[..arrived], &mut answer);
        let home = self
            .wire
            .carry(Direction::Homeward, &answer[..answered], memory);
        &memory[..home]
    }
}
