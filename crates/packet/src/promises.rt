// What is promised of packets as a whole. Each function does nothing; its contract is a law over the definitions that
// the contracts of reading, building and the registers cite, and the check fails without the law's proof.
ghost use Rattle.packet.specs.Promises.{
  ReadingABuiltPacketReturnsItsParts,
  OnlyBuiltPacketsAreAccepted,
  OneChangedBitGivesAWrongCheck,
  OneChangedBitIsNoPacket,
  ARefusalIs20To24,
  TheWorkedCasesComeOut,
};

use super::register::Check;

pub fn reading_a_built_packet_returns_its_parts()
    ensures { ReadingABuiltPacketReturnsItsParts }
{}

pub fn only_built_packets_are_accepted()
    ensures { OnlyBuiltPacketsAreAccepted }
{}

// For every register that keeps the law of a register.
pub fn one_changed_bit_gives_a_wrong_check<R: Check>()
    ensures { OneChangedBitGivesAWrongCheck R.WIDTH R.GENERATOR }
{}

pub fn one_changed_bit_is_no_packet()
    ensures { OneChangedBitIsNoPacket }
{}

pub fn a_refusal_is_20_to_24()
    ensures { ARefusalIs20To24 }
{}

pub fn the_worked_cases_come_out()
    ensures { TheWorkedCasesComeOut }
{}
