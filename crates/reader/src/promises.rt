// What is promised of the reader as a whole. Each function does nothing; its contract is a law over the definition that
// the contract of `Reader::hear` cites, and the check fails without the law's proof.
ghost use Rattle.reader.specs.Promises.{
  ARepeatChangesNothing,
  AnAnswerIsNothingOrABuiltPacket,
  OnlyACompletedSectorReachesTheDisk,
  ResetRecoveryEndsEveryHaltAndCommand,
  WhatDoesNotReachTheBulkEndpointsWritesNothing,
  AnUnacknowledgedPacketIsSentAgainUnchanged,
  AStatusAnswersItsCommand,
};

pub fn a_repeat_changes_nothing()
    ensures { ARepeatChangesNothing }
{}

pub fn an_answer_is_nothing_or_a_built_packet()
    ensures { AnAnswerIsNothingOrABuiltPacket }
{}

pub fn only_a_completed_sector_reaches_the_disk()
    ensures { OnlyACompletedSectorReachesTheDisk }
{}

pub fn reset_recovery_ends_every_halt_and_command()
    ensures { ResetRecoveryEndsEveryHaltAndCommand }
{}

pub fn what_does_not_reach_the_bulk_endpoints_writes_nothing()
    ensures { WhatDoesNotReachTheBulkEndpointsWritesNothing }
{}

pub fn an_unacknowledged_packet_is_sent_again_unchanged()
    ensures { AnUnacknowledgedPacketIsSentAgainUnchanged }
{}

pub fn a_status_answers_its_command()
    ensures { AStatusAnswersItsCommand }
{}
