// What is promised of the formats as a whole. Each function does nothing; its contract is a law over the definitions
// that the contracts of building and reading cite, and the check fails without the law's proof.
ghost use Rattle.transport.specs.Promises.{
  ReadingABuiltCommandBlockReturnsIt,
  OnlyBuiltCommandBlocksAreAccepted,
  ReadingABuiltStatusBlockReturnsIt,
  OnlyBuiltStatusBlocksAreAccepted,
  ReadingABuiltCommandReturnsIt,
  EveryCommandFitsABlock,
  ReadingABuiltCapacityReturnsTheSize,
  TheWorkedCasesComeOut,
};

pub fn reading_a_built_command_block_returns_it()
    ensures { ReadingABuiltCommandBlockReturnsIt }
{}

pub fn only_built_command_blocks_are_accepted()
    ensures { OnlyBuiltCommandBlocksAreAccepted }
{}

pub fn reading_a_built_status_block_returns_it()
    ensures { ReadingABuiltStatusBlockReturnsIt }
{}

pub fn only_built_status_blocks_are_accepted()
    ensures { OnlyBuiltStatusBlocksAreAccepted }
{}

pub fn reading_a_built_command_returns_it()
    ensures { ReadingABuiltCommandReturnsIt }
{}

pub fn every_command_fits_a_block()
    ensures { EveryCommandFitsABlock }
{}

pub fn reading_a_built_capacity_returns_the_size()
    ensures { ReadingABuiltCapacityReturnsTheSize }
{}

pub fn the_worked_cases_come_out()
    ensures { TheWorkedCasesComeOut }
{}
