// The functions do nothing; their contracts are the laws, and the check fails without their proofs.
ghost use Rattle.host_laws.specs.Deliveries.{FailedDeliveriesArePaidFor, AHaltedEndpointRefusesData};
ghost use Rattle.host_laws.specs.Fetches.{FailedFetchesArePaidFor, AHaltedEndpointSendsNothing};
ghost use Rattle.host_laws.specs.Transfers.{AControlTransferIsDoneOrPaidFor, AttachingPutsTheEndsInStep, RecoveringPutsTheEndsInStep};
ghost use Rattle.host_laws.specs.Stages.{ABlockIsTakenOrIsPaidFor, AStatusIsHeardOrIsPaidFor};
ghost use Rattle.host_laws.specs.Commands.{ATestPassesOrIsPaidFor, ACapacityIsTheSizeOrIsPaidFor, AReadHasTheSectorsOrIsPaidFor, AWritePutsItsSectorsOrIsPaidFor};

// A packet sent to the reader has been taken once, or each failed try had a spoiled packet; for any number of tries.
pub fn failed_deliveries_are_paid_for()
    ensures { FailedDeliveriesArePaidFor }
{}

// Data sent to a halted endpoint meet STALL, or each failed try had a spoiled packet.
pub fn a_halted_endpoint_refuses_data()
    ensures { AHaltedEndpointRefusesData }
{}

// A packet fetched from the reader has come, or each failed try was paid for by a spoiled packet, or by the spoiled ACK of
// the packet before it; for any number of tries.
pub fn failed_fetches_are_paid_for()
    ensures { FailedFetchesArePaidFor }
{}

// What is fetched from a halted endpoint is STALL, or each failed try had a spoiled packet.
pub fn a_halted_endpoint_sends_nothing()
    ensures { AHaltedEndpointSendsNothing }
{}

// The block of a command has been taken once, or three packets at least were spoiled.
pub fn a_block_is_taken_or_is_paid_for()
    ensures { ABlockIsTakenOrIsPaidFor }
{}

// A status is heard as it was made, and the ends are in step again; or three packets at least were spoiled.
pub fn a_status_is_heard_or_is_paid_for()
    ensures { AStatusIsHeardOrIsPaidFor }
{}

// A test passes and leaves the disk alone, with the ends in step again; or three packets at least were spoiled.
pub fn a_test_passes_or_is_paid_for()
    ensures { ATestPassesOrIsPaidFor }
{}

// A control transfer that changes only the bulk endpoints of a reader at address 1 is done with its effect, or it was given
// up with three spoiled packets at least.
pub fn a_control_transfer_is_done_or_paid_for()
    ensures { AControlTransferIsDoneOrPaidFor }
{}

// Recovering from any state of a reader at address 1 puts the ends in step with both toggles DATA0, or it was given up with
// three spoiled packets at least.
pub fn recovering_puts_the_ends_in_step()
    ensures { RecoveringPutsTheEndsInStep }
{}

// Attaching from any state of any reader puts the ends in step with both toggles DATA0, or it was given up with three spoiled
// packets at least.
pub fn attaching_puts_the_ends_in_step()
    ensures { AttachingPutsTheEndsInStep }
{}

// A capacity passes with the disk's size and leaves the disk alone, with the ends in step again; or three packets at least
// were spoiled.
pub fn a_capacity_is_the_size_or_is_paid_for()
    ensures { ACapacityIsTheSizeOrIsPaidFor }
{}

// A read passes with the bytes of its sectors, or fails because it reaches past the size, with the ends in step again and
// the disk left alone; or three packets at least were spoiled.
pub fn a_read_has_the_sectors_or_is_paid_for()
    ensures { AReadHasTheSectorsOrIsPaidFor }
{}

// A write passes with all its sectors put, or fails with so many of the first put and the others counted, with the ends in
// step again; or it is given up with a leading run of them put, and three packets at least were spoiled.
pub fn a_write_puts_its_sectors_or_is_paid_for()
    ensures { AWritePutsItsSectorsOrIsPaidFor }
{}
