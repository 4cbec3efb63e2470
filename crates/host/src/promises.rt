// What holds of every run of the host's layers. The functions do nothing; their contracts are the laws, and the check fails
// without their proofs. `host_laws` says the same of any endpoint, but less: there some packet waits before the fetched one, and
// here it is known which. To derive the law of deliveries here from the one there would take as long as its own proof.
ghost use Rattle.host.specs.Deliveries.{FailedDeliveriesArePaidFor};
ghost use Rattle.host.specs.Fetches.{FailedFetchesArePaidFor};

// A packet sent to the reader has been taken once, or each failed try had a spoiled packet; for any number of tries.
pub fn failed_deliveries_are_paid_for()
    ensures { FailedDeliveriesArePaidFor }
{}

// A packet fetched from the reader has come, or each failed try was paid for by a spoiled packet, or by the spoiled ACK of
// the packet before it; for any number of tries.
pub fn failed_fetches_are_paid_for()
    ensures { FailedFetchesArePaidFor }
{}
