// What holds of every wire. The function does nothing; its contract is the law, and the check fails without its proof.
ghost use Rattle.wire.specs.Delivery.{ABuiltPacketIsDeliveredOrSpoiled};

pub fn a_built_packet_is_delivered_or_spoiled()
    ensures { ABuiltPacketIsDeliveredOrSpoiled }
{}
