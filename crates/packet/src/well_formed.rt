// A packet whose parts fit their fields: it can always be built.
ghost use Rattle.std.specs.Prelude.{◌≡◌, ◌↔◌, true, IsOk, IfOk, IfErr};
ghost use Rattle.packet.specs.Bodies.{held};
ghost use Rattle.packet.specs.Building.{can_be_built};
ghost use Rattle.packet.specs.Parts.{parts, data_packet, handshake};
ghost use Rattle.packet.specs.declared.refusal.Refusal.TheVariants.{TooWide};

use super::{Body, DataKind, Handshake, Packet, Refusal};

#[derive(Clone, Copy)]
pub struct WellFormed<'a> {
    pub packet: Packet<'a>,
    pub ghost fits: { can_be_built (parts packet) ≡ true },
}

impl Packet<'_> {
    // Whether each part fits its field.
    #[inline(always)]
    fn fits(self) -> bool
        ensures { result ≡ can_be_built (parts self.entry) }
    {
        match self {
            Packet::Token {
                kind: _,
                address,
                endpoint,
            } => address <= 127 && endpoint <= 15,
            Packet::Data { kind: _, body } => body.len() <= 64,
            Packet::Handshake(_) => true,
        }
    }
}

impl<'a> WellFormed<'a> {
    // Not a `TryFrom`: the clauses say by name when there is a result, what it is, and which refusal there is otherwise.
    #[inline(always)]
    pub fn new(packet: Packet<'a>) -> Result<Self, Refusal>
        ensures variant { IsOk result ↔ (can_be_built (parts packet.entry) ≡ true) }
        ensures ok { IfOk result (λ well_formed. well_formed.packet ≡ packet.entry) }
        ensures err { IfErr result (λ refusal. refusal ≡ TooWide) }
    {
        if packet.fits() {
            Ok(WellFormed { packet })
        } else {
            Err(Refusal::TooWide)
        }
    }

    pub fn data(kind: DataKind, body: &'a Body) -> Self
        ensures { parts result.packet ≡ data_packet kind (held body.now) }
    {
        WellFormed {
            packet: Packet::data(kind, body.as_slice()),
        }
    }

    pub fn handshake(kind: Handshake) -> Self
        ensures { parts result.packet ≡ handshake kind }
    {
        WellFormed {
            packet: Packet::handshake(kind),
        }
    }
}
