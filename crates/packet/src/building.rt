// Building a packet into the bytes that are sent.
ghost use Rattle.std.specs.Prelude.{◌≡◌, ◌≤◌, length};
ghost use Rattle.packet.specs.Building.{building, built_memory, build_answer, build_memory};
ghost use Rattle.packet.specs.Parts.{parts, token, data_packet, handshake};

use super::check::{body_check, token_check};
use super::{DataKind, Handshake, Kind, Packet, Refusal, TokenKind, WellFormed};

impl Packet<'_> {
    // A part that is too wide for its field is refused, and the memory is left alone. The memory is a fixed one, with the
    // length beside it, since packets are built without a heap.
    pub fn build(self, out: &mut [u8; 67]) -> Result<usize, Refusal>
        ensures answer { result ≡ build_answer (parts self.entry) }
        ensures memory { out.new ≡ build_memory (parts self.entry) out.old }
    {
        Ok(WellFormed::new(self)?.build(out))
    }
}

impl WellFormed<'_> {
    // Fills the front of the memory with the packet's bytes and the rest with zeros, and answers how many bytes the
    // packet has.
    #[inline(always)]
    pub fn build(self, out: &mut [u8; 67]) -> usize
        ensures count { result ≡ length (building (parts self.entry.packet)) }
        ensures memory { out.new ≡ built_memory (parts self.entry.packet) }
    {
        match self.packet {
            Packet::Token {
                kind,
                address,
                endpoint,
            } => build_token(kind, address, endpoint, out),
            Packet::Data { kind, body } => build_data(kind, body, out),
            Packet::Handshake(handshake) => build_handshake(handshake, out),
        }
    }
}

#[tactic(auto, unfolding(crate::specs::Building::building))]
fn build_token(kind: TokenKind, address: u8, endpoint: u8, out: &mut [u8; 67]) -> usize
    requires { (address ≤ 127) × (endpoint ≤ 15) }
    ensures count { result ≡ length (building (token kind address endpoint)) }
    ensures memory { out.new ≡ built_memory (token kind address endpoint) }
{
    let word = u16::from(address)
        + u16::from(endpoint) * 128
        + token_check(address, endpoint) * 2048;
    let [low, high] = word.to_le_bytes();
    *out = [0; 67];
    out[0] = u8::from(Kind::Token(kind));
    out[1] = low;
    out[2] = high;
    3
}

fn build_data(kind: DataKind, body: &[u8], out: &mut [u8; 67]) -> usize
    requires { length body.now ≤ 64 }
    ensures count { result ≡ length (building (data_packet kind body.now)) }
    ensures memory { out.new ≡ built_memory (data_packet kind body.now) }
{
    let length = body.len();
    let [low, high] = body_check(body).to_le_bytes();
    *out = [0; 67];
    out[0] = u8::from(Kind::Data(kind));
    out[1..length + 1].copy_from_slice(body);
    out[length + 1] = low;
    out[length + 2] = high;
    length + 3
}

#[tactic(auto, unfolding(crate::specs::Building::building))]
fn build_handshake(kind: Handshake, out: &mut [u8; 67]) -> usize
    ensures count { result ≡ length (building (handshake kind)) }
    ensures memory { out.new ≡ built_memory (handshake kind) }
{
    *out = [0; 67];
    out[0] = u8::from(Kind::Handshake(kind));
    1
}
