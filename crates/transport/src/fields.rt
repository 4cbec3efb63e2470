// The fields of a block, a command or a reply: so many bytes, from a place on.
ghost use Rattle.std.specs.Prelude.{◌≡◌, ◌+◌, ◌≤◌, length, take, drop};
ghost use Rattle.transport.specs.Numbers.{field_at};

// Where the bytes are a number, it stands low byte first in blocks, and high byte first in commands and in the capacity
// reply.
#[tactic(auto, using(crate::proofs::Bytes::taken))]
pub(crate) fn field<const N: usize>(bytes: &[u8], at: usize) -> [u8; N]
    requires { at + N ≤ length bytes.now }
    ensures part { result ≡ take N (drop at bytes.now) }
    ensures each { result ≡ field_at N at bytes.now }
{
    let mut field = [0; N];
    field.copy_from_slice(&bytes[at..at + N]);
    field
}
