// The checks of tokens and of bodies, each made by its register.
ghost use Rattle.std.specs.Prelude.{◌≡◌, ◌^◌, ◌<◌};
ghost use Rattle.packet.specs.Building.{token_check, body_check};

use super::register::{Crc5, Crc16, Register};

// The check over a token's address, 7 bits, and endpoint, 4 bits.
pub fn token_check(address: u8, endpoint: u8) -> u16
    ensures check { result ≡ token_check address endpoint }
    ensures width { result < 2 ^ 5 }
{
    let mut register = Register::new(Crc5);
    register.take_low_bits(address, 7);
    register.take_low_bits(endpoint, 4);
    register.check()
}

// The check over a body's bytes.
pub fn body_check(body: &[u8]) -> u16
    ensures { result ≡ body_check body.now }
{
    let mut register = Register::new(Crc16);
    register.take_bytes(body);
    register.check()
}
