// The capacity reply, by which the device tells how many sectors it has. A size is a plain number, so these are functions
// and no conversions.
ghost use Rattle.std.specs.Prelude.{◌≡◌};
ghost use Rattle.transport.specs.Capacity.{capacity_bytes, capacity_of};

use super::fields::field;

const SECTOR_BYTES: u32 = 512;

// The last sector that a device here can have.
const HIGHEST_SECTOR: u32 = 65_535;

// The reply names the last sector, and the 512 bytes of a sector. Without a sector there is no last one: the reply is
// then that of one sector.
#[tactic(auto, unfolding(crate::specs::Capacity::capacity_bytes))]
pub fn capacity_reply(size: u32) -> [u8; 8]
    ensures { result ≡ capacity_bytes size }
{
    let mut reply = [0; 8];
    reply[0..4].copy_from_slice(&size.saturating_sub(1).to_be_bytes());
    reply[4..8].copy_from_slice(&SECTOR_BYTES.to_be_bytes());
    reply
}

// The number of sectors that a reply tells: at most 65,536, of 512 bytes each.
#[tactic(auto, unfolding(crate::specs::Capacity::capacity_of))]
pub fn read_capacity(bytes: &[u8]) -> Option<u32>
    ensures { result ≡ capacity_of bytes.now }
{
    if bytes.len() != 8 || u32::from_be_bytes(field(bytes, 4)) != SECTOR_BYTES {
        return None;
    }
    let last = u32::from_be_bytes(field(bytes, 0));
    if last > HIGHEST_SECTOR {
        return None;
    }
    Some(last + 1)
}
