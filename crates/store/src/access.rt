// Whether an access is allowed: the one place that tests what every store refuses, in the order in which it is refused.
ghost use Rattle.std.specs.Prelude.{◌≡◌};
ghost use Rattle.store.specs.Access.{access};

use super::StoreRefusal;

pub const SECTOR_BYTES: usize = 512;

pub const MOST_SECTORS: usize = 65_536;

// The sector has to be one of so many, and then the buffer one sector long.
pub fn allowed(size: u32, sector: u32, buffer: usize) -> Result<(), StoreRefusal>
    ensures { result ≡ access size sector buffer tt }
{
    if sector >= size {
        return Err(StoreRefusal::PastTheEnd);
    }
    if buffer != SECTOR_BYTES {
        return Err(StoreRefusal::WrongBuffer);
    }
    Ok(())
}
