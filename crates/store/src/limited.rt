// A plain disk that takes so many writes and is then full.
ghost use Rattle.std.specs.Prelude.{◌≡◌, length};
ghost use Rattle.store.specs.Access.{write_answer, write_sectors, VerdictsKept};
ghost use Rattle.store.specs.Plain.{plain_size, plain_sectors, plain_verdict, plain_memory};
ghost use Rattle.store.specs.Limited.{limited_verdict, left_after};
ghost use Rattle.store.specs.PlainLaws.{plain_bounds, plain_count, plain_lengths};

use super::{PlainDisk, Store, StoreRefusal, Verdict, allowed};

// Each write that the disk takes uses one of the writes left.
#[derive(Drop)]
pub struct LimitedDisk {
    disk: PlainDisk,
    left: u32,
}

impl LimitedDisk {
    pub fn new(disk: PlainDisk, writes: u32) -> LimitedDisk
        ensures disk { result.disk ≡ disk }
        ensures left { result.left ≡ writes }
    {
        Self { disk, left: writes }
    }

    // The disk back, as it was given but for the writes that were taken.
    pub fn into_disk(self) -> PlainDisk
        ensures { result ≡ self.disk }
    {
        let LimitedDisk { disk, left: _ } = self;
        disk
    }
}

impl Store for LimitedDisk {
    ghost size = { λ l. plain_size l.disk.memory.items };

    ghost sectors = { λ l. plain_sectors l.disk.memory.items };

    ghost verdict = { λ l _ _. limited_verdict l.left (plain_verdict l.disk.memory.items) };

    ghost bounds = { λ l. plain_bounds l.disk.memory.items };

    ghost count = { λ l. plain_count l.disk.memory.items };

    ghost lengths = { λ l i h. plain_lengths l.disk.memory.items i h };

    fn sector_count(&self) -> u32 {
        self.disk.sector_count()
    }

    fn read_sector(&self, sector: u32, into: &mut [u8]) -> Result<(), StoreRefusal> {
        self.disk.read_sector(sector, into)
    }

    fn write_sector(&mut self, sector: u32, from: &[u8]) -> Result<Verdict, StoreRefusal>
        ensures answer { result ≡ write_answer (plain_size self.old.disk.memory.items) sector (length from.now) (limited_verdict self.old.left (plain_verdict self.old.disk.memory.items)) }
        ensures size { plain_size self.new.disk.memory.items ≡ plain_size self.old.disk.memory.items }
        ensures sectors { plain_sectors self.new.disk.memory.items ≡ write_sectors result (plain_sectors self.old.disk.memory.items) sector from.now }
        ensures verdicts { VerdictsKept result (λ _ _. limited_verdict self.old.left (plain_verdict self.old.disk.memory.items)) (λ _ _. limited_verdict self.new.left (plain_verdict self.new.disk.memory.items)) }
        ensures memory { self.new.disk.memory.items ≡ plain_memory result self.old.disk.memory.items sector from.now }
        ensures left { self.new.left ≡ left_after result self.old.left }
    {
        if self.left == 0 {
            allowed(self.sector_count(), sector, from.len())?;
            return Ok(Verdict::Full);
        }
        let verdict = self.disk.write_sector(sector, from)?;
        if verdict == Verdict::Taken {
            self.left -= 1;
        }
        Ok(verdict)
    }
}
