// A plain disk: a store over memory that its owner brings and gets back.
ghost use Rattle.std.specs.Prelude.{◌≡◌, ◌+◌, ◌*◌, ◌≤◌, length, nat_lt};
ghost use Rattle.store.specs.Access.{write_answer, write_sectors, VerdictsKept};
ghost use Rattle.store.specs.Plain.{plain_size, plain_sectors, plain_verdict, plain_memory, overlaid};
ghost use Rattle.store.specs.PlainLaws.{plain_bounds, plain_count, plain_lengths};

use super::{BlankSector, MOST_SECTORS, SECTOR_BYTES, Store, StoreRefusal, Verdict, allowed};

// It has the memory's whole sectors, at most 65,536 of them, and takes every write. Spare bytes behind the sectors stay.
// Memory below one sector stands for a blank sector that is locked.
#[derive(Drop)]
pub struct PlainDisk {
    memory: Vec<u8>,
}

impl PlainDisk {
    pub fn new(memory: Vec<u8>) -> PlainDisk
        ensures { result.memory ≡ memory }
    {
        Self { memory }
    }

    pub fn memory(&self) -> &[u8]
        ensures { result.now ≡ self.now.memory.items }
    {
        self.memory.as_slice()
    }

    // The memory back, as it was given but for the writes that were taken.
    pub fn into_memory(self) -> Vec<u8>
        ensures { result ≡ self.memory }
    {
        let PlainDisk { memory } = self;
        memory
    }

    // Whether the memory is below one sector.
    fn is_blank(&self) -> bool
        ensures { result ≡ nat_lt (length self.now.memory.items) 512 }
    {
        self.memory.len() < SECTOR_BYTES
    }
}

impl Store for PlainDisk {
    ghost size = { λ d. plain_size d.memory.items };

    ghost sectors = { λ d. plain_sectors d.memory.items };

    ghost verdict = { λ d _ _. plain_verdict d.memory.items };

    ghost bounds = { λ d. plain_bounds d.memory.items };

    ghost count = { λ d. plain_count d.memory.items };

    ghost lengths = { λ d i h. plain_lengths d.memory.items i h };

    fn sector_count(&self) -> u32 {
        if self.is_blank() {
            return BlankSector.sector_count();
        }
        (self.memory.len() / SECTOR_BYTES).min(MOST_SECTORS) as u32
    }

    fn read_sector(&self, sector: u32, into: &mut [u8]) -> Result<(), StoreRefusal> {
        if self.is_blank() {
            return BlankSector.read_sector(sector, into);
        }
        allowed(self.sector_count(), sector, into.len())?;
        let start = start_of(sector);
        into.copy_from_slice(&self.memory[start..start + SECTOR_BYTES]);
        Ok(())
    }

    fn write_sector(&mut self, sector: u32, from: &[u8]) -> Result<Verdict, StoreRefusal>
        ensures answer { result ≡ write_answer (plain_size self.old.memory.items) sector (length from.now) (plain_verdict self.old.memory.items) }
        ensures size { plain_size self.new.memory.items ≡ plain_size self.old.memory.items }
        ensures sectors { plain_sectors self.new.memory.items ≡ write_sectors result (plain_sectors self.old.memory.items) sector from.now }
        ensures verdicts { VerdictsKept result (λ _ _. plain_verdict self.old.memory.items) (λ _ _. plain_verdict self.new.memory.items) }
        ensures memory { self.new.memory.items ≡ plain_memory result self.old.memory.items sector from.now }
    {
        if self.is_blank() {
            let mut blank = BlankSector;
            return blank.write_sector(sector, from);
        }
        allowed(self.sector_count(), sector, from.len())?;
        lay_over(self.memory.as_mut_slice(), start_of(sector), from);
        Ok(Verdict::Taken)
    }
}

// Where a sector begins in the memory.
fn start_of(sector: u32) -> usize
    ensures { result ≡ sector * 512 }
{
    sector as usize * SECTOR_BYTES
}

// Puts the bytes into the memory from this place on, in place of as many.
fn lay_over(memory: &mut [u8], start: usize, bytes: &[u8])
    requires { start + length bytes.now ≤ length memory.old }
    ensures { memory.new ≡ overlaid memory.old start bytes.now }
{
    memory[start..start + bytes.len()].copy_from_slice(bytes);
}
