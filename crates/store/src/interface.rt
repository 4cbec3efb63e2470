// The interface of a store. Everything above a store is proved against what is said here, and nothing else.
ghost use Rattle.std.specs.Prelude.{◌≡◌, ℕ, ◌<◌, ◌≤◌, List, [], length, slice_index_or};
ghost use Rattle.store.specs.declared.answers.Verdict.{Verdict};
ghost use Rattle.store.specs.Access.{read_answer, read_memory, write_answer, write_sectors, VerdictsKept};

use super::{StoreRefusal, Verdict};

// What a store means is three ghost members: its size, its sectors and its verdicts.
pub trait Store {
    // How many sectors it has: 1 to 65,536.
    ghost size: { Self → ℕ };

    // What they hold: so many lists of 512 bytes.
    ghost sectors: { Self → List (List ℕ) };

    // What a write of these 512 bytes to this sector would be answered now.
    ghost verdict: { Self → ℕ → List ℕ → Verdict };

    fn sector_count(&self) -> u32
        ensures { result ≡ size self.now };

    // Copies a sector into memory of 512 bytes, or refuses and leaves the memory alone.
    fn read_sector(&self, sector: u32, into: &mut [u8]) -> Result<(), StoreRefusal>
        ensures answer { result ≡ read_answer (size self.now) sector (length into.old) }
        ensures memory { into.new ≡ read_memory result (sectors self.now) sector into.old };

    // Stores 512 bytes as a sector, if that is the verdict; on any other verdict, and on a refusal, nothing changes.
    fn write_sector(&mut self, sector: u32, from: &[u8]) -> Result<Verdict, StoreRefusal>
        ensures answer { result ≡ write_answer (size self.old) sector (length from.now) (verdict self.old sector from.now) }
        ensures size { size self.new ≡ size self.old }
        ensures sectors { sectors self.new ≡ write_sectors result (sectors self.old) sector from.now }
        ensures verdicts { VerdictsKept result (verdict self.old) (verdict self.new) };

    ghost bounds: { (s : Self) → (1 ≤ size s) × (size s ≤ 65536) };

    ghost count: { (s : Self) → length (sectors s) ≡ size s };

    ghost lengths: { (s : Self) (i : ℕ) → i < size s → length (slice_index_or (sectors s) i []) ≡ 512 };
}
