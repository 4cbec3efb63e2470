// The store that stands for a disk with no memory: one blank sector that takes no writes.
ghost use Rattle.std.specs.Prelude.{[], ◌∷◌, length};
ghost use Rattle.store.specs.declared.answers.Verdict.TheVariants.{Locked};
ghost use Rattle.store.specs.Plain.{blank};
ghost use Rattle.std.proofs.Common.{refl, ap, ◌∙◌, lit≤};
ghost use Rattle.store.specs.Sectors.{first_of_one, length_blank};

use super::{SECTOR_BYTES, Store, StoreRefusal, Verdict, allowed};

// It owns nothing, so the name of the type is the value.
#[derive(Clone, Copy)]
pub struct BlankSector;

impl Store for BlankSector {
    ghost size = { λ _. 1 };

    ghost sectors = { λ _. blank ∷ [] };

    ghost verdict = { λ _ _ _. Locked };

    ghost bounds = { λ _. (lit≤ tt, lit≤ tt) };

    ghost count = { λ _. refl };

    ghost lengths = { λ _ i h. ap length (first_of_one i h) ∙ length_blank };

    fn sector_count(&self) -> u32 {
        1
    }

    fn read_sector(&self, sector: u32, into: &mut [u8]) -> Result<(), StoreRefusal> {
        allowed(self.sector_count(), sector, into.len())?;
        into.copy_from_slice(&[0u8; SECTOR_BYTES]);
        Ok(())
    }

    fn write_sector(&mut self, sector: u32, from: &[u8]) -> Result<Verdict, StoreRefusal> {
        allowed(self.sector_count(), sector, from.len())?;
        Ok(Verdict::Locked)
    }
}
