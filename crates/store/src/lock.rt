// A lock on any store: it shows that store's sectors and takes no writes.
ghost use Rattle.std.specs.Prelude.{◌≡◌, length};
ghost use Rattle.store.specs.declared.answers.Verdict.TheVariants.{Locked};
ghost use Rattle.store.specs.Access.{write_answer, write_sectors, VerdictsKept};

use super::{Store, StoreRefusal, Verdict, allowed};

#[derive(Drop)]
pub struct Lock<S: Store> {
    store: S,
}

impl<S: Store> Lock<S> {
    pub fn new(store: S) -> Lock<S>
        ensures { result.store ≡ store }
    {
        Self { store }
    }

    // The store back, as it was given.
    pub fn into_store(self) -> S
        ensures { result ≡ self.store }
    {
        let Lock { store } = self;
        store
    }
}

impl<S: Store> Store for Lock<S> {
    ghost size = { λ l. S.Store.size l.store };

    ghost sectors = { λ l. S.Store.sectors l.store };

    ghost verdict = { λ _ _ _. Locked };

    ghost bounds = { λ l. S.Store.bounds l.store };

    ghost count = { λ l. S.Store.count l.store };

    ghost lengths = { λ l i h. S.Store.lengths l.store i h };

    fn sector_count(&self) -> u32 {
        self.store.sector_count()
    }

    fn read_sector(&self, sector: u32, into: &mut [u8]) -> Result<(), StoreRefusal> {
        self.store.read_sector(sector, into)
    }

    // The store itself stays as it was, and not just what it shows.
    fn write_sector(&mut self, sector: u32, from: &[u8]) -> Result<Verdict, StoreRefusal>
        ensures answer { result ≡ write_answer (S.Store.size self.old.store) sector (length from.now) Locked }
        ensures size { S.Store.size self.new.store ≡ S.Store.size self.old.store }
        ensures sectors { S.Store.sectors self.new.store ≡ write_sectors result (S.Store.sectors self.old.store) sector from.now }
        ensures verdicts { VerdictsKept result (λ _ _. Locked) (λ _ _. Locked) }
        ensures store { self.new.store ≡ self.old.store }
    {
        allowed(self.sector_count(), sector, from.len())?;
        Ok(Verdict::Locked)
    }
}
