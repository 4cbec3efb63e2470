// How many vectors agreed and how many differed.
use std::fmt;
use std::ops::AddAssign;

#[derive(Clone, Copy, Default)]
pub struct Score {
    agreed: u32,
    differed: u32,
}

impl Score {
    pub fn count(&mut self, agrees: bool) {
        if agrees {
            self.agreed = self.agreed.saturating_add(1);
        } else {
            self.differed = self.differed.saturating_add(1);
        }
    }

    pub fn any_differed(self) -> bool {
        self.differed != 0
    }
}

impl AddAssign for Score {
    fn add_assign(&mut self, more: Score) {
        self.agreed = self.agreed.saturating_add(more.agreed);
        self.differed = self.differed.saturating_add(more.differed);
    }
}

impl fmt::Display for Score {
    fn fmt<W: fmt::Write>(&self, f: &mut fmt::Formatter<W>) -> fmt::Result {
        write!(f, "{} agree, {} differ", self.agreed, self.differed)
    }
}
