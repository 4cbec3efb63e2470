// What a store answers: its verdict on a write, or why it refuses an access, each with its text.
ghost use Rattle.std.specs.Prelude.{◌≡◌, Some};
ghost use Rattle.store.specs.Refusals.{refusal_number, refusal_text, verdict_text};

use std::fmt;

// What becomes of a write that is not refused.
#[derive(Clone, Copy, PartialEq, Eq)]
pub enum Verdict {
    // The bytes are stored.
    Taken,
    // The store takes no writes, and nothing is stored.
    Locked,
    // The store has no room for these bytes, and nothing is stored.
    Full,
}

impl fmt::Display for Verdict {
    ghost output = { λ verdict. Some (verdict_text verdict) };

    fn fmt<W: fmt::Write>(&self, f: &mut fmt::Formatter<W>) -> fmt::Result {
        f.write_str(match self {
            Verdict::Taken => "taken",
            Verdict::Locked => "locked",
            Verdict::Full => "full",
        })
    }
}

#[derive(Clone, Copy, PartialEq, Eq)]
pub enum StoreRefusal {
    PastTheEnd,
    WrongBuffer,
}

impl From<StoreRefusal> for u8 {
    ghost from_gives = { λ refusal number. number ≡ refusal_number refusal };

    fn from(refusal: StoreRefusal) -> u8 {
        match refusal {
            StoreRefusal::PastTheEnd => 11,
            StoreRefusal::WrongBuffer => 12,
        }
    }
}

impl fmt::Display for StoreRefusal {
    ghost output = { λ refusal. Some (refusal_text refusal) };

    fn fmt<W: fmt::Write>(&self, f: &mut fmt::Formatter<W>) -> fmt::Result {
        write!(f, "refused {}", u8::from(*self))
    }
}
