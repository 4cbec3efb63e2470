// Why bytes are no block, or why a block cannot be built, each with its number.
ghost use Rattle.std.specs.Prelude.{◌≡◌, Some};
ghost use Rattle.transport.specs.Refusals.{refusal_number, refusal_text};

use std::fmt;

#[derive(Clone, Copy, PartialEq, Eq)]
pub enum TransportRefusal {
    BadCommandBlock,
    BadStatusBlock,
    WrongTag,
    BadStatus,
}

impl From<TransportRefusal> for u8 {
    ghost from_gives = { λ refusal number. number ≡ refusal_number refusal };

    fn from(refusal: TransportRefusal) -> u8 {
        match refusal {
            TransportRefusal::BadCommandBlock => 30,
            TransportRefusal::BadStatusBlock => 33,
            TransportRefusal::WrongTag => 34,
            TransportRefusal::BadStatus => 35,
        }
    }
}

impl fmt::Display for TransportRefusal {
    ghost output = { λ refusal. Some (refusal_text refusal) };

    fn fmt<W: fmt::Write>(&self, f: &mut fmt::Formatter<W>) -> fmt::Result {
        write!(f, "refused {}", u8::from(*self))
    }
}
