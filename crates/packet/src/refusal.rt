// Why bytes are no packet, or why a packet cannot be built, each with its number.
ghost use Rattle.std.specs.Prelude.{◌≡◌, Some};
ghost use Rattle.packet.specs.Refusals.{refusal_number, refused_text};

use std::fmt;

#[derive(Clone, Copy, PartialEq, Eq)]
pub enum Refusal {
    NoBytes,
    WrongComplement,
    UnknownKind,
    WrongLength,
    TooWide,
    WrongCheck,
}

impl From<Refusal> for u8 {
    ghost from_gives = { λ refusal number. number ≡ refusal_number refusal };

    fn from(refusal: Refusal) -> u8 {
        match refusal {
            Refusal::NoBytes => 20,
            Refusal::WrongComplement => 21,
            Refusal::UnknownKind => 22,
            Refusal::WrongLength => 23,
            Refusal::TooWide => 23,
            Refusal::WrongCheck => 24,
        }
    }
}

impl fmt::Display for Refusal {
    ghost output = { λ refusal. Some (refused_text (refusal_number refusal)) };

    fn fmt<W: fmt::Write>(&self, f: &mut fmt::Formatter<W>) -> fmt::Result {
        let number = u8::from(*self);
        write!(f, "refused {number}")
    }
}
