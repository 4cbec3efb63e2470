// Why a line is not understood, and why no step is read of it.
ghost use Rattle.std.specs.Prelude.{◌≡◌, Some};
ghost use Rattle.script.specs.declared.misread.ReadError.TheVariants.{Misread as NotUnderstood, Memory};
ghost use Rattle.script.specs.Misreads.{misread_text};

use std::alloc::{AllocError, AllocFailed};
use std::fmt;

#[derive(Clone, Copy)]
pub enum Misread {
    UnknownStep,
    UnknownKind,
    NotACable,
    NotAPort,
    NotADirection,
    NotAByte,
    NotANumber,
    MissingWord,
    ExtraWord,
}

impl Misread {
    pub fn message(self) -> &'static str
        ensures { result.now ≡ misread_text self }
    {
        match self {
            Misread::UnknownStep => "no step has this name",
            Misread::UnknownKind => "no packet of this sort has this kind",
            Misread::NotACable => "a cable is 1 or 2",
            Misread::NotAPort => "a port is open or closed",
            Misread::NotADirection => "bytes go outward or homeward",
            Misread::NotAByte => "a byte is two hexadecimal digits in lower case",
            Misread::NotANumber => "a number is decimal digits",
            Misread::MissingWord => "a word is missing",
            Misread::ExtraWord => "a word too many",
        }
    }
}

impl fmt::Display for Misread {
    ghost output = { λ why. Some (misread_text why) };

    fn fmt<W: fmt::Write>(&self, f: &mut fmt::Formatter<W>) -> fmt::Result {
        f.write_str(self.message())
    }
}

// A line that is not understood, or want of memory.
#[derive(Drop)]
pub enum ReadError {
    Misread(Misread),
    Memory(AllocError),
}

impl From<Misread> for ReadError {
    ghost from_gives = { λ why e. e ≡ NotUnderstood why };

    fn from(why: Misread) -> ReadError {
        ReadError::Misread(why)
    }
}

impl From<AllocError> for ReadError {
    ghost from_gives = { λ error e. e ≡ Memory error };

    fn from(error: AllocError) -> ReadError {
        ReadError::Memory(error)
    }
}

impl<T: Drop> From<AllocFailed<T>> for ReadError {
    ghost from_gives = { λ _ e. e ≡ Memory (record {}) };

    fn from(failed: AllocFailed<T>) -> ReadError {
        ReadError::Memory(AllocError::from(failed))
    }
}
