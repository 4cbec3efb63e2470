// The arguments of a step: the words after its name, taken one after another as what they must be.
ghost use Rattle.std.specs.Prelude.{◌≡◌, ℕ, List, Result};
ghost use Rattle.script.specs.declared.misread.Misread.{Misread};
ghost use Rattle.script.specs.Arguments.{argument, optional, some_of, all_read, no_more, list_seen};
ghost use Rattle.script.specs.Misreads.{IfRead};
ghost use Rattle.script.specs.Text.{words_left, rest_of};

use super::{Misread, ReadError, Words};
use std::alloc::Global;

// What a word can be read as.
pub(crate) trait Argument {
    type Value: Drop;

    ghost reading: { List ℕ → Result Self.Value Misread };

    fn read(word: &[u8]) -> Result<Self::Value, Misread>
        ensures { result ≡ reading word.now };
}

// What a word may be read as that need not be there.
impl<A: Argument> Argument for Option<A> {
    type Value = Option<A::Value>;

    ghost reading = { λ w. some_of (A.reading w) };

    fn read(word: &[u8]) -> Result<Option<A::Value>, Misread> {
        Ok(Some(A::read(word)?))
    }
}

impl<'a> Words<'a> {
    // The next word, which must be there.
    pub(crate) fn argument<A: Argument>(&mut self) -> Result<A::Value, Misread>
        ensures value { result ≡ argument A.reading (words_left self.old) }
        ensures rest { words_left self.new ≡ rest_of (words_left self.old) }
    {
        match self.next() {
            Some(word) => A::read(word),
            None => Err(Misread::MissingWord),
        }
    }

    // The next word, or this value where there is none.
    pub(crate) fn optional<A: Argument>(&mut self, otherwise: A::Value) -> Result<A::Value, Misread>
        ensures value { result ≡ optional A.reading otherwise (words_left self.old) }
        ensures rest { words_left self.new ≡ rest_of (words_left self.old) }
    {
        match self.next() {
            Some(word) => A::read(word),
            None => Ok(otherwise),
        }
    }

    pub(crate) fn end(mut self) -> Result<(), Misread>
        ensures { result ≡ no_more (words_left self.entry) }
    {
        match self.next() {
            Some(_) => Err(Misread::ExtraWord),
            None => Ok(()),
        }
    }

    // All the words that are left.
    pub(crate) fn read_all<A: Argument>(self, heap: Global) -> Result<Vec<A::Value>, ReadError>
        ensures { IfRead result (λ v. list_seen v ≡ all_read A.reading (words_left self.entry)) }
    {
        let mut values = Vec::new(heap);
        for word in self {
            values.push(A::read(word)?)?;
        }
        Ok(values)
    }
}
