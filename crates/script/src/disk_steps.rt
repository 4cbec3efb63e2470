// The steps of the disk: a new memory for it, a lock over it, and a sector read or written. Each function reads
// the words of one step; what they share is in `Words`.
ghost use Rattle.std.specs.Prelude.{◌≡◌};
ghost use Rattle.script.specs.Arguments.{optional};
ghost use Rattle.script.specs.Numbers.{number_read, most_bytes};
ghost use Rattle.script.specs.Steps.{step_seen, memory_step, lock_step, sector_step, put_step};
ghost use Rattle.script.specs.Text.{words_left, rest_of};

use super::number::{Length, Seed};
use super::{Misread, Step, Words};

pub(crate) fn memory(mut words: Words<'_>) -> Result<Step, Misread>
    ensures { step_seen result ≡ memory_step (words_left words.entry) }
{
    let length = words.argument::<Length>()?;
    let seed = words.optional::<Option<Seed>>(None)?;
    words.end()?;
    Ok(Step::Memory { length, seed })
}

// How many bytes a buffer has: as many as a sector where no word says.
fn buffer_length(words: &mut Words<'_>) -> Result<u32, Misread>
    ensures value { result ≡ optional (number_read most_bytes) 512 (words_left words.old) }
    ensures rest { words_left words.new ≡ rest_of (words_left words.old) }
{
    words.optional::<Length>(512)
}

pub(crate) fn lock(words: Words<'_>) -> Result<Step, Misread>
    ensures { step_seen result ≡ lock_step (words_left words.entry) }
{
    words.end()?;
    Ok(Step::Lock)
}

pub(crate) fn sector(mut words: Words<'_>) -> Result<Step, Misread>
    ensures { step_seen result ≡ sector_step (words_left words.entry) }
{
    let sector = words.argument::<u32>()?;
    let length = buffer_length(&mut words)?;
    words.end()?;
    Ok(Step::Sector { sector, length })
}

pub(crate) fn put(mut words: Words<'_>) -> Result<Step, Misread>
    ensures { step_seen result ≡ put_step (words_left words.entry) }
{
    let sector = words.argument::<u32>()?;
    let seed = words.argument::<Seed>()?;
    let length = buffer_length(&mut words)?;
    words.end()?;
    Ok(Step::Put {
        sector,
        seed,
        length,
    })
}
