// Numbers written in decimal digits.
ghost use Rattle.std.specs.Prelude.{◌≡◌, ◌≤◌, IfOk};
ghost use Rattle.script.specs.Numbers.{number_read, seed_read, most_bytes};

use super::Misread;
use super::argument::Argument;

// A memory and a buffer of a script have at most 64 MiB, so that no script uses up the machine.
pub const MOST_BYTES: u32 = 67_108_864;

// The number that a word writes, or the limit where the number is above it: what is too much for one
// step is refused by the rules of that step, and not here.
pub fn read_number(word: &[u8], limit: u64) -> Result<u64, Misread>
    ensures value { result ≡ number_read limit word.now }
    ensures within { IfOk result (λ n. n ≤ limit) }
{
    if word.is_empty() {
        return Err(Misread::NotANumber);
    }
    let mut number: u64 = 0;
    for digit in word {
        if !digit.is_ascii_digit() {
            return Err(Misread::NotANumber);
        }
        let units = u64::from(*digit - b'0');
        number = number.saturating_mul(10).saturating_add(units).min(limit);
    }
    Ok(number)
}

// A number, or 255 where it is above that. The numbers of this file differ in type or in limit; `read_number` reads them all.
impl Argument for u8 {
    type Value = u8;

    ghost reading = { number_read 255 };

    fn read(word: &[u8]) -> Result<u8, Misread> {
        Ok(read_number(word, 255)? as u8)
    }
}

// A number, or 65535 where it is above that.
impl Argument for u16 {
    type Value = u16;

    ghost reading = { number_read 65535 };

    fn read(word: &[u8]) -> Result<u16, Misread> {
        Ok(read_number(word, 65535)? as u16)
    }
}

// A number, or the greatest of 32 bits where it is above that.
impl Argument for u32 {
    type Value = u32;

    ghost reading = { number_read 4294967295 };

    fn read(word: &[u8]) -> Result<u32, Misread> {
        Ok(read_number(word, 4_294_967_295)? as u32)
    }
}

// How many bytes a memory or a buffer has.
pub(crate) struct Length;

impl Argument for Length {
    type Value = u32;

    ghost reading = { number_read most_bytes };

    fn read(word: &[u8]) -> Result<u32, Misread> {
        Ok(read_number(word, u64::from(MOST_BYTES))? as u32)
    }
}

// The seed of a pattern, which counts modulo 256.
pub(crate) struct Seed;

impl Argument for Seed {
    type Value = u8;

    ghost reading = { seed_read };

    fn read(word: &[u8]) -> Result<u8, Misread> {
        let seed = read_number(word, u64::MAX)?;
        Ok((seed % 256) as u8)
    }
}
