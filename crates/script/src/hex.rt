// Bytes as text: two hexadecimal digits each, in lower case, with one blank between.
ghost use Rattle.std.specs.Prelude.{◌≡◌, ◌<◌, [], ◌∷◌, ◌++◌, IfOk, string_bytes, OnOk, Some};
ghost use Rattle.script.specs.Hex.{hex_digit, hex_value, hex_byte, hex_bytes, byte_read, ShownBytesAreReadBack};

use super::Misread;
use super::argument::Argument;
use std::alloc::{AllocError, Global};
use std::fmt;

// A digit as text.
fn hex_digit(value: u8) -> &'static str
    requires { value < 16 }
    ensures { result.now ≡ hex_digit value ∷ [] }
{
    match value {
        0 => "0",
        1 => "1",
        2 => "2",
        3 => "3",
        4 => "4",
        5 => "5",
        6 => "6",
        7 => "7",
        8 => "8",
        9 => "9",
        10 => "a",
        11 => "b",
        12 => "c",
        13 => "d",
        14 => "e",
        _ => "f",
    }
}

// What a digit stands for.
fn hex_value(digit: u8) -> Option<u8>
    ensures { result ≡ hex_value digit }
{
    match digit {
        b'0'..=b'9' => Some(digit - b'0'),
        b'a'..=b'f' => Some(digit - b'a' + 10),
        _ => None,
    }
}

// A byte as two digits: shown so, and an argument of a step.
#[derive(Clone, Copy)]
pub struct HexByte(pub u8);

impl fmt::Display for HexByte {
    ghost output = { λ byte. Some (hex_byte byte.0) };

    // Digit by digit, which takes a fraction of the time of a hole such as `{:02x}`.
    fn fmt<W: fmt::Write>(&self, f: &mut fmt::Formatter<W>) -> fmt::Result {
        f.write_str(hex_digit(self.0 / 16))?;
        f.write_str(hex_digit(self.0 % 16))
    }
}

// One byte more at the end of a text.
pub fn push_byte(text: &mut String, byte: u8) -> Result<(), AllocError>
    ensures { OnOk result (string_bytes text.new ≡ string_bytes text.old ++ hex_byte byte) }
{
    text.push_str(hex_digit(byte / 16))?;
    text.push_str(hex_digit(byte % 16))
}

// Bytes with one blank between, or the word `nothing` where there are none.
#[derive(Clone, Copy)]
pub struct Hex<'a>(pub &'a [u8]);

impl fmt::Display for Hex<'_> {
    ghost output = { λ hex. Some (hex_bytes hex.0.now) };

    fn fmt<W: fmt::Write>(&self, f: &mut fmt::Formatter<W>) -> fmt::Result {
        let Some((first, rest)) = self.0.split_first() else {
            return f.write_str("nothing");
        };
        HexByte(*first).fmt(f)?;
        for byte in rest {
            f.write_str(" ")?;
            HexByte(*byte).fmt(f)?;
        }
        Ok(())
    }
}

// The bytes as a text of their own.
pub fn show_bytes(heap: Global, bytes: &[u8]) -> Result<String, AllocError>
    ensures { IfOk result (λ text. string_bytes text ≡ hex_bytes bytes.now) }
{
    let Some((first, rest)) = bytes.split_first() else {
        return String::from_str(heap, "nothing");
    };
    let mut text = String::new(heap);
    push_byte(&mut text, *first)?;
    for byte in rest {
        text.push(' ')?;
        push_byte(&mut text, *byte)?;
    }
    Ok(text)
}

// The byte that a word of two digits writes.
pub fn read_byte(word: &[u8]) -> Result<u8, Misread>
    ensures { result ≡ byte_read word.now }
{
    let [high, low] = word else {
        return Err(Misread::NotAByte);
    };
    match (hex_value(*high), hex_value(*low)) {
        (Some(high), Some(low)) => Ok(high * 16 + low),
        _ => Err(Misread::NotAByte),
    }
}

impl Argument for HexByte {
    type Value = u8;

    ghost reading = { byte_read };

    fn read(word: &[u8]) -> Result<u8, Misread> {
        read_byte(word)
    }
}

// Bytes that are shown are read back as they were.
pub fn bytes_shown_are_read_back() -> u8
    ensures { ShownBytesAreReadBack }
{
    0
}
