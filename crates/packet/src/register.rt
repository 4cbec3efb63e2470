// Check registers: one generic register, and the two rules that USB has for it.
ghost use Rattle.std.specs.Prelude.{◌≡◌, ℕ, ◌-◌, ◌*◌, ◌^◌, ◌<◌, ◌≤◌, refl};
ghost use Rattle.packet.specs.Lawful.{Sized, Lawful};
ghost use Rattle.packet.specs.Bits.{bits, bits_of};
ghost use Rattle.packet.specs.Registers.{all_ones, taken, fed, finished, mirrored};
ghost use Rattle.packet.specs.OddGenerator.{odd_generator_is_lawful};
ghost use Rattle.std.proofs.Common.{lit<, lit≤};

// What a check register is made by: its width in bits and its generator.
pub trait Check {
    const WIDTH: u32;

    const GENERATOR: u16;

    ghost WIDTH: { ℕ };

    ghost GENERATOR: { ℕ };

    ghost sized: { Sized WIDTH GENERATOR };

    ghost lawful: { Lawful WIDTH GENERATOR };
}

// The check of tokens.
#[derive(Clone, Copy)]
pub struct Crc5;

impl Check for Crc5 {
    const WIDTH: u32 = 5;

    const GENERATOR: u16 = 0x05;

    ghost WIDTH = { 5 };

    ghost GENERATOR = { 0x05 };

    ghost sized = { record { some = lit< tt; most = lit≤ tt; generator_fits = lit< tt } };

    ghost lawful = { odd_generator_is_lawful 4 0x05 refl };
}

// The check of bodies.
#[derive(Clone, Copy)]
pub struct Crc16;

impl Check for Crc16 {
    const WIDTH: u32 = 16;

    const GENERATOR: u16 = 0x8005;

    ghost WIDTH = { 16 };

    ghost GENERATOR = { 0x8005 };

    ghost sized = { record { some = lit< tt; most = lit≤ tt; generator_fits = lit< tt } };

    ghost lawful = { odd_generator_is_lawful 15 0x8005 refl };
}

// A register in use: its content, and the rule by which it takes bits. What its methods promise holds of any content, so
// that the content fits the width is no fact of the type.
#[derive(Drop)]
pub struct Register<R: Check> {
    content: u16,
    rule: R,
}

impl<R: Check> Register<R> {
    // A register starts as all ones.
    pub fn new(rule: R) -> Self
        ensures { result.content ≡ all_ones R.WIDTH }
    {
        Register {
            content: ones::<R>(),
            rule,
        }
    }

    // One bit taken: the content moves up one place, and the generator is XORed in if the bit dropped differs.
    pub fn take_bit(&mut self, bit: bool)
        ensures { self.new.content ≡ taken R.WIDTH R.GENERATOR self.old.content bit }
    {
        let top = (self.content >> (R::WIDTH - 1)) % 2 == 1;
        let moved_up = (self.content << 1) & ones::<R>();
        self.content = if top != bit {
            moved_up ^ R::GENERATOR
        } else {
            moved_up
        };
    }

    // The lowest bits of a number, so many of them, the lowest first. The number is halved and not shifted, since a count
    // may be more than its bits.
    pub fn take_low_bits(&mut self, number: u8, count: u8)
        ensures { self.new.content ≡ fed R.WIDTH R.GENERATOR self.old.content (bits count number) }
    {
        let mut rest = number;
        for _i in 0..count {
            self.take_bit(rest % 2 == 1);
            rest /= 2;
        }
    }

    // Bytes in turn, the low bit of each first.
    pub fn take_bytes(&mut self, bytes: &[u8])
        ensures { self.new.content ≡ fed R.WIDTH R.GENERATOR self.old.content (bits_of bytes.now) }
    {
        for byte in bytes {
            self.take_low_bits(*byte, 8);
        }
    }

    // The check that is left: the content complemented, its top bit in the lowest bit of the check field.
    pub fn check(&self) -> u16
        ensures check { result ≡ finished R.WIDTH self.now.content }
        ensures width { result < 2 ^ R.WIDTH }
    {
        mirror(self.content ^ ones::<R>(), R::WIDTH)
    }
}

// The lowest so many bits of a number in the opposite order.
fn mirror(number: u16, count: u32) -> u16
    requires { (0 < count) × (count ≤ 16) }
    ensures mirror { result ≡ mirrored count number }
    ensures width { result < 2 ^ count }
{
    number.reverse_bits() >> (16 - count)
}

// As many ones as the register is wide.
fn ones<R: Check>() -> u16
    ensures { result ≡ all_ones R.WIDTH }
{
    0xffff >> (16 - R::WIDTH)
}
