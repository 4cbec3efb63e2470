// What a wire is: an interface whose meaning is a tally of spoiled packets.
ghost use Rattle.std.specs.Prelude.{◌≡◌, ℕ};
ghost use Rattle.wire.specs.Carrying.{Carries};

// Which way bytes go: outward to the reader, or homeward to the cradle.
#[derive(Clone, Copy)]
pub enum Direction {
    Outward,
    Homeward,
}

// The tally, 0 to 255, is the number of packets spoiled since it was last cleared.
pub trait Wire {
    ghost tally: { Self → ℕ };

    fn clear(&mut self)
        ensures { tally self.new ≡ 0 };

    fn tell(&self) -> u8
        ensures { result ≡ tally self.now };

    // Carries bytes and answers how many arrive: they fill the front of the memory, and zeros the rest. The memory is a
    // fixed one beside its count, since nothing on the way of a packet may use the heap.
    fn carry(&mut self, direction: Direction, sent: &[u8], heard: &mut [u8; 67]) -> usize
        ensures { Carries sent.now (tally self.old) result heard.new (tally self.new) };
}
