// A wire that answers 67 bytes of noise to whatever is sent: as bad as a wire may be.
ghost use Rattle.std.specs.Prelude.{◌≡◌};

use wire::{Direction, Wire};

#[derive(Drop)]
pub struct NoiseWire {
    tally: u8,
}

impl NoiseWire {
    pub fn new() -> NoiseWire
        ensures { result.tally ≡ 0 }
    {
        NoiseWire { tally: 0 }
    }
}

impl Wire for NoiseWire {
    ghost tally = { λ w. w.tally };

    fn clear(&mut self) {
        self.tally = 0;
    }

    fn tell(&self) -> u8 {
        self.tally
    }

    // Of no bytes, or of too many, a wire may let nothing arrive; all else comes out as zeros, which are no packet.
    fn carry(&mut self, _direction: Direction, sent: &[u8], heard: &mut [u8; 67]) -> usize {
        *heard = [0; 67];
        if sent.is_empty() {
            return 0;
        }
        if sent.len() > 67 {
            self.tally = self.tally.saturating_add(1);
            return 0;
        }
        if sent == [0; 67].as_slice() {
            return 67;
        }
        self.tally = self.tally.saturating_add(1);
        67
    }
}
