// The perfect wire: delivers all it may.
ghost use Rattle.std.specs.Prelude.{◌≡◌, length};
ghost use Rattle.wire.specs.Carrying.{Carries, all_it_may, laid};

use super::arrival::{grown, lay};
use super::interface::{Direction, Wire};

#[derive(Drop)]
pub struct PerfectWire {
    tally: u8,
}

impl PerfectWire {
    pub fn new() -> PerfectWire
        ensures { result.tally ≡ 0 }
    {
        PerfectWire { tally: 0 }
    }
}

impl Wire for PerfectWire {
    ghost tally = { λ w. w.tally };

    fn clear(&mut self) {
        self.tally = 0;
    }

    fn tell(&self) -> u8 {
        self.tally
    }

    fn carry(&mut self, _direction: Direction, sent: &[u8], heard: &mut [u8; 67]) -> usize
        ensures carries { Carries sent.now self.old.tally result heard.new self.new.tally }
        ensures count { result ≡ length (all_it_may sent.now) }
        ensures memory { heard.new ≡ laid (all_it_may sent.now) }
    {
        let too_long = sent.len() > 67;
        if too_long {
            self.tally = grown(self.tally);
            return lay(&[], heard);
        }
        lay(sent, heard)
    }
}
