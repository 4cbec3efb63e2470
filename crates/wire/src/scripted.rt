// The scripted wire: what it does to each packet stands in a list of entries.
ghost use Rattle.std.specs.Prelude.{◌≡◌, ◌<◌, ◌≤◌, length};
ghost use Rattle.packet.specs.Reading.{reading};
ghost use Rattle.wire.specs.Carrying.{Carries, laid};
ghost use Rattle.wire.specs.Scripts.{entry_of, entry_at, is_packet, with_bit_flipped, unless_packet, scripted_arrival, cleared, after_entry, after_sending};

use super::arrival::{grown, lay};
use super::interface::{Direction, Wire};
use packet::read;

// What an entry does to what is sent.
#[derive(Clone, Copy)]
enum Entry {
    Deliver,
    Lose,
    // Bits are counted from the first byte's low bit, and from there again behind the last.
    Flip { bit: u16 },
}

impl From<u16> for Entry {
    ghost from_gives = { λ number entry. entry ≡ entry_of number };

    fn from(number: u16) -> Entry {
        match number {
            0 => Entry::Deliver,
            65535 => Entry::Lose,
            _ => Entry::Flip { bit: number - 1 },
        }
    }
}

// The script is handed back whole, so how far it has been used is a place beside it, and no iterator.
#[derive(Drop)]
pub struct ScriptedWire {
    script: Vec<u16>,
    place: usize,
    tally: u8,
}

impl ScriptedWire {
    pub fn new(script: Vec<u16>) -> ScriptedWire
        ensures script { result.script ≡ script }
        ensures place { result.place ≡ 0 }
        ensures tally { result.tally ≡ 0 }
    {
        ScriptedWire {
            script,
            place: 0,
            tally: 0,
        }
    }

    pub fn into_script(self) -> Vec<u16>
        ensures { result ≡ self.script }
    {
        self.script
    }

    // How many entries have been used.
    pub fn place(&self) -> usize
        ensures { result ≡ self.now.place }
    {
        self.place
    }

    // The entry for this sending; past its end a script delivers.
    fn next_entry(&mut self) -> Entry
        ensures value { result ≡ entry_at self.old.script.items self.old.place }
        ensures after { self.new ≡ after_entry self.old }
    {
        let Some(number) = self.script.get(self.place) else {
            return Entry::Deliver;
        };
        let entry = Entry::from(*number);
        self.place += 1;
        entry
    }
}

fn reads_as_packet(bytes: &[u8]) -> bool
    ensures { result ≡ is_packet (reading bytes.now) }
{
    read(bytes).is_ok()
}

// The bytes with the bit flipped arrive, unless that makes a packet of them.
fn flip(bit: u16, sent: &[u8], heard: &mut [u8; 67]) -> usize
    requires { (0 < length sent.now) × (length sent.now ≤ 67) }
    ensures count { result ≡ length (unless_packet (with_bit_flipped bit sent.now)) }
    ensures memory { heard.new ≡ laid (unless_packet (with_bit_flipped bit sent.now)) }
{
    let count = lay(sent, heard);
    let bit = usize::from(bit) % (8 * count);
    heard[bit / 8] ^= 1 << (bit % 8);
    if reads_as_packet(&heard[..count]) {
        return lay(&[], heard);
    }
    count
}

impl Wire for ScriptedWire {
    ghost tally = { λ w. w.tally };

    fn clear(&mut self)
        ensures { self.new ≡ cleared self.old }
    {
        self.tally = 0;
    }

    fn tell(&self) -> u8 {
        self.tally
    }

    #[inline(always)]
    fn carry(&mut self, _direction: Direction, sent: &[u8], heard: &mut [u8; 67]) -> usize
        ensures carries { Carries sent.now self.old.tally result heard.new self.new.tally }
        ensures count { result ≡ length (scripted_arrival self.old.script.items self.old.place sent.now) }
        ensures memory { heard.new ≡ laid (scripted_arrival self.old.script.items self.old.place sent.now) }
        ensures after { self.new ≡ after_sending sent.now self.old }
    {
        let nothing_sent = sent.is_empty();
        if nothing_sent {
            return lay(&[], heard);
        }
        if sent.len() > 67 {
            self.tally = grown(self.tally);
            return lay(&[], heard);
        }
        match self.next_entry() {
            Entry::Deliver => lay(sent, heard),
            Entry::Lose => {
                self.tally = grown(self.tally);
                lay(&[], heard)
            }
            Entry::Flip { bit } => {
                self.tally = grown(self.tally);
                flip(bit, sent, heard)
            }
        }
    }
}
