// The commands that a command block carries, in 16 bytes. As for blocks, what reads and what gives bytes are methods: a
// conversion would not say which bytes.
ghost use Rattle.std.specs.Prelude.{◌≡◌};
ghost use Rattle.transport.specs.Commands.{command_of, command_bytes, command_size, coded_bytes};

use super::fields::field;

// The codes of the commands, which are their first bytes.
const TEST: u8 = 0x00;

const CAPACITY: u8 = 0x25;

const READ: u8 = 0x28;

const WRITE: u8 = 0x2a;

#[derive(Clone, Copy)]
pub enum Command {
    Test,
    Capacity,
    Read { sector: u32, count: u16 },
    Write { sector: u32, count: u16 },
}

impl Command {
    // The command that the bytes are, or none that is known. The bytes that no command here uses are not tested.
    #[tactic(auto, unfolding(crate::specs::Commands::command_of))]
    pub fn read(bytes: &[u8; 16]) -> Option<Command>
        ensures { result ≡ command_of bytes.now }
    {
        let sector = u32::from_be_bytes(field(bytes, 2));
        let count = u16::from_be_bytes(field(bytes, 7));
        match bytes[0] {
            TEST => Some(Command::Test),
            CAPACITY => Some(Command::Capacity),
            READ => Some(Command::Read { sector, count }),
            WRITE => Some(Command::Write { sector, count }),
            _ => None,
        }
    }

    // The command's bytes, with zeros where it has nothing to say.
    #[tactic(auto, unfolding(crate::specs::Commands::command_bytes))]
    pub fn bytes(self) -> [u8; 16]
        ensures { result ≡ command_bytes self }
    {
        match self {
            Command::Test => coded(TEST, 0, 0),
            Command::Capacity => coded(CAPACITY, 0, 0),
            Command::Read { sector, count } => coded(READ, sector, count),
            Command::Write { sector, count } => coded(WRITE, sector, count),
        }
    }

    // How many of the bytes the command has.
    pub fn length(self) -> u8
        ensures { result ≡ command_size self }
    {
        match self {
            Command::Test => 6,
            Command::Capacity | Command::Read { .. } | Command::Write { .. } => 10,
        }
    }
}

// The bytes of a command by its code, with a sector and a count of sectors, both high byte first.
fn coded(code: u8, sector: u32, count: u16) -> [u8; 16]
    ensures { result ≡ coded_bytes code sector count }
{
    let mut bytes = [0; 16];
    bytes[0] = code;
    bytes[2..6].copy_from_slice(&sector.to_be_bytes());
    bytes[7..9].copy_from_slice(&count.to_be_bytes());
    bytes
}
