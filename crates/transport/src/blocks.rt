// The command block, by which a command is sent: building it into its 31 bytes and reading it from bytes. `build` and `read`
// are the two halves of a format, here and for status blocks; `TryFrom` would name the one and not the other.
ghost use Rattle.std.specs.Prelude.{◌≡◌};
ghost use Rattle.transport.specs.Blocks.{flags, direction_said, block_answer, block_memory, block_read, can_be_sent};

use super::TransportRefusal;
use super::fields::field;

// What a block begins with, low byte first: the letters USBC.
const SIGNATURE: u32 = 0x4342_5355;

// Which way the data of a command go, as the host sees it.
#[derive(Clone, Copy, PartialEq, Eq)]
pub enum DataDirection {
    In,
    Out,
}

// The byte of a block that says which way the data go.
impl From<DataDirection> for u8 {
    ghost from_gives = { λ direction byte. byte ≡ flags direction };

    fn from(direction: DataDirection) -> u8 {
        match direction {
            DataDirection::In => 0x80,
            DataDirection::Out => 0x00,
        }
    }
}

impl TryFrom<u8> for DataDirection {
    type Error = TransportRefusal;

    ghost try_from_gives = { λ byte answer. answer ≡ direction_said byte };

    fn try_from(byte: u8) -> Result<DataDirection, TransportRefusal> {
        match byte {
            0x80 => Ok(DataDirection::In),
            0x00 => Ok(DataDirection::Out),
            _ => Err(TransportRefusal::BadCommandBlock),
        }
    }
}

// A command for unit 0, the only one: the tag that its status repeats, how many bytes of data are to move and which
// way, and the command itself, of which only the first so many bytes count. That number is a field of the format, which
// building checks, so it stands beside the bytes.
#[derive(Clone, Copy)]
pub struct CommandBlock {
    pub tag: u32,
    pub length: u32,
    pub direction: DataDirection,
    pub command_length: u8,
    pub command: [u8; 16],
}

impl CommandBlock {
    // Fills the memory with the block's bytes. A command length that is not 1 to 16 is refused, and the memory is left
    // alone.
    #[tactic(auto, unfolding(crate::specs::Blocks::block_bytes))]
    pub fn build(self, out: &mut [u8; 31]) -> Result<(), TransportRefusal>
        ensures answer { result ≡ block_answer self }
        ensures memory { out.new ≡ block_memory self out.old }
    {
        if !self.can_be_sent() {
            return Err(TransportRefusal::BadCommandBlock);
        }
        *out = [0; 31];
        out[0..4].copy_from_slice(&SIGNATURE.to_le_bytes());
        out[4..8].copy_from_slice(&self.tag.to_le_bytes());
        out[8..12].copy_from_slice(&self.length.to_le_bytes());
        out[12] = self.direction.into();
        out[14] = self.command_length;
        out[15..31].copy_from_slice(&self.command);
        Ok(())
    }

    // The block that the bytes are.
    #[tactic(auto, unfolding(crate::specs::Blocks::block_read))]
    pub fn read(bytes: &[u8]) -> Result<CommandBlock, TransportRefusal>
        ensures { result ≡ block_read bytes.now }
    {
        let Ok(bytes) = <&[u8; 31]>::try_from(bytes) else {
            return Err(TransportRefusal::BadCommandBlock);
        };
        let block = CommandBlock {
            tag: u32::from_le_bytes(field(bytes, 4)),
            length: u32::from_le_bytes(field(bytes, 8)),
            direction: DataDirection::try_from(bytes[12])?,
            command_length: bytes[14],
            command: field(bytes, 15),
        };
        let signature = u32::from_le_bytes(field(bytes, 0));
        if signature != SIGNATURE || bytes[13] != 0 || !block.can_be_sent() {
            return Err(TransportRefusal::BadCommandBlock);
        }
        Ok(block)
    }

    // A command has 1 to 16 bytes.
    fn can_be_sent(&self) -> bool
        ensures { result ≡ can_be_sent self.now }
    {
        (1..=16).contains(&self.command_length)
    }
}
