// The status block, by which a command ends: building it into its 13 bytes and reading it against what is expected.
ghost use Rattle.std.specs.Prelude.{◌≡◌};
ghost use Rattle.transport.specs.Statuses.{status_number, status_said, status_bytes, status_read};

use super::TransportRefusal;
use super::fields::field;

// What a block begins with, low byte first: the letters USBS.
const SIGNATURE: u32 = 0x5342_5355;

// How a command ended. A phase error says that the two ends no longer agree on what comes next.
#[derive(Clone, Copy, PartialEq, Eq)]
pub enum Status {
    Passed,
    Failed,
    PhaseError,
}

impl From<Status> for u8 {
    ghost from_gives = { λ status number. number ≡ status_number status };

    fn from(status: Status) -> u8 {
        match status {
            Status::Passed => 0,
            Status::Failed => 1,
            Status::PhaseError => 2,
        }
    }
}

impl TryFrom<u8> for Status {
    type Error = TransportRefusal;

    ghost try_from_gives = { λ number answer. answer ≡ status_said number };

    fn try_from(number: u8) -> Result<Status, TransportRefusal> {
        match number {
            0 => Ok(Status::Passed),
            1 => Ok(Status::Failed),
            2 => Ok(Status::PhaseError),
            _ => Err(TransportRefusal::BadStatus),
        }
    }
}

// The end of the command with this tag, and how many of its bytes of data were not moved.
#[derive(Clone, Copy)]
pub struct StatusBlock {
    pub tag: u32,
    pub residue: u32,
    pub status: Status,
}

impl StatusBlock {
    // Fills the memory with the block's bytes.
    #[tactic(auto, unfolding(crate::specs::Statuses::status_bytes))]
    pub fn build(self, out: &mut [u8; 13])
        ensures { out.new ≡ status_bytes self }
    {
        *out = [0; 13];
        out[0..4].copy_from_slice(&SIGNATURE.to_le_bytes());
        out[4..8].copy_from_slice(&self.tag.to_le_bytes());
        out[8..12].copy_from_slice(&self.residue.to_le_bytes());
        out[12] = self.status.into();
    }

    // The block that the bytes are, for a command with this tag that was to move so many bytes.
    #[tactic(auto, unfolding(crate::specs::Statuses::status_read))]
    pub fn read(bytes: &[u8], tag: u32, length: u32) -> Result<StatusBlock, TransportRefusal>
        ensures { result ≡ status_read bytes.now tag length }
    {
        if bytes.len() != 13 || u32::from_le_bytes(field(bytes, 0)) != SIGNATURE {
            return Err(TransportRefusal::BadStatusBlock);
        }
        let answered = u32::from_le_bytes(field(bytes, 4));
        if answered != tag {
            return Err(TransportRefusal::WrongTag);
        }
        let residue = u32::from_le_bytes(field(bytes, 8));
        if residue > length {
            return Err(TransportRefusal::BadStatus);
        }
        Ok(StatusBlock {
            tag,
            residue,
            status: Status::try_from(bytes[12])?,
        })
    }
}
