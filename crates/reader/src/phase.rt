// Where a command stands, and what belongs to that.
ghost use Rattle.std.specs.Prelude.{◌≡◌, ◌+◌, ◌%◌, ◌<◌, ◌≤◌};

use transport::StatusBlock;

// What the data of a command that sends are: the capacity reply, or the sectors from a first one on.
#[derive(Clone, Copy)]
pub enum Source {
    Capacity,
    Sectors(u32),
}

// Data on their way to the host: how many bytes are still due by the block's length, how many are left to send, and how
// many have been sent and acknowledged.
#[derive(Clone, Copy)]
pub struct Sending {
    pub tag: u32,
    pub due: u32,
    pub left: u32,
    pub moved: u32,
    pub source: Source,
    ghost fits: { moved + left < 4294967296 },
    ghost packets: { moved % 64 ≡ 0 },
}

// Data on their way from the host: how many bytes are still due by the block's length, how many are left to come, which
// sector they are for, and how many bytes of that sector have come; they stand in the front of the buffer, which is fixed
// memory of the core, so that what comes is copied once.
#[derive(Clone, Copy)]
pub struct Receiving {
    pub tag: u32,
    pub due: u32,
    pub left: u32,
    pub sector: u32,
    pub come: u32,
    ghost fits: { sector + left ≤ 67108864 },
    ghost room: { come < 512 },
    ghost packets: { come % 64 ≡ 0 },
    ghost whole: { left % 64 ≡ 0 },
    ghost owed: { due + come < 4294967296 },
}

// A status waits with its block whether or not it has been sent, so the flag stands beside the block.
#[derive(Clone, Copy)]
pub enum Phase {
    Command,
    DataIn(Sending),
    DataOut(Receiving),
    Status { block: StatusBlock, sent: bool },
}
