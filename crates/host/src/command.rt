// A command: open from its block to its status.

// A command whose block was taken. It cannot be let go: its data end first, and then its status is read, or it is given
// up.
pub struct Opened {
    tag: u32,
    length: u32,
}

// A command whose data are over, all of them moved or not. It cannot be let go either.
pub struct DataOver {
    tag: u32,
    length: u32,
    whole: bool,
}

// The reader's answer to a command that it did not do: so many bytes were not moved.
#[derive(Clone, Copy, PartialEq, Eq)]
pub struct CommandFailed {
    pub residue: u32,
}

// How a command ended that was not given up.
pub type Outcome<T> = Result<T, CommandFailed>;
