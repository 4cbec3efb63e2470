// The language of the bench's scripts: their lines and words, bytes and numbers as text, and the steps that lines name.
#![tactic(auto)]

mod argument;
mod build_steps;
mod disk_steps;
mod hex;
mod kind;
mod link;
mod link_steps;
mod misread;
mod name;
mod number;
mod step;
mod text;

pub use hex::{Hex, HexByte, bytes_shown_are_read_back, push_byte, read_byte, show_bytes};
pub use kind::{data_kind_name, handshake_name, token_kind_name};
pub use link::Cable;
pub use misread::{Misread, ReadError};
pub use number::{MOST_BYTES, read_number};
pub use step::{Step, understand};
pub use text::{Lines, Words};
