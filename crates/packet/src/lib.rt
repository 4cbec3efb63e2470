// Packets of a USB bus: their kinds, their checks, building them into bytes and reading them from bytes.
#![tactic(auto)]

mod body;
mod building;
mod check;
mod kind;
mod packet;
mod promises;
mod reading;
mod refusal;
mod register;
mod well_formed;

pub use body::Body;
pub use check::{body_check, token_check};
pub use kind::{DataKind, Handshake, Kind, TokenKind};
pub use packet::Packet;
pub use promises::{
    a_refusal_is_20_to_24, one_changed_bit_gives_a_wrong_check, one_changed_bit_is_no_packet,
    only_built_packets_are_accepted, reading_a_built_packet_returns_its_parts,
    the_worked_cases_come_out,
};
pub use reading::read;
pub use refusal::Refusal;
pub use register::{Check, Crc5, Crc16, Register};
pub use well_formed::WellFormed;
