// Wires: what carries packets between the cradle and the reader, and may spoil them.
#![tactic(auto)]

mod arrival;
mod hub;
mod interface;
mod perfect;
mod promises;
mod scripted;

pub use hub::{Hub, Port};
pub use interface::{Direction, Wire};
pub use perfect::PerfectWire;
pub use promises::a_built_packet_is_delivered_or_spoiled;
pub use scripted::ScriptedWire;
