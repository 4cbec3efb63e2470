// What the reader answers: nothing, a handshake, or data.
use packet::{Body, DataKind, Handshake};

#[derive(Clone, Copy)]
pub enum Answer {
    Nothing,
    Handshake(Handshake),
    Data(DataKind, Body),
}
