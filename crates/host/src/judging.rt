// What the host makes of what it hears: the one place where an answer is judged.
ghost use Rattle.std.specs.Prelude.{◌≡◌};
ghost use Rattle.packet.specs.Bodies.{held};
ghost use Rattle.packet.specs.Reading.{reading};
ghost use Rattle.packet.specs.Kinds.{same_kind};
ghost use Rattle.host.specs.Arrivals.{arrival_seen};
ghost use Rattle.host.specs.Tries.{reply_of, fits, fetch_data, fetch_of};

use super::fault::Cause;
use packet::{Body, DataKind, Handshake, Packet, read};

// The answer to data that were sent: ACK, or STALL, which is None, or else why the try failed.
pub type Reply = Result<Option<()>, Cause>;

// The answer to an IN: new data that fit, a repeat, STALL, or a failure. A repeat is acknowledged like new data although the
// try failed, so a `Result` would not tell it from the other failures.
#[derive(Clone, Copy)]
pub enum Arrival {
    New(Body),
    Repeat,
    Stalled,
    Failed(Cause),
}

pub(crate) fn judge_reply(heard: &[u8]) -> Reply
    ensures { result ≡ reply_of (reading heard.now) }
{
    match read(heard) {
        Err(refusal) => Err(refusal.into()),
        Ok(Packet::Token { .. } | Packet::Data { .. }) => Err(Cause::Damaged),
        Ok(Packet::Handshake(Handshake::Ack)) => Ok(Some(())),
        Ok(Packet::Handshake(Handshake::Nak)) => Err(Cause::NotReady),
        Ok(Packet::Handshake(Handshake::Stall)) => Ok(None),
    }
}

// The data that are awaited: their toggle, and how many bytes they are, where that matters.
#[derive(Clone, Copy)]
pub(crate) struct Awaited {
    pub(crate) toggle: DataKind,
    pub(crate) length: Option<usize>,
}

// Data that came after an IN; those with the toggle that is not awaited are a repeat.
fn judge_data(kind: DataKind, body: Body, awaited: Awaited) -> Arrival
    ensures { arrival_seen result ≡ fetch_data (same_kind kind awaited.toggle) (fits awaited.length (held body)) (held body) }
{
    if kind != awaited.toggle {
        return Arrival::Repeat;
    }
    if awaited
        .length
        .is_none_or(|length| body.as_slice().len() == length)
    {
        Arrival::New(body)
    } else {
        Arrival::Failed(Cause::Damaged)
    }
}

pub(crate) fn judge_arrival(heard: &[u8], awaited: Awaited) -> Arrival
    ensures { arrival_seen result ≡ fetch_of awaited.toggle awaited.length (reading heard.now) }
{
    match read(heard) {
        Err(refusal) => Arrival::Failed(refusal.into()),
        Ok(Packet::Data { kind, body }) => judge_data(kind, Body::of(body), awaited),
        Ok(Packet::Token { .. } | Packet::Handshake(Handshake::Ack)) => {
            Arrival::Failed(Cause::Damaged)
        }
        Ok(Packet::Handshake(Handshake::Nak)) => Arrival::Failed(Cause::NotReady),
        Ok(Packet::Handshake(Handshake::Stall)) => Arrival::Stalled,
    }
}
