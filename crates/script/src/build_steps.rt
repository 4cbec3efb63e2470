// The steps that build a packet, and the one that reads one. Here and for the other steps, each function reads the words of
// one step. What they share is in `Words`; one function for several steps would be no plainer.
ghost use Rattle.std.specs.Prelude.{◌≡◌};
ghost use Rattle.script.specs.Misreads.{IfRead};
ghost use Rattle.script.specs.Steps.{sort_read, step_seen, token_step, data_step, handshake_step, build_step, packet_step};
ghost use Rattle.script.specs.Text.{words_left};

use super::argument::Argument;
use super::hex::HexByte;
use super::name::named;
use super::{Misread, ReadError, Step, Words};
use packet::{DataKind, Handshake, TokenKind};
use std::alloc::Global;

// What sort of packet is to be built.
#[derive(Clone, Copy)]
enum Sort {
    Token,
    Data,
    Handshake,
}

impl Argument for Sort {
    type Value = Sort;

    ghost reading = { sort_read };

    fn read(word: &[u8]) -> Result<Sort, Misread> {
        const NAMES: [(&str, Sort); 3] = [
            ("token", Sort::Token),
            ("data", Sort::Data),
            ("handshake", Sort::Handshake),
        ];
        named(word, &NAMES, Misread::UnknownStep)
    }
}

fn build_token(mut words: Words<'_>) -> Result<Step, Misread>
    ensures { step_seen result ≡ token_step (words_left words.entry) }
{
    let kind = words.argument::<TokenKind>()?;
    let address = words.argument::<u8>()?;
    let endpoint = words.argument::<u8>()?;
    words.end()?;
    Ok(Step::BuildToken {
        kind,
        address,
        endpoint,
    })
}

fn build_handshake(mut words: Words<'_>) -> Result<Step, Misread>
    ensures { step_seen result ≡ handshake_step (words_left words.entry) }
{
    let handshake = words.argument::<Handshake>()?;
    words.end()?;
    Ok(Step::BuildHandshake(handshake))
}

fn build_data(heap: Global, mut words: Words<'_>) -> Result<Step, ReadError>
    ensures { IfRead result (λ s. step_seen s ≡ data_step (words_left words.entry)) }
{
    let kind = words.argument::<DataKind>()?;
    let body = words.read_all::<HexByte>(heap)?;
    Ok(Step::BuildData { kind, body })
}

pub(crate) fn build(heap: Global, mut words: Words<'_>) -> Result<Step, ReadError>
    ensures { IfRead result (λ s. step_seen s ≡ build_step (words_left words.entry)) }
{
    match words.argument::<Sort>()? {
        Sort::Token => Ok(build_token(words)?),
        Sort::Data => build_data(heap, words),
        Sort::Handshake => Ok(build_handshake(words)?),
    }
}

pub(crate) fn read_packet(heap: Global, words: Words<'_>) -> Result<Step, ReadError>
    ensures { IfRead result (λ s. step_seen s ≡ packet_step (words_left words.entry)) }
{
    let bytes = words.read_all::<HexByte>(heap)?;
    Ok(Step::Packet(bytes))
}
