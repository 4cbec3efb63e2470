// The steps of the hub: its cables, its port, what it carries, and its tally. Each function reads the words of one
// step; what they share is in `Words`.
ghost use Rattle.std.specs.Prelude.{◌≡◌};
ghost use Rattle.script.specs.Misreads.{IfRead};
ghost use Rattle.script.specs.Steps.{step_seen, cable_step, port_step, carry_step, clear_step};
ghost use Rattle.script.specs.Text.{words_left};

use super::hex::HexByte;
use super::{Cable, Misread, ReadError, Step, Words};
use std::alloc::Global;
use wire::{Direction, Port};

pub(crate) fn cable(heap: Global, mut words: Words<'_>) -> Result<Step, ReadError>
    ensures { IfRead result (λ s. step_seen s ≡ cable_step (words_left words.entry)) }
{
    let cable = words.argument::<Cable>()?;
    let entries = words.read_all::<u16>(heap)?;
    Ok(Step::Cable { cable, entries })
}

pub(crate) fn port(mut words: Words<'_>) -> Result<Step, Misread>
    ensures { step_seen result ≡ port_step (words_left words.entry) }
{
    let port = words.argument::<Port>()?;
    words.end()?;
    Ok(Step::Port(port))
}

pub(crate) fn carry(heap: Global, mut words: Words<'_>) -> Result<Step, ReadError>
    ensures { IfRead result (λ s. step_seen s ≡ carry_step (words_left words.entry)) }
{
    let direction = words.argument::<Direction>()?;
    let bytes = words.read_all::<HexByte>(heap)?;
    Ok(Step::Carry { direction, bytes })
}

pub(crate) fn clear(words: Words<'_>) -> Result<Step, Misread>
    ensures { step_seen result ≡ clear_step (words_left words.entry) }
{
    words.end()?;
    Ok(Step::Clear)
}
