// The steps of a script, and which of them a line names.
ghost use Rattle.std.specs.Prelude.{◌≡◌};
ghost use Rattle.script.specs.Misreads.{IfRead};
ghost use Rattle.script.specs.Steps.{verb_read, step_seen, line_seen, step_named, passed_over, understood};
ghost use Rattle.script.specs.Text.{words, words_left};

use super::argument::Argument;
use super::name::named;
use super::{Cable, Misread, ReadError, Words, build_steps, disk_steps, link_steps};
use packet::{DataKind, Handshake, TokenKind};
use std::alloc::Global;
use wire::{Direction, Port};

#[derive(Drop)]
pub enum Step {
    Packet(Vec<u8>),
    BuildToken {
        kind: TokenKind,
        address: u8,
        endpoint: u8,
    },
    BuildData {
        kind: DataKind,
        body: Vec<u8>,
    },
    BuildHandshake(Handshake),
    Cable {
        cable: Cable,
        entries: Vec<u16>,
    },
    Port(Port),
    Carry {
        direction: Direction,
        bytes: Vec<u8>,
    },
    Clear,
    // So many bytes, zeros or the pattern of a seed.
    Memory {
        length: u32,
        seed: Option<u8>,
    },
    Lock,
    // Into a buffer of this length.
    Sector {
        sector: u32,
        length: u32,
    },
    // From a buffer of this length with the pattern of a seed.
    Put {
        sector: u32,
        seed: u8,
        length: u32,
    },
}

// The word with which a step begins.
#[derive(Clone, Copy)]
enum Verb {
    Packet,
    Build,
    Cable,
    Port,
    Carry,
    Clear,
    Memory,
    Lock,
    Sector,
    Put,
}

impl Argument for Verb {
    type Value = Verb;

    ghost reading = { verb_read };

    fn read(word: &[u8]) -> Result<Verb, Misread> {
        const NAMES: [(&str, Verb); 10] = [
            ("packet", Verb::Packet),
            ("build", Verb::Build),
            ("cable", Verb::Cable),
            ("port", Verb::Port),
            ("carry", Verb::Carry),
            ("clear", Verb::Clear),
            ("memory", Verb::Memory),
            ("lock", Verb::Lock),
            ("sector", Verb::Sector),
            ("put", Verb::Put),
        ];
        named(word, &NAMES, Misread::UnknownStep)
    }
}

// A match on the verb is plainer than a table of functions: it shows which steps need memory.
fn named_step(heap: Global, mut words: Words<'_>) -> Result<Step, ReadError>
    ensures { IfRead result (λ s. step_seen s ≡ step_named (words_left words.entry)) }
{
    match words.argument::<Verb>()? {
        Verb::Packet => build_steps::read_packet(heap, words),
        Verb::Build => build_steps::build(heap, words),
        Verb::Cable => link_steps::cable(heap, words),
        Verb::Port => Ok(link_steps::port(words)?),
        Verb::Carry => link_steps::carry(heap, words),
        Verb::Clear => Ok(link_steps::clear(words)?),
        Verb::Memory => Ok(disk_steps::memory(words)?),
        Verb::Lock => Ok(disk_steps::lock(words)?),
        Verb::Sector => Ok(disk_steps::sector(words)?),
        Verb::Put => Ok(disk_steps::put(words)?),
    }
}

// Whether a line is blank or a comment.
fn is_passed_over(line: &[u8]) -> bool
    ensures { result ≡ passed_over (words line.now) }
{
    Words::of(line)
        .next()
        .is_none_or(|word| word.first() == Some(&b'#'))
}

// The step that a line names, none where it is blank or a comment, or why it is not understood.
#[tactic(auto, unfolding(crate::specs::Steps::understood))]
pub fn understand(heap: Global, line: &[u8]) -> Result<Option<Step>, ReadError>
    ensures { IfRead result (λ l. line_seen l ≡ understood line.now) }
{
    if is_passed_over(line) {
        return Ok(None);
    }
    Ok(Some(named_step(heap, Words::of(line))?))
}
