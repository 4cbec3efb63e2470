// The parts of a link by their names in a script: its cables, its port, and which way bytes go.
ghost use Rattle.std.specs.Prelude.{Some};
ghost use Rattle.script.specs.Names.{cable_name, cable_read, port_read, direction_read};

use super::Misread;
use super::argument::Argument;
use super::name::named;
use std::fmt;
use wire::{Direction, Port};

// One of the hub's two wires.
#[derive(Clone, Copy)]
pub enum Cable {
    First,
    Second,
}

impl fmt::Display for Cable {
    ghost output = { λ cable. Some (cable_name cable) };

    fn fmt<W: fmt::Write>(&self, f: &mut fmt::Formatter<W>) -> fmt::Result {
        f.write_str(match self {
            Cable::First => "1",
            Cable::Second => "2",
        })
    }
}

impl Argument for Cable {
    type Value = Cable;

    ghost reading = { cable_read };

    fn read(word: &[u8]) -> Result<Cable, Misread> {
        const NAMES: [(&str, Cable); 2] = [("1", Cable::First), ("2", Cable::Second)];
        named(word, &NAMES, Misread::NotACable)
    }
}

impl Argument for Port {
    type Value = Port;

    ghost reading = { port_read };

    fn read(word: &[u8]) -> Result<Port, Misread> {
        const NAMES: [(&str, Port); 2] = [("open", Port::Open), ("closed", Port::Closed)];
        named(word, &NAMES, Misread::NotAPort)
    }
}

impl Argument for Direction {
    type Value = Direction;

    ghost reading = { direction_read };

    fn read(word: &[u8]) -> Result<Direction, Misread> {
        const NAMES: [(&str, Direction); 2] = [
            ("outward", Direction::Outward),
            ("homeward", Direction::Homeward),
        ];
        named(word, &NAMES, Misread::NotADirection)
    }
}
