// What a command comes to: the data it has, if any.
ghost use Rattle.std.specs.Prelude.{◌≡◌, ◌+◌, ◌≤◌, nat_le};
ghost use Rattle.reader.specs.Plans.{plan_seen, Bounded};
ghost use Rattle.reader.specs.Stages.{plan_of};

use super::phase::Source;
use transport::Command;

#[derive(Clone, Copy)]
pub enum Plan {
    Passes,
    Fails,
    Sends { source: Source, bytes: u32 },
    Receives { sector: u32, bytes: u32 },
}

// Whether the sectors named lie inside a disk of this size.
fn inside(size: u32, sector: u32, count: u16) -> bool
    ensures { result ≡ nat_le (sector + count) size }
{
    u64::from(sector) + u64::from(count) <= u64::from(size)
}

pub(crate) fn plan_of(command: Option<Command>, size: u32) -> Plan
    requires { size ≤ 65536 }
    ensures value { plan_seen result ≡ plan_of command size }
    ensures bound { Bounded result }
{
    match command {
        None => Plan::Fails,
        Some(Command::Test) => Plan::Passes,
        Some(Command::Capacity) => Plan::Sends {
            source: Source::Capacity,
            bytes: 8,
        },
        Some(Command::Read { sector, count } | Command::Write { sector, count })
            if !inside(size, sector, count) => { Plan::Fails }
        Some(Command::Read { count: 0, .. } | Command::Write { count: 0, .. }) => Plan::Passes,
        Some(Command::Read { sector, count }) => Plan::Sends {
            source: Source::Sectors(sector),
            bytes: u32::from(count) * 512,
        },
        Some(Command::Write { sector, count }) => Plan::Receives {
            sector,
            bytes: u32::from(count) * 512,
        },
    }
}
