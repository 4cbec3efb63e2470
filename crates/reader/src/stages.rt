// The stages of a command: a block is taken, data move, a status is left.
ghost use Rattle.std.specs.Prelude.{◌≡◌, ◌≤◌};
ghost use Rattle.reader.specs.Plans.{plan_seen, Bounded};
ghost use Rattle.reader.specs.Stages.{if_due, over, begin, take_block};
ghost use Rattle.reader.specs.State.{bulk_seen};

use super::phase::{Phase, Receiving, Sending};
use super::planning::{Plan, plan_of};
use super::state::{Bulk, Halts};
use transport::{Command, CommandBlock, DataDirection, Status, StatusBlock};

// Here and in `sending` and `receiving`, clauses name the toggles and the halts, and not the whole of the bulk endpoints: each
// of these methods sets a new phase.
impl Bulk {
    // Data are over: the endpoint halts if bytes are still due, and a status waits.
    pub(crate) fn end_data(&mut self, direction: DataDirection, block: StatusBlock)
        ensures state { bulk_seen self.new ≡ over self.old.toggles self.old.halts direction block.tag block.residue block.status }
        ensures buffer { self.new.buffer ≡ self.old.buffer }
    {
        if block.residue > 0 {
            self.halts = self.halts.with(direction, true);
        }
        self.phase = Phase::Status { block, sent: false };
    }

    fn begin(&mut self, block: CommandBlock, plan: Plan)
        requires { Bounded plan }
        ensures { bulk_seen self.new ≡ begin self.old.toggles self.old.halts block (plan_seen plan) }
    {
        let status = match plan {
            Plan::Sends { source, bytes }
                if block.direction == DataDirection::In && bytes <= block.length => {
                self.phase = Phase::DataIn(Sending {
                    tag: block.tag,
                    due: block.length,
                    left: bytes,
                    moved: 0,
                    source,
                });
                return;
            }
            Plan::Receives { sector, bytes }
                if block.direction == DataDirection::Out && bytes <= block.length => {
                self.phase = Phase::DataOut(Receiving {
                    tag: block.tag,
                    due: block.length,
                    left: bytes,
                    sector,
                    come: 0,
                });
                return;
            }
            Plan::Sends { .. } | Plan::Receives { .. } => Status::PhaseError,
            Plan::Passes => Status::Passed,
            Plan::Fails => Status::Failed,
        };
        self.end_data(
            block.direction,
            StatusBlock {
                tag: block.tag,
                residue: block.length,
                status,
            },
        );
    }

    // A data packet is taken as a command block.
    pub(crate) fn take_block(&mut self, size: u32, body: &[u8])
        requires { size ≤ 65536 }
        ensures { bulk_seen self.new ≡ take_block self.old.toggles self.old.halts size body.now }
    {
        match CommandBlock::read(body) {
            Ok(block) => self.begin(block, plan_of(Command::read(&block.command), size)),
            Err(_) => {
                self.halts = Halts::Invalid;
                self.phase = Phase::Command;
            }
        }
    }
}
