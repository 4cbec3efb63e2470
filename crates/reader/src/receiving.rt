// Data that come from the host, and the sectors that they fill.
ghost use Rattle.std.specs.Prelude.{◌≡◌, ◌+◌, ◌<◌, ◌≤◌, take};
ghost use Rattle.reader.specs.Disk.{disk_of, Left};
ghost use Rattle.reader.specs.Stages.{sector_answered, take_data};
ghost use Rattle.reader.specs.State.{bulk_seen};
ghost use Rattle.store.specs.Access.{write_answer};

use super::phase::{Phase, Receiving};
use super::state::Bulk;
use store::{Store, StoreRefusal, Verdict};
use transport::{DataDirection, Status, StatusBlock};

impl Bulk {
    // The store has answered a whole sector: the data go on, or are over.
    fn sector_answered(&mut self, receiving: Receiving, answer: Result<Verdict, StoreRefusal>)
        requires { (receiving.due + 512 < 4294967296) × (receiving.sector + 1 + receiving.left ≤ 67108864) }
        ensures { bulk_seen self.new ≡ (sector_answered self.old.toggles self.old.halts receiving.tag receiving.due receiving.left receiving.sector self.old.buffer answer).0 }
    {
        let Receiving {
            tag,
            due,
            left,
            sector,
            ..
        } = receiving;
        match answer {
            Ok(Verdict::Taken) if left == 0 => self.end_data(
                DataDirection::Out,
                StatusBlock {
                    tag,
                    residue: due,
                    status: Status::Passed,
                },
            ),
            Ok(Verdict::Taken) => {
                self.phase = Phase::DataOut(Receiving {
                    tag,
                    due,
                    left,
                    sector: sector + 1,
                    come: 0,
                });
            }
            Ok(Verdict::Locked | Verdict::Full) | Err(_) => {
                if due > 0 {
                    self.halts = self.halts.with(DataDirection::Out, true);
                }
                self.phase = Phase::Status {
                    block: StatusBlock {
                        tag,
                        residue: due + 512,
                        status: Status::Failed,
                    },
                    sent: false,
                };
            }
        }
    }

    // A data packet is taken as data: its bytes join those of the sector that have come, and a whole sector is written.
    pub(crate) fn take_data<S: Store>(&mut self, store: &mut S, receiving: Receiving, body: &[u8])
        ensures state { bulk_seen self.new ≡ (take_data self.old.toggles self.old.halts (disk_of S.Store store.old) receiving.tag receiving.due receiving.left receiving.sector (take receiving.come self.old.buffer) body.now).0 }
        ensures disk { Left (take_data self.old.toggles self.old.halts (disk_of S.Store store.old) receiving.tag receiving.due receiving.left receiving.sector (take receiving.come self.old.buffer) body.now).1 (disk_of S.Store store.old) (disk_of S.Store store.new) }
    {
        let expected = receiving.left.min(64);
        if body.len() != expected as usize {
            return self.end_data(
                DataDirection::Out,
                StatusBlock {
                    tag: receiving.tag,
                    residue: receiving.due,
                    status: Status::PhaseError,
                },
            );
        }
        let end = receiving.come + expected;
        self.buffer[receiving.come as usize..end as usize].copy_from_slice(body);
        let mut rest = receiving;
        rest.due = rest.due.saturating_sub(expected);
        rest.left -= expected;
        if end < 512 {
            rest.come = end;
            self.phase = Phase::DataOut(rest);
            return;
        }
        let answer = store.write_sector(rest.sector, &self.buffer);
        self.sector_answered(rest, answer);
    }
}
