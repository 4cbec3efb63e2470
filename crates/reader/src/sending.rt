// Data that go to the host: the packet that waits, and what its acknowledgement does.
ghost use Rattle.std.specs.Prelude.{◌≡◌, min, take, drop};
ghost use Rattle.packet.specs.Bodies.{held};
ghost use Rattle.reader.specs.Disk.{disk_of};
ghost use Rattle.reader.specs.Stages.{waiting, data_acknowledged};
ghost use Rattle.reader.specs.State.{bulk_seen};
ghost use Rattle.transport.specs.Statuses.{status_bytes};

use super::phase::{Phase, Sending, Source};
use super::state::Bulk;
use packet::Body;
use store::Store;
use transport::{DataDirection, Status, StatusBlock, capacity_reply};

// The bytes of a slice from a place on, as a body: so many of them if there are so many, and at most 64.
fn body_from(bytes: &[u8], place: usize, most: usize) -> Body
    ensures { held result ≡ take (min 64 most) (drop place bytes.now) }
{
    let rest = &bytes[place.min(bytes.len())..];
    Body::of(&rest[..most.min(rest.len())])
}

// The packet that waits: the next bytes of what the command sends, at most 64.
pub(crate) fn waiting_body<S: Store>(store: &S, sending: Sending) -> Body
    ensures { held result ≡ waiting (disk_of S.Store store.now) sending.left sending.moved sending.source }
{
    let most = sending.left as usize;
    match sending.source {
        Source::Capacity => {
            let reply = capacity_reply(store.sector_count());
            body_from(&reply, sending.moved as usize, most)
        }
        Source::Sectors(first) => {
            let mut sector = [0; 512];
            let number = first.saturating_add(sending.moved / 512);
            match store.read_sector(number, &mut sector) {
                Ok(()) => body_from(&sector, (sending.moved % 512) as usize, most),
                // Past the last sector there is nothing to send.
                Err(_) => Body::empty(),
            }
        }
    }
}

impl Bulk {
    // The packet that waited is acknowledged: the next one waits, or a status does.
    pub(crate) fn data_acknowledged(&mut self, sending: Sending)
        ensures state { bulk_seen self.new ≡ data_acknowledged self.old.toggles self.old.halts sending.tag sending.due sending.left sending.moved sending.source }
        ensures buffer { self.new.buffer ≡ self.old.buffer }
    {
        let count = sending.left.min(64);
        let mut rest = sending;
        rest.due = rest.due.saturating_sub(count);
        rest.left -= count;
        rest.moved += count;
        if rest.left == 0 {
            return self.end_data(
                DataDirection::In,
                StatusBlock {
                    tag: rest.tag,
                    residue: rest.due,
                    status: Status::Passed,
                },
            );
        }
        self.phase = Phase::DataIn(rest);
    }
}

// The bytes of a status block, as a body.
pub(crate) fn status_body(block: StatusBlock) -> Body
    ensures { held result ≡ status_bytes block }
{
    let mut bytes = [0; 13];
    block.build(&mut bytes);
    Body::of(&bytes)
}
