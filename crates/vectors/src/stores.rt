// Stores at their edges: the refusals, a locked sector, and a disk that is full after one write.
use super::refused::refused_by;
use super::score::Score;
use store::{BlankSector, LimitedDisk, Lock, PlainDisk, Store, Verdict};

fn holds<S: Store>(store: &S, sector: u32, bytes: &[u8; 512]) -> bool {
    let mut into = [0xa5; 512];
    store.read_sector(sector, &mut into).is_ok() && into == *bytes
}

pub fn refusals(rt: &HostRuntime) -> anyhow::Result<Score> {
    let mut score = Score::default();
    let mut disk = PlainDisk::new(vec![in rt.alloc(); 0u8; 51200]?);
    score.count(disk.sector_count() == 100);
    let mut buffer = [0xa5; 512];
    score.count(refused_by(disk.read_sector(100, &mut buffer), 11) && buffer == [0xa5; 512]);
    score.count(refused_by(disk.write_sector(100, &[1; 512]), 11));
    let mut short = [0xa5; 511];
    score.count(refused_by(disk.read_sector(99, &mut short), 12));
    score.count(refused_by(disk.write_sector(99, &[1; 511]), 12));
    score.count(refused_by(disk.read_sector(100, &mut short), 11));
    score.count(short == [0xa5; 511]);
    score.count(holds(&disk, 99, &[0; 512]));
    println!(rt; "refusals of stores: {score}")?;
    Ok(score)
}

pub fn verdicts(rt: &HostRuntime) -> anyhow::Result<Score> {
    let mut score = Score::default();
    let mut once = LimitedDisk::new(PlainDisk::new(vec![in rt.alloc(); 0u8; 2048]?), 1);
    score.count(once.write_sector(3, &[7; 512]) == Ok(Verdict::Taken));
    score.count(once.write_sector(2, &[8; 512]) == Ok(Verdict::Full));
    score.count(holds(&once, 3, &[7; 512]) && holds(&once, 2, &[0; 512]));
    let mut locked = Lock::new(once);
    score.count(locked.write_sector(3, &[9; 512]) == Ok(Verdict::Locked));
    score.count(holds(&locked, 3, &[7; 512]));
    let mut blank = BlankSector;
    score.count(
        blank.write_sector(0, &[9; 512]) == Ok(Verdict::Locked) && holds(&blank, 0, &[0; 512]),
    );
    let mut small = PlainDisk::new(vec![in rt.alloc(); 1u8; 511]?);
    score.count(small.sector_count() == 1 && holds(&small, 0, &[0; 512]));
    score.count(small.write_sector(0, &[9; 512]) == Ok(Verdict::Locked));
    println!(rt; "verdicts of stores: {score}")?;
    Ok(score)
}
