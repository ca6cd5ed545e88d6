use ga_base::Text;
use ga_disk::{Disk, MemDisk};
use ga_ports::Failed;
use std::test::Fail;

/// Syncs three bytes on side 0, and then writes two after them and one on side 1, which stay unsynced.
fn write_some(disk: &mut MemDisk, path: &Text) -> Result<(), Failed> {
    disk.open(path)?;
    disk.write_at(0, 0, b"abc")?;
    disk.sync(0)?;
    disk.write_at(0, 3, b"de")?;
    disk.write_at(1, 0, b"f")
}

/// Picks, and what a crash by each leaves of the two sides.
const PICKS: [(&[u8], &[u8], &[u8]); 4] = [
    // An empty pick leaves what a read gives.
    (b"", b"abcde", b"f"),
    // An even first byte leaves the least length of each side.
    (b"\0", b"abc", b""),
    // An odd one leaves the greatest length, and its bytes in place of those that weren't synced.
    (b"\xff", b"abc\xff\xff", b"\xff"),
    // The pick's bytes are taken round and round, from side 0 on to side 1.
    (b"\x01\x02\x03", b"abc\x01\x02", b"\x03"),
];

#[test]
fn a_crash_leaves_by_its_pick(rt: HostRuntime) -> Result<(), Fail> {
    let path = Text::of(rt.alloc(), "d")?;
    for (pick, side0, side1) in PICKS {
        let mut disk = MemDisk::new(rt.alloc());
        disk.fail_at(6)?;
        let written = write_some(&mut disk, &path);
        disk.crash(pick);
        assert_eq!(rt;
            (written, disk.side(0), disk.side(1)),
            (Ok(()), side0, side1)
        );
    }
    Ok(())
}
