ghost use Rattle.std.specs.Prelude.{◌≡◌, ◌<◌, None};

use crate::real_disk::RealDisk;
use ga_base::Text;
use ga_disk::{Disk, MAX_SIZE};
use ga_ports::Failed;
use std::fs::{self, File};
use std::process::Abort;
use std::test::Fail;
use std::{env, process, rt};

/// Changes both sides, so that side 0 has `abXY` and side 1 `other`.
fn write_both<R: rt::Files<File = File>>(
    disk: &mut RealDisk<'_, R>,
    folder: &Text,
) -> Result<(), Failed> {
    disk.open(folder)?;
    disk.write_at(0, 0, b"abcdefgh")?;
    disk.write_at(1, 0, b"other")?;
    disk.cut(0, 4)?;
    disk.cut(1, 9)?;
    disk.write_at(0, 2, b"XY")?;
    disk.sync(0)?;
    disk.sync(1)
}

/// The size of a side, and its three bytes at a place.
fn read_three<R: rt::Files<File = File>>(
    disk: &mut RealDisk<'_, R>,
    folder: &Text,
    side: u32,
    at: u64,
) -> Result<(u64, [u8; 3]), Failed>
    requires untold { disk.old.seen ≡ None }
    requires side { side < 2 }
{
    disk.open(folder)?;
    let mut bytes = [0; 3];
    disk.read_at(side, at, &mut bytes)?;
    Ok((disk.size(side)?, bytes))
}

#[test]
fn a_real_disk_is_two_files(rt: HostRuntime) -> Result<(), Fail> {
    let alloc = rt.alloc();
    let parent = env::temp_dir(&rt)?;
    let id = process::id(rt.process());
    let path = format!(in alloc; "{}/goaccess-disk-{id}", parent.as_str())?;
    let folder = Text::of(alloc, &path)?;
    fs::create_dir(&rt, path.as_str())?;
    let mut disk = RealDisk::new(&rt, alloc);
    assert_eq!(rt; write_both(&mut disk, &folder), Ok(()));
    drop(disk);
    for (name, bytes) in [("goaccess.side0", "abXY"), ("goaccess.side1", "other")] {
        let name = format!(in alloc; "{path}/{name}")?;
        assert_eq!(rt; fs::read(&rt, name.as_str())?.as_slice(), bytes.as_bytes());
    }
    fs::remove_dir_all(&rt, path.as_str())?;
    Ok(())
}

#[test]
fn a_real_disk_is_read_back_once_it_is_let_go(rt: HostRuntime) -> Result<(), Fail> {
    let alloc = rt.alloc();
    let parent = env::temp_dir(&rt)?;
    let id = process::id(rt.process());
    let path = format!(in alloc; "{}/goaccess-lock-{id}", parent.as_str())?;
    let folder = Text::of(alloc, &path)?;
    fs::create_dir(&rt, path.as_str())?;
    let mut first = RealDisk::new(&rt, alloc);
    assert_eq!(rt; write_both(&mut first, &folder), Ok(()));
    let mut second = RealDisk::new(&rt, alloc);
    assert_eq!(rt; second.open(&folder), Err(Failed));
    drop(first);
    drop(second);
    for (side, at, given) in [
        (0, 1, Ok((4, *b"bXY"))),
        (1, 2, Ok((5, *b"her"))),
        (1, 3, Err(Failed)),
        (0, MAX_SIZE, Err(Failed)),
    ] {
        let mut disk = RealDisk::new(&rt, alloc);
        assert_eq!(rt; read_three(&mut disk, &folder, side, at), given);
    }
    fs::remove_dir_all(&rt, path.as_str())?;
    Ok(())
}

#[test]
fn only_a_folder_with_regular_files_opens(rt: HostRuntime) -> Result<(), Fail> {
    let alloc = rt.alloc();
    let parent = env::temp_dir(&rt)?;
    let id = process::id(rt.process());
    let path = format!(in alloc; "{}/goaccess-shut-{id}", parent.as_str())?;
    let side = format!(in alloc; "{path}/goaccess.side1")?;
    let nothing = format!(in alloc; "{path}/nothing")?;
    fs::create_dir_all(&rt, side.as_str())?;
    for name in ["", "/dev/null", nothing.as_str(), path.as_str()] {
        let folder = Text::of(alloc, name)?;
        let mut disk = RealDisk::new(&rt, alloc);
        assert_eq!(rt; disk.open(&folder), Err(Failed), "{name}");
    }
    assert!(rt; !fs::exists(&rt, nothing.as_str())?);
    fs::remove_dir_all(&rt, path.as_str())?;
    Ok(())
}
