ghost use Rattle.std.specs.Prelude.{◌≡◌, ◌+◌, ◌≤◌, ◌<◌, length, IfOk, OnOk, OnErr, IsErr, IsTrue, Ok as OkSpec};
ghost use Rattle.std.specs.Fs.{IsFile, IsDir, file_type};
ghost use Rattle.ga_disk.specs.Disk.{calls_once, fails_once, max_size};
ghost use Rattle.ga_real.specs.FreshDisk.{any_images, no_disk_open, reads-as-any};

use crate::real_files::only_regular;
use ga_base::Text;
use ga_disk::{Disk, DiskCounts, MAX_SIZE};
use ga_ports::Failed;
use std::alloc::{AllocError, Global};
use std::fs::{self, File, Metadata, OpenOptions};
use std::io::{self, ErrorKind};
use std::marker::Model;
use std::os::unix::fs::FileExt;
use std::rt;

/// The disk of the system: the files `goaccess.side0` and `goaccess.side1` of a folder. It tells no content, and nothing
/// of what a crash may leave; each failure is counted.
///
/// While it is open it holds an advisory lock on the file of side 0, so that a second program can't open the same
/// folder, nor the same disk open it again. The lock ends with the disk.
#[derive(Drop)]
pub struct RealDisk<'a, R: rt::Files<File = File>> {
    /// What opens files.
    rt: &'a R,
    /// Where the names of the files are made.
    alloc: Global,
    /// The files of both sides, once they are open.
    sides: Option<[File; 2]>,
    /// How often each kind of call came and failed.
    counts: DiskCounts,
}

impl<'a, R: rt::Files<File = File>> Model for RealDisk<'a, R> {
    ghost use Rattle.std.specs.Prelude.{None, false, is_some};
    ghost use Rattle.ga_disk.specs.Disk.{DiskView};

    ghost Value = { DiskView };

    ghost view = { λ d. record {
      is_open = is_some d.sides;
      seen = None;
      path = None;
      steady = false;
      listed = None;
      bound = None;
      counts = d.counts;
    } };
}

impl<'a, R: rt::Files<File = File>> RealDisk<'a, R> {
    /// The disk of this runtime, which isn't open.
    pub fn new(rt: &'a R, alloc: Global) -> RealDisk<'a, R>
        ensures { result ≡ no_disk_open }
    {
        RealDisk {
            rt,
            alloc,
            sides: None,
            counts: DiskCounts::ZERO,
        }
    }

    /// The file of a side.
    fn file(&self, side: u32) -> &File
        requires open { IsTrue self.now.is_open }
        requires side { side < 2 }
    {
        &self.sides.as_ref().unwrap()[side as usize]
    }
}

impl<'a, R: rt::Files<File = File>> Disk for RealDisk<'a, R> {
    ghost view = { λ d. d };

    ghost images = { λ d. any_images };

    ghost reads_as_image = { λ d. reads-as-any d.seen };

    ghost counts_now = { λ d t image le left. tt };

    ghost only_now = { λ d image left. tt };

    fn open(&mut self, path: &Text) -> Result<(), Failed> {
        self.counts.ask();
        let Ok(names) = names_in(self.alloc, path.as_str()) else {
            self.counts.starve();
            return Err(Failed);
        };
        match open_sides(self.rt, path.as_str(), &names) {
            Ok(sides) => {
                self.counts.call();
                self.sides = Some(sides);
                Ok(())
            }
            Err(_) => {
                self.counts.fail();
                Err(Failed)
            }
        }
    }

    fn size(&mut self, side: u32) -> Result<u64, Failed> {
        let tried = size_of(self.file(side));
        settle(&mut self.counts, tried)
    }

    fn read_at(&mut self, side: u32, at: u64, into: &mut [u8]) -> Result<(), Failed> {
        let tried = self.file(side).read_exact_at(into, at);
        settle(&mut self.counts, tried)
    }

    fn write_at(&mut self, side: u32, at: u64, piece: &[u8]) -> Result<(), Failed> {
        let tried = write_within(self.file(side), at, piece);
        settle(&mut self.counts, tried)
    }

    fn cut(&mut self, side: u32, len: u64) -> Result<(), Failed> {
        let tried = shorten(self.file(side), len);
        settle(&mut self.counts, tried)
    }

    fn sync(&mut self, side: u32) -> Result<(), Failed> {
        let tried = self.file(side).sync_all();
        settle(&mut self.counts, tried)
    }
}

/// Counts a call that was tried on a file.
fn settle<T: Drop>(counts: &mut DiskCounts, tried: io::Result<T>) -> Result<T, Failed>
    ensures ok { IfOk result (λ given. (tried ≡ OkSpec given) × (counts.new ≡ calls_once counts.old)) }
    ensures failed { OnErr result (IsErr tried × (counts.new ≡ fails_once counts.old.starved counts.old)) }
{
    match tried {
        Ok(given) => {
            counts.call();
            Ok(given)
        }
        Err(_) => {
            counts.fail();
            Err(Failed)
        }
    }
}

/// The names of the files of both sides in a folder.
fn names_in(alloc: Global, folder: &str) -> Result<[String; 2], AllocError> {
    Ok([
        format!(in alloc; "{folder}/goaccess.side0")?,
        format!(in alloc; "{folder}/goaccess.side1")?,
    ])
}

/// Opens the files of both sides in a folder that is there, makes those that aren't there, and takes the lock. The folder
/// is synced, so that the names of new files last.
fn open_sides<R: rt::Files<File = File>>(
    rt: &R,
    folder: &str,
    names: &[String; 2],
) -> io::Result<[File; 2]> {
    let (folder, _) = open_folder(rt, folder)?;
    let (first, _) = open_side(rt, names[0].as_str())?;
    first.try_lock()?;
    let (second, _) = open_side(rt, names[1].as_str())?;
    folder.sync_all()?;
    Ok([first, second])
}

/// Opens a folder, and gives what the system said of it before. The kind is asked for first, since a pipe without a
/// writer would block.
fn open_folder<R: rt::Files<File = File>>(rt: &R, path: &str) -> io::Result<(File, Metadata)>
    ensures { IfOk result (λ opened. IsDir (file_type opened.1)) }
{
    let metadata = fs::metadata(rt, path)?;
    if !metadata.is_dir() {
        return Err(io::Error::from(ErrorKind::NotADirectory));
    }
    Ok((fs::open(rt, path)?, metadata))
}

/// Opens the file of a side for reading and writing, makes it, empty, where it isn't there, and gives what the system
/// says of it then: it is a regular file.
fn open_side<R: rt::Files<File = File>>(rt: &R, path: &str) -> io::Result<(File, Metadata)>
    ensures { IfOk result (λ opened. IsFile (file_type opened.1)) }
{
    let file = OpenOptions::new()
        .read(true)
        .write(true)
        .create(true)
        .open(rt, path)?;
    let metadata = only_regular(file.metadata()?)?;
    Ok((file, metadata))
}

/// The size of a file, which is no greater than the greatest of a side.
fn size_of(file: &File) -> io::Result<u64>
    ensures { IfOk result (λ size. size ≤ max_size) }
{
    let size = file.metadata()?.len();
    if size > MAX_SIZE {
        return Err(io::Error::from(ErrorKind::FileTooLarge));
    }
    Ok(size)
}

/// Writes a piece to a file at a place, where its end doesn't pass the greatest size of a side.
fn write_within(file: &File, at: u64, piece: &[u8]) -> io::Result<()>
    ensures { OnOk result (at + length piece.now ≤ max_size) }
{
    if at.saturating_add(piece.len() as u64) > MAX_SIZE {
        return Err(io::Error::from(ErrorKind::FileTooLarge));
    }
    file.write_all_at(piece, at)
}

/// Cuts a file to a length where it is longer.
fn shorten(file: &File, len: u64) -> io::Result<()> {
    if file.metadata()?.len() > len {
        file.set_len(len)?;
    }
    Ok(())
}
