ghost use Rattle.std.specs.Prelude.{◌≡◌, ◌↔◌, IfOk, IsErr};
ghost use Rattle.std.specs.Fs.{IsFile, file_type};
ghost use Rattle.ga_real.specs.Fresh.{no_files_open};

use ga_base::Text;
use ga_ports::{Failed, FileCounts, Files, is_short};
use std::fs::{self, File, Metadata};
use std::marker::Model;
use std::os::unix::fs::FileExt;
use std::{io, rt};

/// The files of the system. They tell no content; each failure is counted.
///
/// Only a regular file is opened: a folder or a pipe has no size that says how much there is to read.
#[derive(Drop)]
pub struct RealFiles<'a, R: rt::Files<File = File>> {
    /// What opens files.
    rt: &'a R,
    /// The open file.
    file: Option<File>,
    /// The size last answered for the open file.
    measured: Option<u64>,
    /// How often each kind of call came and failed.
    counts: FileCounts,
}

impl<'a, R: rt::Files<File = File>> Model for RealFiles<'a, R> {
    ghost use Rattle.std.specs.Prelude.{None, is_some};
    ghost use Rattle.ga_ports.specs.Files.{FilesView};

    ghost Value = { FilesView };

    ghost view = { λ f. record {
      contents = None;
      listed = None;
      is_open = is_some f.file;
      bytes = None;
      measured = f.measured;
      counts = f.counts;
    } };
}

impl<'a, R: rt::Files<File = File>> RealFiles<'a, R> {
    /// The files of this runtime, none of them open.
    pub fn new(rt: &'a R) -> RealFiles<'a, R>
        ensures { result ≡ no_files_open }
    {
        RealFiles {
            rt,
            file: None,
            measured: None,
            counts: FileCounts::ZERO,
        }
    }
}

impl<'a, R: rt::Files<File = File>> Files for RealFiles<'a, R> {
    ghost view = { λ f. f };

    fn open(&mut self, name: &Text) -> Result<(), Failed> {
        self.file = None;
        self.measured = None;
        self.counts.ask(false);
        match open_regular(self.rt, name.as_str()) {
            Ok((file, _)) => {
                self.counts.call();
                self.file = Some(file);
                Ok(())
            }
            Err(_) => {
                self.counts.fail();
                Err(Failed)
            }
        }
    }

    fn size(&mut self) -> Result<u64, Failed> {
        match self.file.as_ref().map(|file| file.metadata()) {
            Some(Ok(metadata)) => {
                let size = metadata.len();
                self.counts.call();
                self.counts.measure(size);
                self.measured = Some(size);
                Ok(size)
            }
            _ => {
                self.counts.fail();
                Err(Failed)
            }
        }
    }

    fn read_at(&mut self, at: u64, into: &mut [u8]) -> Result<usize, Failed> {
        let Some(file) = &self.file else {
            self.counts.fail();
            return Err(Failed);
        };
        match file.read_at(into, at) {
            Ok(count) => {
                let short = is_short(self.measured, at, into.len(), count);
                self.counts.call();
                self.counts.give(short, at, count);
                Ok(count)
            }
            Err(_) => {
                self.counts.fail();
                Err(Failed)
            }
        }
    }
}

/// Opens a regular file, and gives what the system says of it once it is open. The kind is asked for before opening too,
/// since a pipe without a writer would block there.
fn open_regular<R: rt::Files<File = File>>(rt: &R, path: &str) -> io::Result<(File, Metadata)>
    ensures { IfOk result (λ opened. IsFile (file_type opened.1)) }
{
    only_regular(fs::metadata(rt, path)?)?;
    let file = fs::open(rt, path)?;
    let metadata = only_regular(file.metadata()?)?;
    Ok((file, metadata))
}

/// What the system says of a file, where that is a regular one: a folder, a pipe or a device is none.
pub fn only_regular(metadata: Metadata) -> io::Result<Metadata>
    ensures regular { IfOk result (λ same. (same ≡ metadata) × IsFile (file_type same)) }
    ensures other { IsErr result ↔ ¬ IsFile (file_type metadata) }
{
    if metadata.is_file() {
        Ok(metadata)
    } else {
        Err(io::Error::from(io::ErrorKind::InvalidInput))
    }
}
