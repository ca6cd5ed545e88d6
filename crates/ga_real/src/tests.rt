use crate::{RealFiles, RealOuts};
use ga_base::Text;
use ga_ports::{Failed, Files, Outs, To};
use std::alloc::Global;
use std::cell::RefCell;
use std::fmt::Display;
use std::io::{self, ErrorKind, Print};
use std::os::unix::fs::FileExt;
use std::test::Fail;
use std::{env, fs, process};

/// The length of a file of two slices and a half, a slice being the 64 KiB by which a log is read.
const LENGTH: u32 = 163_840;

/// This many bytes, each four of which hold their own number.
fn numbers(alloc: Global) -> Result<Vec<u8>, Fail> {
    let mut bytes = Vec::new(alloc);
    for number in 0..LENGTH / 4 {
        bytes.extend_from_slice(&number.to_be_bytes())?;
    }
    Ok(bytes)
}

/// Opens a file and reads it at a place.
fn read<F: Files>(
    files: &mut F,
    name: &Text,
    at: u64,
    into: &mut [u8],
) -> Result<(u64, usize), Failed> {
    files.open(name)?;
    let size = files.size()?;
    Ok((size, files.read_at(at, into)?))
}

#[test]
fn a_real_file_is_read_at_places(rt: HostRuntime) -> Result<(), Fail> {
    let alloc = rt.alloc();
    let folder = env::temp_dir(&rt)?;
    let id = process::id(rt.process());
    let path = format!(in alloc; "{}/goaccess-test-{id}", folder.as_str())?;
    let bytes = numbers(alloc)?;
    fs::write(&rt, path.as_str(), bytes.as_slice())?;
    let name = Text::of(alloc, &path)?;
    let mut files = RealFiles::new(&rt);
    let mut slice = vec![in alloc; 0u8; 65_536]?;
    for (at, end) in [
        (0, 65_536),
        (65_536, 131_072),
        (131_072, 163_840),
        (100_001, 163_840),
        (4, 65_540),
        (163_840, 163_840),
    ] {
        let (size, count) = read(&mut files, &name, at as u64, &mut slice)?;
        assert_eq!(rt; size, u64::from(LENGTH));
        assert!(rt; slice.get(..count) == bytes.get(at..end), "{at}");
    }
    fs::remove_file(&rt, path.as_str())?;
    Ok(())
}

/// The size of a file of which the disk holds little, a place after its fourth gibibyte, and what is there.
const SPARSE: u64 = 5_368_709_120;

const FAR: u64 = 4_294_967_303;

const THERE: &[u8] = b"so far";

#[test]
fn a_file_of_five_gibibytes_is_read_after_the_fourth(rt: HostRuntime) -> Result<(), Fail> {
    let alloc = rt.alloc();
    let folder = env::temp_dir(&rt)?;
    let id = process::id(rt.process());
    let path = format!(in alloc; "{}/goaccess-sparse-{id}", folder.as_str())?;
    let file = fs::create(&rt, path.as_str())?;
    file.set_len(SPARSE)?;
    assert_eq!(rt; file.write_at(THERE, FAR)?, THERE.len());
    drop(file);
    let name = Text::of(alloc, &path)?;
    let mut files = RealFiles::new(&rt);
    let mut bytes = [1; 8];
    for (at, count, there) in [(FAR, 8, *b"so far\0\0"), (SPARSE - 3, 3, *b"\0\0\0far\0\0")] {
        assert_eq!(rt;
            read(&mut files, &name, at, &mut bytes),
            Ok((SPARSE, count))
        );
        assert_eq!(rt; bytes, there);
    }
    fs::remove_file(&rt, path.as_str())?;
    Ok(())
}

#[test]
fn only_regular_files_open(rt: HostRuntime) -> Result<(), Fail> {
    let mut files = RealFiles::new(&rt);
    for path in ["/", "/dev/null", "/dev/zero", "/nothing-of-this-name"] {
        let name = Text::of(rt.alloc(), path)?;
        assert!(rt; files.open(&name).is_err(), "{path}");
    }
    Ok(())
}

/// A printer into memory.
#[derive(Drop)]
struct Paper {
    text: RefCell<Vec<u8>>,
}

impl Paper {
    /// Nothing printed yet.
    fn blank(alloc: Global) -> Paper {
        Paper {
            text: RefCell::new(Vec::new(alloc)),
        }
    }

    /// Whether exactly these bytes were printed.
    fn shows(&self, bytes: &[u8]) -> bool {
        match self.text.try_borrow() {
            Ok(text) => text.as_slice() == bytes,
            Err(_) => false,
        }
    }
}

impl Print for Paper {
    fn print<D: Display + Drop>(&self, _value: D) -> io::Result<()> {
        Err(io::Error::from(ErrorKind::Unsupported))
    }

    fn println<D: Display + Drop>(&self, _value: D) -> io::Result<()> {
        Err(io::Error::from(ErrorKind::Unsupported))
    }

    fn write_all(&self, bytes: &[u8]) -> io::Result<()> {
        let Ok(mut text) = self.text.try_borrow_mut() else {
            return Err(io::Error::from(ErrorKind::WouldBlock));
        };
        text.extend_from_slice(bytes)?;
        Ok(())
    }
}

#[test]
fn each_target_has_its_printer(rt: HostRuntime) -> Result<(), Fail> {
    let (output, errors) = (Paper::blank(rt.alloc()), Paper::blank(rt.alloc()));
    let mut outs = RealOuts::new(&rt, &output, &errors);
    assert_eq!(rt; outs.write(To::Stdout, b"the report"), Ok(10));
    assert_eq!(rt; outs.write(To::Stderr, b"a fault"), Ok(7));
    assert!(rt; output.shows(b"the report"));
    assert!(rt; errors.shows(b"a fault"));
    Ok(())
}

#[test]
fn a_report_takes_the_place_of_an_older_one(rt: HostRuntime) -> Result<(), Fail> {
    let alloc = rt.alloc();
    let folder = env::temp_dir(&rt)?;
    let id = process::id(rt.process());
    let path = format!(in alloc; "{}/goaccess-report-{id}", folder.as_str())?;
    fs::write(&rt, path.as_str(), b"an older report".as_slice())?;
    let name = Text::of(alloc, &path)?;
    let (output, errors) = (Paper::blank(alloc), Paper::blank(alloc));
    let mut outs = RealOuts::new(&rt, &output, &errors);
    if outs.create(&name).is_ok() {
        assert_eq!(rt; outs.write(To::File, b"rows"), Ok(4));
    }
    assert_eq!(rt;
        fs::read(&rt, path.as_str())?.as_slice(),
        b"rows".as_slice()
    );
    fs::remove_file(&rt, path.as_str())?;
    Ok(())
}
