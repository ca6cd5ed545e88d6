use ga_base::Text;
use ga_ports::{Failed, Files, MemFiles, MemOuts, Outs, SureFiles, SureOuts, To};
use std::test::Fail;

/// The size of a file and its first four bytes.
fn read<F: Files>(files: &mut F, name: &Text) -> Result<(u64, [u8; 4]), Failed> {
    files.open(name)?;
    let size = files.size()?;
    let mut front = [0; 4];
    files.read_at(0, &mut front)?;
    Ok((size, front))
}

/// Makes the report's file, and writes five bytes to it: how many it takes.
fn write<O: Outs>(outs: &mut O, name: &Text) -> Result<usize, Failed> {
    outs.create(name)?;
    outs.write(To::File, b"lines")
}

/// A file in memory is read once the call that is listed has failed; over the sure form no call fails.
#[test]
fn files_in_memory_are_read(rt: HostRuntime) -> Result<(), Fail> {
    let alloc = rt.alloc();
    let name = Text::of(alloc, "a.log")?;
    let mut files = MemFiles::new(alloc);
    files.grow(&name, b"lines")?;
    files.fail_at(3)?;
    let mut sure = SureFiles::new(alloc);
    sure.grow(&name, b"lines")?;
    let first = read(&mut files, &name);
    let again = read(&mut files, &name);
    let surely = read(&mut sure, &name);
    let said = (5, *b"line");
    assert_eq!(rt; [first, again, surely], [Err(Failed), Ok(said), Ok(said)]);
    Ok(())
}

/// The same of targets in memory.
#[test]
fn targets_in_memory_are_written(rt: HostRuntime) -> Result<(), Fail> {
    let alloc = rt.alloc();
    let name = Text::of(alloc, "a.csv")?;
    let mut outs = MemOuts::new(alloc);
    outs.fail_at(2)?;
    let mut sure = SureOuts::new();
    let first = write(&mut outs, &name);
    let again = write(&mut outs, &name);
    let surely = write(&mut sure, &name);
    assert_eq!(rt; [first, again, surely], [Err(Failed), Ok(5), Ok(5)]);
    assert_eq!(rt; outs.taken(To::File), b"lines".as_slice());
    Ok(())
}
