use ga_base::{NoMemory, Text, Texts};
use ga_disk::MemDisk;
use ga_one_run::{Status, goaccess_run};
use ga_ports::{MemFiles, MemOuts, NoGate, To};
use std::alloc::Global;
use std::thread::Threads;

/// The words between bars.
pub fn words_of(alloc: Global, row: &str) -> Result<Texts, NoMemory> {
    let mut words = Texts::new(alloc);
    for word in row.split('|') {
        words.push(Text::of(alloc, word)?)?;
    }
    Ok(words)
}

/// What runs stand in.
#[derive(Drop)]
pub struct World {
    pub files: MemFiles,
    pub disk: MemDisk,
}

impl World {
    /// No files, and nothing on the disk.
    pub fn new(alloc: Global) -> World {
        World {
            files: MemFiles::new(alloc),
            disk: MemDisk::new(alloc),
        }
    }

    /// Adds to a log.
    pub fn grow(&mut self, alloc: Global, name: &str, bytes: &[u8]) -> Result<(), NoMemory> {
        self.files.grow(&Text::of(alloc, name)?, bytes)
    }

    /// How a run ends. Its targets are those given.
    pub fn run<R: Threads + Sync>(
        &mut self,
        rt: &R,
        alloc: Global,
        words: &str,
        outs: &mut MemOuts,
    ) -> Result<Status, NoMemory> {
        let (words, gate) = (words_of(alloc, words)?, NoGate::new());
        let World { files, disk } = self;
        Ok(goaccess_run(rt, alloc, words.items(), files, disk, outs, &gate))
    }

    /// The exit status of a run, and what all its targets took.
    pub fn answer<R: Threads + Sync>(
        &mut self,
        rt: &R,
        alloc: Global,
        words: &str,
    ) -> Result<Vec<u8>, NoMemory> {
        let mut outs = MemOuts::new(alloc);
        let status = self.run(rt, alloc, words, &mut outs)?;
        let mut answer = Vec::new(alloc);
        answer.extend_from_slice(format!(in alloc; "{}\n", status.code())?.as_bytes())?;
        for to in [To::Stdout, To::Stderr, To::File] {
            answer.extend_from_slice(outs.taken(to))?;
        }
        Ok(answer)
    }
}
