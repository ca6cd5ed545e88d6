//! The traits of the outside, their forms in memory, and the adapters.

ghost use Rattle.std.specs.Prelude.{◌+◌, ◌<◌, IsTrue, length};
ghost use Rattle.ga_disk.specs.Disk.{Reaches};
ghost use Rattle.ga_ports.specs.Outs.{CanTake};

use ga_base::{Bytes, NoMemory, Text};
use ga_ports::{
    Disk, Failed, Files, Gate, HoldGate, MemDisk, MemFiles, MemOuts, NoGate, Outs, ShortFiles,
    SureFiles, SureOuts, To,
};
use ga_real::{RealDisk, RealFiles, RealOuts};
use std::alloc::Global;
use std::fs::File;
use std::rt;

/// What a report or a fault line is written to.
pub const TARGETS: [To; 3] = [To::Stdout, To::Stderr, To::File];

/// Opens a file, as each form does.
pub fn open<F: Files>(files: &mut F, name: &Text) -> Result<(), Failed> {
    files.open(name)
}

/// Asks for its size.
pub fn size<F: Files>(files: &mut F) -> Result<u64, Failed>
    requires { IsTrue (F.view files.old).is_open }
{
    files.size()
}

/// Reads bytes of it.
pub fn read<F: Files>(files: &mut F, at: u64, into: &mut [u8]) -> Result<usize, Failed>
    requires { IsTrue (F.view files.old).is_open }
{
    files.read_at(at, into)
}

/// Makes a report's file.
pub fn create<O: Outs>(outs: &mut O, name: &Text) -> Result<(), Failed> {
    outs.create(name)
}

/// Writes to a target.
pub fn write<O: Outs>(outs: &mut O, to: To, piece: &[u8]) -> Result<usize, Failed>
    requires { CanTake to (O.view outs.old) }
{
    outs.write(to, piece)
}

/// Opens the sides below a path.
pub fn open_disk<D: Disk>(disk: &mut D, path: &Text) -> Result<(), Failed> {
    disk.open(path)
}

/// Asks for the size of a side.
pub fn side_size<D: Disk>(disk: &mut D, side: u32) -> Result<u64, Failed>
    requires open { IsTrue (D.view disk.old).is_open }
    requires side { side < 2 }
{
    disk.size(side)
}

/// Reads bytes of a side.
pub fn read_side<D: Disk>(disk: &mut D, side: u32, at: u64, into: &mut [u8]) -> Result<(), Failed>
    requires open { IsTrue (D.view disk.old).is_open }
    requires side { side < 2 }
    requires within { Reaches side (at + length into.old) (D.view disk.old).seen }
{
    disk.read_at(side, at, into)
}

/// Writes bytes of a side.
pub fn write_side<D: Disk>(disk: &mut D, side: u32, at: u64, piece: &[u8]) -> Result<(), Failed>
    requires open { IsTrue (D.view disk.old).is_open }
    requires side { side < 2 }
    requires within { Reaches side at (D.view disk.old).seen }
{
    disk.write_at(side, at, piece)
}

/// Cuts a side.
pub fn cut_side<D: Disk>(disk: &mut D, side: u32, len: u64) -> Result<(), Failed>
    requires open { IsTrue (D.view disk.old).is_open }
    requires side { side < 2 }
{
    disk.cut(side, len)
}

/// Syncs a side.
pub fn sync_side<D: Disk>(disk: &mut D, side: u32) -> Result<(), Failed>
    requires open { IsTrue (D.view disk.old).is_open }
    requires side { side < 2 }
{
    disk.sync(side)
}

/// Passes a gate.
pub fn pass<G: Gate>(gate: &G, worker: u32) {
    gate.pass(worker)
}

/// Whether worker 1 passed while worker 0 was held.
pub fn met(gate: &HoldGate) -> bool {
    gate.met()
}

/// The gates.
pub fn gates() -> (NoGate, HoldGate) {
    (NoGate::new(), HoldGate::new())
}

/// Files, a disk and targets in memory.
pub fn in_memory(alloc: Global) -> (MemFiles, MemDisk, MemOuts) {
    (
        MemFiles::new(alloc),
        MemDisk::new(alloc),
        MemOuts::new(alloc),
    )
}

/// Forms none of whose calls fails.
pub fn sure(alloc: Global) -> (SureFiles, SureOuts) {
    (SureFiles::new(alloc), SureOuts::new())
}

/// Files that are shorter than they say.
pub fn short(size: u64, bytes: Bytes) -> ShortFiles
    requires { length bytes < size }
{
    ShortFiles::new(size, bytes)
}

/// Appends to a file.
pub fn grow(files: &mut MemFiles, name: &Text, bytes: &[u8]) -> Result<(), NoMemory> {
    files.grow(name, bytes)
}

/// Appends to a file that is always there.
pub fn grow_sure(files: &mut SureFiles, name: &Text, bytes: &[u8]) -> Result<(), NoMemory> {
    files.grow(name, bytes)
}

/// Gives a file another name.
pub fn rename(files: &mut MemFiles, from: &Text, to: &Text) -> Result<(), NoMemory> {
    files.rename(from, to)
}

/// Lists a call of files that is to fail.
pub fn fail_file(files: &mut MemFiles, call: u64) -> Result<(), NoMemory> {
    files.fail_at(call)
}

/// How many bytes files have handed out.
pub fn given(files: &MemFiles) -> u64 {
    files.bytes_given()
}

/// Lists a call of targets that is to fail.
pub fn fail_out(outs: &mut MemOuts, call: u64) -> Result<(), NoMemory> {
    outs.fail_at(call)
}

/// Gives a target room.
pub fn set_room(outs: &mut MemOuts, to: To, room: u64) {
    outs.set_room(to, room)
}

/// What a target took.
pub fn taken(outs: &MemOuts, to: To) -> &[u8] {
    outs.taken(to)
}

/// How many calls of targets found no memory, and how many files were made.
pub fn counts_of(outs: &MemOuts) -> (u64, u64) {
    (outs.starved(), outs.times_made())
}

/// The file that was made last.
pub fn last_made(outs: &MemOuts) -> Option<&Text> {
    outs.last_made()
}

/// Lists a call of a disk that is to fail.
pub fn fail_disk(disk: &mut MemDisk, call: u64) -> Result<(), NoMemory> {
    disk.fail_at(call)
}

/// Leaves one image that a crash may leave.
pub fn crash(disk: &mut MemDisk, pick: &[u8]) {
    disk.crash(pick)
}

/// The bytes of a side.
pub fn side(disk: &MemDisk, side: u32) -> &[u8]
    requires { side < 2 }
{
    disk.side(side)
}

/// How many calls of a disk found no memory.
pub fn starved(disk: &MemDisk) -> u64 {
    disk.starved()
}

/// The path that was opened last.
pub fn last_opened(disk: &MemDisk) -> Option<&Text> {
    disk.last_opened()
}

/// The disk of a system.
pub fn real_disk<R: rt::Files<File = File>>(rt: &R, alloc: Global) -> RealDisk<'_, R> {
    RealDisk::new(rt, alloc)
}

/// The files of a system.
pub fn real_files<R: rt::Files<File = File>>(rt: &R) -> RealFiles<'_, R> {
    RealFiles::new(rt)
}

/// The targets of a system.
pub fn real_outs<'a, R: rt::Files, P: Print, E: Print>(
    rt: &'a R,
    output: &'a P,
    errors: &'a E,
) -> RealOuts<'a, R, P, E> {
    RealOuts::new(rt, output, errors)
}
