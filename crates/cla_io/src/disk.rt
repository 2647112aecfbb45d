//! Real files.

use crate::files::Files;
use crate::std_sink::write_some;
use crate::stop::Stop;
use cla_num::Name;
use std::alloc::Global;
use std::io::{ErrorKind, Read, Write};
use std::{fs, rt};

// A real file that is being read, with its name and how many of its bytes were taken.
#[derive(Drop)]
struct Opened<H: Drop> {
    file: H,
    name: Name,
    place: u64,
}

impl<H: Read + Drop> Opened<H> {
    ghost use Rattle.std.specs.Prelude.{◌≡◌, ◌+◌, ◌≤◌, min, length, take, MatchOption, IfSome};
    ghost use Rattle.std.specs.Io.KnownBytes.{Consumes, Keeps};
    ghost use Rattle.cla_io.specs.Counts.{counter_end};

    // Reads the next bytes, and gives their number. `None` is an error, after which the place is as
    // it was.
    fn read_on(&mut self, into: &mut [u8]) -> Option<usize>
        ensures name { self.new.name ≡ self.old.name }
        ensures within { IfSome result (λ n. n ≤ length into.new) }
        ensures place { MatchOption result (self.new.place ≡ self.old.place)
            (λ n. self.new.place ≡ min (self.old.place + n) counter_end) }
        ensures reaches { MatchOption result (Keeps (H.remaining self.old.file) (H.remaining self.new.file))
            (λ n. Consumes (H.remaining self.old.file) (H.remaining self.new.file) (take n into.new)) }
    {
        let count = self.file.read(into).ok()?;
        self.place = self.place.saturating_add(count as u64);
        Some(count)
    }
}

// A real file that is being written, with its name.
#[derive(Drop)]
struct Written<H: Drop> {
    file: H,
    name: Name,
}

impl<H: Write + Drop> Written<H> {
    ghost use Rattle.std.specs.Prelude.{◌≡◌, ◌≤◌, length, take, IfSome};
    ghost use Rattle.std.specs.Io.KnownBytes.{Appends};

    // Writes some of the bytes, and gives their number. `None` is an error.
    fn write_on(&mut self, piece: &[u8]) -> Option<usize>
        ensures name { self.new.name ≡ self.old.name }
        ensures some { IfSome result (λ n. 1 ≤ n) }
        ensures within { IfSome result (λ n. n ≤ length piece.now) }
        ensures reaches { IfSome result (λ n. Appends (H.contents self.old.file) (H.contents self.new.file)
            (take n piece.now)) }
    {
        write_some(&mut self.file, piece)
    }
}

/// Real files, of whose content nothing is told. A folder can't be read or written: to open it or
/// to read of it fails.
#[derive(Drop)]
pub struct DiskFiles<'r, R: rt::Files> {
    rt: &'r R,
    alloc: Global,
    reading: Option<Opened<R::File>>,
    writing: Option<Written<R::File>>,
    read_faults: u64,
    write_faults: u64,
    misses: u64,
}

impl<'r, R: rt::Files> DiskFiles<'r, R> {
    ghost use Rattle.std.specs.Prelude.{◌≡◌, None, false};

    /// The files that the runtime reaches.
    pub fn new(rt: &'r R, alloc: Global) -> DiskFiles<'r, R>
        ensures { ⟦<DiskFiles<'r, R> as Files>⟧.state result ≡ record {
          told = None;
          reading = None;
          writing = None;
          read_faults = 0;
          write_faults = 0;
          misses = 0;
          steady = false;
        } }
    {
        DiskFiles {
            rt,
            alloc,
            reading: None,
            writing: None,
            read_faults: 0,
            write_faults: 0,
            misses: 0,
        }
    }
}

impl<'r, R: rt::Files> Files for DiskFiles<'r, R> {
    ghost use Rattle.std.specs.Prelude.{◌≡◌, ◌≢◌, ◌<◌, None, Err, false, IsSome, IsOk, length, option_map};
    ghost use Rattle.cla_io.specs.Counts.{HasCause};
    ghost use Rattle.cla_io.specs.Mem.{faults_after, misses_after};
    ghost use Rattle.cla_io.specs.Reads.{OnlyReads, BeginsRead, Reads};
    ghost use Rattle.cla_io.specs.Writes.{OnlyWrites, BeginsWrite, Writes};
    ghost use Rattle.cla_io.specs.Disk.{ReadsFile, WritesFile};
    ghost use Rattle.std.proofs.Common.{rules};

    ghost state = { λ d. record {
      told = None;
      reading = option_map (λ r. record { name = r.name; place = r.place }) d.reading;
      writing = option_map (λ w. w.name) d.writing;
      read_faults = d.read_faults;
      write_faults = d.write_faults;
      misses = d.misses;
      steady = false;
    } };

    fn begin_read(&mut self, name: &str) -> Result<bool, Stop>
        requires idle { (⟦<DiskFiles<'r, R> as Files>⟧.state self.old).writing ≡ None }
        ensures frame { OnlyReads (⟦<DiskFiles<'r, R> as Files>⟧.state self.old)
            (⟦<DiskFiles<'r, R> as Files>⟧.state self.new) }
        ensures begins { BeginsRead name.now (⟦<DiskFiles<'r, R> as Files>⟧.state self.old)
            (⟦<DiskFiles<'r, R> as Files>⟧.state self.new) result }
        ensures cause { HasCause (⟦<DiskFiles<'r, R> as Files>⟧.state self.old).read_faults
            (⟦<DiskFiles<'r, R> as Files>⟧.state self.new).read_faults result }
        ensures faults { (⟦<DiskFiles<'r, R> as Files>⟧.state self.new).read_faults ≡ faults_after result
            (⟦<DiskFiles<'r, R> as Files>⟧.state self.old).read_faults }
        ensures missed { (⟦<DiskFiles<'r, R> as Files>⟧.state self.new).misses ≡ misses_after result
            (⟦<DiskFiles<'r, R> as Files>⟧.state self.old).misses }
    {
        self.reading = None;
        let name = Name::of(self.alloc, name)?;
        match fs::open(self.rt, name.as_str()) {
            Ok(file) => {
                self.reading = Some(Opened {
                    file,
                    name,
                    place: 0,
                });
                Ok(true)
            }
            Err(error) if is_absent(error.kind()) => {
                self.misses = self.misses.saturating_add(1);
                Ok(false)
            }
            Err(_) => {
                self.read_faults = self.read_faults.saturating_add(1);
                Err(Stop::Failed)
            }
        }
    }

    fn read(&mut self, into: &mut [u8]) -> Result<usize, Stop>
        requires open { IsSome (⟦<DiskFiles<'r, R> as Files>⟧.state self.old).reading }
        requires room { 0 < length into.old }
        ensures frame { OnlyReads (⟦<DiskFiles<'r, R> as Files>⟧.state self.old)
            (⟦<DiskFiles<'r, R> as Files>⟧.state self.new) }
        ensures misses { (⟦<DiskFiles<'r, R> as Files>⟧.state self.new).misses
            ≡ (⟦<DiskFiles<'r, R> as Files>⟧.state self.old).misses }
        ensures reads { Reads (⟦<DiskFiles<'r, R> as Files>⟧.state self.old)
            (⟦<DiskFiles<'r, R> as Files>⟧.state self.new) into.new result }
        ensures cause { HasCause (⟦<DiskFiles<'r, R> as Files>⟧.state self.old).read_faults
            (⟦<DiskFiles<'r, R> as Files>⟧.state self.new).read_faults result }
        ensures reaches { ReadsFile R.File.remaining self.old.reading self.new.reading into.new result }
        ensures no_memory { result ≢ Err Stop.Memory }
        ensures faults { (⟦<DiskFiles<'r, R> as Files>⟧.state self.new).read_faults ≡ faults_after result
            (⟦<DiskFiles<'r, R> as Files>⟧.state self.old).read_faults }
    {
        let Some(opened) = &mut self.reading else {
            unreachable!()
        };
        match opened.read_on(into) {
            Some(count) => Ok(count),
            None => {
                self.read_faults = self.read_faults.saturating_add(1);
                Err(Stop::Failed)
            }
        }
    }

    fn begin_write(&mut self, name: &str) -> Result<(), Stop>
        ensures frame { OnlyWrites (⟦<DiskFiles<'r, R> as Files>⟧.state self.old)
            (⟦<DiskFiles<'r, R> as Files>⟧.state self.new) }
        ensures begins { BeginsWrite name.now (⟦<DiskFiles<'r, R> as Files>⟧.state self.old)
            (⟦<DiskFiles<'r, R> as Files>⟧.state self.new) result }
        ensures cause { HasCause (⟦<DiskFiles<'r, R> as Files>⟧.state self.old).write_faults
            (⟦<DiskFiles<'r, R> as Files>⟧.state self.new).write_faults result }
        ensures faults { (⟦<DiskFiles<'r, R> as Files>⟧.state self.new).write_faults ≡ faults_after result
            (⟦<DiskFiles<'r, R> as Files>⟧.state self.old).write_faults }
    {
        self.reading = None;
        self.writing = None;
        let name = Name::of(self.alloc, name)?;
        match fs::create(self.rt, name.as_str()) {
            Ok(file) => {
                self.writing = Some(Written { file, name });
                Ok(())
            }
            Err(_) => {
                self.write_faults = self.write_faults.saturating_add(1);
                Err(Stop::Failed)
            }
        }
    }

    fn write(&mut self, piece: &[u8]) -> Result<usize, Stop>
        requires open { IsSome (⟦<DiskFiles<'r, R> as Files>⟧.state self.old).writing }
        requires some { 0 < length piece.now }
        ensures frame { OnlyWrites (⟦<DiskFiles<'r, R> as Files>⟧.state self.old)
            (⟦<DiskFiles<'r, R> as Files>⟧.state self.new) }
        ensures reading { (⟦<DiskFiles<'r, R> as Files>⟧.state self.new).reading
            ≡ (⟦<DiskFiles<'r, R> as Files>⟧.state self.old).reading }
        ensures writing { (⟦<DiskFiles<'r, R> as Files>⟧.state self.new).writing
            ≡ (⟦<DiskFiles<'r, R> as Files>⟧.state self.old).writing }
        ensures writes { Writes piece.now (⟦<DiskFiles<'r, R> as Files>⟧.state self.old)
            (⟦<DiskFiles<'r, R> as Files>⟧.state self.new) result }
        ensures cause { HasCause (⟦<DiskFiles<'r, R> as Files>⟧.state self.old).write_faults
            (⟦<DiskFiles<'r, R> as Files>⟧.state self.new).write_faults result }
        ensures reaches { WritesFile R.File.contents self.old.writing self.new.writing piece.now result }
        ensures no_memory { result ≢ Err Stop.Memory }
        ensures faults { (⟦<DiskFiles<'r, R> as Files>⟧.state self.new).write_faults ≡ faults_after result
            (⟦<DiskFiles<'r, R> as Files>⟧.state self.old).write_faults }
    {
        let Some(written) = &mut self.writing else {
            unreachable!()
        };
        match written.write_on(piece) {
            Some(count) => Ok(count),
            None => {
                self.write_faults = self.write_faults.saturating_add(1);
                Err(Stop::Failed)
            }
        }
    }

    // A real file is closed where it is dropped, and an error of that isn't told.
    fn end_write(&mut self) -> Result<(), Stop>
        requires { IsSome (⟦<DiskFiles<'r, R> as Files>⟧.state self.old).writing }
        ensures frame { OnlyWrites (⟦<DiskFiles<'r, R> as Files>⟧.state self.old)
            (⟦<DiskFiles<'r, R> as Files>⟧.state self.new) }
        ensures told { (⟦<DiskFiles<'r, R> as Files>⟧.state self.new).told
            ≡ (⟦<DiskFiles<'r, R> as Files>⟧.state self.old).told }
        ensures reading { (⟦<DiskFiles<'r, R> as Files>⟧.state self.new).reading
            ≡ (⟦<DiskFiles<'r, R> as Files>⟧.state self.old).reading }
        ensures writing { (⟦<DiskFiles<'r, R> as Files>⟧.state self.new).writing ≡ None }
        ensures cause { HasCause (⟦<DiskFiles<'r, R> as Files>⟧.state self.old).write_faults
            (⟦<DiskFiles<'r, R> as Files>⟧.state self.new).write_faults result }
        ensures succeeds { IsOk result }
    {
        self.writing = None;
        Ok(())
    }

    ghost faultless = { λ d steady. Prim.search rules };

    ghost written_there = { λ d. tt };
}

ghost use Rattle.std.specs.Prelude.{◌≡◌, ◌↔◌, true};

// Whether an error of opening says that there is no such file.
fn is_absent(kind: ErrorKind) -> bool
    ensures { (result ≡ true) ↔ (kind ≡ ErrorKind.NotFound) }
{
    kind == ErrorKind::NotFound
}
