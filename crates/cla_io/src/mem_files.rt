//! Files in memory.

ghost use Rattle.std.specs.Prelude.{IsSome};
ghost use Rattle.std.specs.Option.{ForSome};
ghost use Rattle.std.specs.FinMap as fin;
ghost use Rattle.cla_io.specs.Mem.{NoFaultsIfEmpty};
ghost use Rattle.cla_io.specs.MemTold.{told_of};

use crate::files::Files;
use crate::mem_map::{append, copy_front, find_bytes, has_name, make_empty, rest_of};
use crate::plan::Plan;
use crate::stop::{CallKind, Stop};
use cla_num::Name;
use std::collections::BTreeMap;

// The file that is being read, and how many of its bytes were taken.
#[derive(Drop)]
struct Opened {
    name: Name,
    place: usize,
}

impl Opened {
    ghost use Rattle.std.specs.Prelude.{◌≡◌, ◌+◌, ◌<◌, Some, min, drop, length};
    ghost use Rattle.cla_spec.specs.Files.{bytes_at};
    ghost use Rattle.cla_io.specs.MemTold.{told_of};
    ghost use Rattle.cla_io.specs.Reads.{Takes};

    // Reads the next bytes, as many as there are and as fit, and gives their number.
    fn read_on(&mut self, files: &BTreeMap<Name, Vec<u8>>, into: &mut [u8]) -> usize
        requires { 0 < length into.old }
        ensures name { self.new.name ≡ self.old.name }
        ensures place { self.new.place ≡ self.old.place + result }
        ensures most { result ≡ min (length (drop self.old.place (bytes_at (told_of files.now.entries) self.old.name)))
            (length into.new) }
        ensures takes { Takes (Some (drop self.old.place (bytes_at (told_of files.now.entries) self.old.name))) into.new
            result (Some (drop self.new.place (bytes_at (told_of files.now.entries) self.old.name))) }
    {
        let count = copy_front(rest_of(files, &self.name, self.place), into);
        self.place += count;
        count
    }
}

/// Files in memory. Their n-th call of a kind, numbered from 1, fails exactly where `fail` has the
/// kind with n.
#[derive(Drop)]
pub struct MemFiles {
    files: BTreeMap<Name, Vec<u8>>,
    plan: Plan,
    reading: Option<Opened>,
    writing: Option<Name>,
    read_faults: u64,
    write_faults: u64,
    misses: u64,
    ghost written: { ForSome writing (λ name. IsSome (fin.get (told_of files.entries) name)) },
    ghost unfailing_reads: { NoFaultsIfEmpty plan.fail.items read_faults },
    ghost unfailing_writes: { NoFaultsIfEmpty plan.fail.items write_faults },
}

impl MemFiles {
    ghost use Rattle.std.specs.Prelude.{◌≡◌, Some, None, option_map};
    ghost use Rattle.cla_io.specs.Mem.{is_empty_list};
    ghost use Rattle.cla_io.specs.MemTold.{told_of, told_at};
    ghost use Rattle.cla_io.specs.Plan.{no_calls};
    ghost use Rattle.cla_io.specs.MemFiles.{failing_calls, calls_made};

    /// Files of these bytes, whose n-th call of a kind fails exactly where `fail` has the kind with
    /// n, from 1.
    pub fn new(files: BTreeMap<Name, Vec<u8>>, fail: Vec<(CallKind, u64)>) -> MemFiles
        ensures state { ⟦<MemFiles as Files>⟧.state result ≡ record {
          told = Some (told_of files.entries);
          reading =
              None;
          writing = None;
          read_faults = 0;
          write_faults = 0;
          misses = 0;
          steady = is_empty_list fail.items;
        } }
        ensures failing { failing_calls result ≡ fail.items }
        ensures none { calls_made result ≡ no_calls }
    {
        MemFiles {
            files,
            plan: Plan::new(fail),
            reading: None,
            writing: None,
            read_faults: 0,
            write_faults: 0,
            misses: 0,
        }
    }

    /// The bytes of a file, where it is there. Takes no memory.
    pub fn bytes(&self, name: &str) -> Option<&[u8]>
        ensures { option_map (λ b. b.now) result ≡ told_at (⟦<MemFiles as Files>⟧.state self.now).told name.now }
    {
        find_bytes(&self.files, name)
    }
}

impl Files for MemFiles {
    ghost use Rattle.std.specs.Prelude.{◌≡◌, ◌≢◌, ◌<◌, ◌↔◌, Some, None, Err, IsSome, IfOk, Contains, length};
    ghost use Rattle.std.specs.Prelude.{option_map};
    ghost use Rattle.cla_io.specs.declared.stop.CallKind.TheVariants.{BeginRead, Read, BeginWrite, Write, EndWrite};
    ghost use Rattle.cla_io.specs.Counts.{HasCause};
    ghost use Rattle.cla_io.specs.Reads.{OnlyReads, BeginsRead, Reads};
    ghost use Rattle.cla_io.specs.Writes.{OnlyWrites, BeginsWrite, Writes};
    ghost use Rattle.cla_io.specs.Mem.{is_empty_list, faultless_files, faults_after, misses_after};
    ghost use Rattle.cla_io.specs.State.{left};
    ghost use Rattle.cla_io.specs.MemTold.{told_of, TakesMost};
    ghost use Rattle.cla_io.specs.Plan.{number_of, one_more};
    ghost use Rattle.cla_io.specs.MemFiles.{failing_calls, calls_made};

    ghost state = { λ m. record {
      told = Some (told_of m.files.entries);
      reading = option_map (λ r. record { name = r.name; place = r.place }) m.reading;
      writing = m.writing;
      read_faults = m.read_faults;
      write_faults = m.write_faults;
      misses = m.misses;
      steady = is_empty_list m.plan.fail.items;
    } };

    fn begin_read(&mut self, name: &str) -> Result<bool, Stop>
        requires idle { (⟦<MemFiles as Files>⟧.state self.old).writing ≡ None }
        ensures frame { OnlyReads (⟦<MemFiles as Files>⟧.state self.old) (⟦<MemFiles as Files>⟧.state self.new) }
        ensures begins { BeginsRead name.now (⟦<MemFiles as Files>⟧.state self.old)
            (⟦<MemFiles as Files>⟧.state self.new) result }
        ensures cause { HasCause (⟦<MemFiles as Files>⟧.state self.old).read_faults
            (⟦<MemFiles as Files>⟧.state self.new).read_faults result }
        ensures numbered { calls_made self.new ≡ one_more BeginRead (calls_made self.old) }
        ensures planned { failing_calls self.new ≡ failing_calls self.old }
        ensures fails { (result ≡ Err Stop.Failed) ↔ Contains (failing_calls self.old)
            (BeginRead, number_of BeginRead (calls_made self.new)) }
        ensures faults { (⟦<MemFiles as Files>⟧.state self.new).read_faults ≡ faults_after result
            (⟦<MemFiles as Files>⟧.state self.old).read_faults }
        ensures missed { (⟦<MemFiles as Files>⟧.state self.new).misses ≡ misses_after result
            (⟦<MemFiles as Files>⟧.state self.old).misses }
    {
        self.reading = None;
        if self.plan.fails(CallKind::BeginRead) {
            self.read_faults = self.read_faults.saturating_add(1);
            return Err(Stop::Failed);
        }
        let name = Name::of(*self.plan.fail.allocator(), name)?;
        if !has_name(&self.files, &name) {
            self.misses = self.misses.saturating_add(1);
            return Ok(false);
        }
        self.reading = Some(Opened { name, place: 0 });
        Ok(true)
    }

    fn read(&mut self, into: &mut [u8]) -> Result<usize, Stop>
        requires open { IsSome (⟦<MemFiles as Files>⟧.state self.old).reading }
        requires room { 0 < length into.old }
        ensures frame { OnlyReads (⟦<MemFiles as Files>⟧.state self.old) (⟦<MemFiles as Files>⟧.state self.new) }
        ensures misses { (⟦<MemFiles as Files>⟧.state self.new).misses ≡ (⟦<MemFiles as Files>⟧.state self.old).misses }
        ensures reads { Reads (⟦<MemFiles as Files>⟧.state self.old) (⟦<MemFiles as Files>⟧.state self.new) into.new
            result }
        ensures no_memory { result ≢ Err Stop.Memory }
        ensures most { TakesMost (left (⟦<MemFiles as Files>⟧.state self.old)) (length into.old) result }
        ensures cause { HasCause (⟦<MemFiles as Files>⟧.state self.old).read_faults
            (⟦<MemFiles as Files>⟧.state self.new).read_faults result }
        ensures numbered { calls_made self.new ≡ one_more Read (calls_made self.old) }
        ensures planned { failing_calls self.new ≡ failing_calls self.old }
        ensures fails { (result ≡ Err Stop.Failed) ↔ Contains (failing_calls self.old)
            (Read, number_of Read (calls_made self.new)) }
        ensures faults { (⟦<MemFiles as Files>⟧.state self.new).read_faults ≡ faults_after result
            (⟦<MemFiles as Files>⟧.state self.old).read_faults }
    {
        if self.plan.fails(CallKind::Read) {
            self.read_faults = self.read_faults.saturating_add(1);
            return Err(Stop::Failed);
        }
        let Some(opened) = &mut self.reading else {
            unreachable!()
        };
        Ok(opened.read_on(&self.files, into))
    }

    fn begin_write(&mut self, name: &str) -> Result<(), Stop>
        ensures frame { OnlyWrites (⟦<MemFiles as Files>⟧.state self.old) (⟦<MemFiles as Files>⟧.state self.new) }
        ensures begins { BeginsWrite name.now (⟦<MemFiles as Files>⟧.state self.old)
            (⟦<MemFiles as Files>⟧.state self.new) result }
        ensures cause { HasCause (⟦<MemFiles as Files>⟧.state self.old).write_faults
            (⟦<MemFiles as Files>⟧.state self.new).write_faults result }
        ensures numbered { calls_made self.new ≡ one_more BeginWrite (calls_made self.old) }
        ensures planned { failing_calls self.new ≡ failing_calls self.old }
        ensures fails { (result ≡ Err Stop.Failed) ↔ Contains (failing_calls self.old)
            (BeginWrite, number_of BeginWrite (calls_made self.new)) }
        ensures faults { (⟦<MemFiles as Files>⟧.state self.new).write_faults ≡ faults_after result
            (⟦<MemFiles as Files>⟧.state self.old).write_faults }
    {
        self.reading = None;
        self.writing = None;
        if self.plan.fails(CallKind::BeginWrite) {
            self.write_faults = self.write_faults.saturating_add(1);
            return Err(Stop::Failed);
        }
        let alloc = *self.plan.fail.allocator();
        let writing = Name::of(alloc, name)?;
        let key = Name::of(alloc, name)?;
        make_empty(&mut self.files, key, Vec::new(alloc))?;
        self.writing = Some(writing);
        Ok(())
    }

    fn write(&mut self, piece: &[u8]) -> Result<usize, Stop>
        requires open { IsSome (⟦<MemFiles as Files>⟧.state self.old).writing }
        requires some { 0 < length piece.now }
        ensures frame { OnlyWrites (⟦<MemFiles as Files>⟧.state self.old) (⟦<MemFiles as Files>⟧.state self.new) }
        ensures reading { (⟦<MemFiles as Files>⟧.state self.new).reading
            ≡ (⟦<MemFiles as Files>⟧.state self.old).reading }
        ensures writing { (⟦<MemFiles as Files>⟧.state self.new).writing
            ≡ (⟦<MemFiles as Files>⟧.state self.old).writing }
        ensures writes { Writes piece.now (⟦<MemFiles as Files>⟧.state self.old) (⟦<MemFiles as Files>⟧.state self.new)
            result }
        ensures cause { HasCause (⟦<MemFiles as Files>⟧.state self.old).write_faults
            (⟦<MemFiles as Files>⟧.state self.new).write_faults result }
        ensures whole { IfOk result (λ n. n ≡ length piece.now) }
        ensures numbered { calls_made self.new ≡ one_more Write (calls_made self.old) }
        ensures planned { failing_calls self.new ≡ failing_calls self.old }
        ensures fails { (result ≡ Err Stop.Failed) ↔ Contains (failing_calls self.old)
            (Write, number_of Write (calls_made self.new)) }
        ensures faults { (⟦<MemFiles as Files>⟧.state self.new).write_faults ≡ faults_after result
            (⟦<MemFiles as Files>⟧.state self.old).write_faults }
    {
        if self.plan.fails(CallKind::Write) {
            self.write_faults = self.write_faults.saturating_add(1);
            return Err(Stop::Failed);
        }
        let Some(name) = &self.writing else {
            unreachable!()
        };
        append(&mut self.files, name, piece)?;
        Ok(piece.len())
    }

    fn end_write(&mut self) -> Result<(), Stop>
        requires { IsSome (⟦<MemFiles as Files>⟧.state self.old).writing }
        ensures frame { OnlyWrites (⟦<MemFiles as Files>⟧.state self.old) (⟦<MemFiles as Files>⟧.state self.new) }
        ensures told { (⟦<MemFiles as Files>⟧.state self.new).told ≡ (⟦<MemFiles as Files>⟧.state self.old).told }
        ensures reading { (⟦<MemFiles as Files>⟧.state self.new).reading
            ≡ (⟦<MemFiles as Files>⟧.state self.old).reading }
        ensures writing { (⟦<MemFiles as Files>⟧.state self.new).writing ≡ None }
        ensures cause { HasCause (⟦<MemFiles as Files>⟧.state self.old).write_faults
            (⟦<MemFiles as Files>⟧.state self.new).write_faults result }
        ensures no_memory { result ≢ Err Stop.Memory }
        ensures numbered { calls_made self.new ≡ one_more EndWrite (calls_made self.old) }
        ensures planned { failing_calls self.new ≡ failing_calls self.old }
        ensures fails { (result ≡ Err Stop.Failed) ↔ Contains (failing_calls self.old)
            (EndWrite, number_of EndWrite (calls_made self.new)) }
        ensures faults { (⟦<MemFiles as Files>⟧.state self.new).write_faults ≡ faults_after result
            (⟦<MemFiles as Files>⟧.state self.old).write_faults }
    {
        self.writing = None;
        if self.plan.fails(CallKind::EndWrite) {
            self.write_faults = self.write_faults.saturating_add(1);
            return Err(Stop::Failed);
        }
        Ok(())
    }

    ghost faultless = { λ m steady. faultless_files m.plan.fail.items (⟦<MemFiles as Files>⟧.state m) m.unfailing_reads
        m.unfailing_writes steady };

    ghost written_there = { λ m. m.written };
}
