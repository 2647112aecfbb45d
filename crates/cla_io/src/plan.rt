//! Which calls on files in memory fail.

use crate::stop::CallKind;

// The calls that are to fail, each by its kind and its number from 1, and how many were made.
#[derive(Drop)]
pub(crate) struct Plan {
    pub(crate) fail: Vec<(CallKind, u64)>,
    begin_reads: u64,
    reads: u64,
    begin_writes: u64,
    writes: u64,
    end_writes: u64,
}

impl Plan {
    ghost use Rattle.std.specs.Prelude.{◌≡◌, ◌↔◌, true, Contains};
    ghost use Rattle.cla_io.specs.Plan.{calls_of, no_calls, number_of, one_more};

    pub(crate) fn new(fail: Vec<(CallKind, u64)>) -> Plan
        ensures failing { result.fail ≡ fail }
        ensures none { calls_of result ≡ no_calls }
    {
        Plan {
            fail,
            begin_reads: 0,
            reads: 0,
            begin_writes: 0,
            writes: 0,
            end_writes: 0,
        }
    }

    // Counts a call, and says whether it is to fail.
    pub(crate) fn fails(&mut self, kind: CallKind) -> bool
        ensures planned { self.new.fail ≡ self.old.fail }
        ensures counted { calls_of self.new ≡ one_more kind (calls_of self.old) }
        ensures listed { (result ≡ true) ↔ Contains self.old.fail.items (kind, number_of kind (calls_of self.new)) }
    {
        let number = match kind {
            CallKind::BeginRead => {
                self.begin_reads = self.begin_reads.saturating_add(1);
                self.begin_reads
            }
            CallKind::Read => {
                self.reads = self.reads.saturating_add(1);
                self.reads
            }
            CallKind::BeginWrite => {
                self.begin_writes = self.begin_writes.saturating_add(1);
                self.begin_writes
            }
            CallKind::Write => {
                self.writes = self.writes.saturating_add(1);
                self.writes
            }
            CallKind::EndWrite => {
                self.end_writes = self.end_writes.saturating_add(1);
                self.end_writes
            }
        };
        self.fail.contains(&(kind, number))
    }
}
