//! Why a command isn't done, with the line that tells it.

ghost use Rattle.std.specs.Prelude.{◌≡◌, MatchResult};
ghost use Rattle.cla_cli.specs.declared.unfinished.Unfinished.TheVariants as unfinished;

use crate::status::Status;
use cla_num::Memory;
use cla_text::Text;

/// A command that isn't done.
#[derive(Drop)]
pub(crate) enum Unfinished {
    /// A check refuses, or an operator fails.
    Refused { status: Status, line: Text },
    /// A needed file can't be read.
    Unread { line: Text },
    /// The output can't be written.
    OutputUnwritten,
    /// A file can't be written.
    FileUnwritten { line: Text },
    /// Memory is wanting.
    Memory,
}

impl Unfinished {
    /// A check refuses, as this line tells; or memory is wanting for it.
    pub(crate) fn by_refusal(status: Status, line: Result<Text, Memory>) -> Unfinished
        ensures { MatchResult line
            (λ told. result ≡ unfinished.Refused status told) (λ e. result ≡ unfinished.Memory) }
    {
        match line {
            Ok(line) => Unfinished::Refused { status, line },
            Err(_) => Unfinished::Memory,
        }
    }

    /// A file can't be read, as this line tells; or memory is wanting for it.
    pub(crate) fn by_read_fault(line: Result<Text, Memory>) -> Unfinished
        ensures { MatchResult line (λ told. result ≡ unfinished.Unread told) (λ e. result ≡ unfinished.Memory) }
    {
        match line {
            Ok(line) => Unfinished::Unread { line },
            Err(_) => Unfinished::Memory,
        }
    }

    /// A file can't be written, as this line tells; or memory is wanting for it.
    pub(crate) fn by_write_fault(line: Result<Text, Memory>) -> Unfinished
        ensures { MatchResult line
            (λ told. result ≡ unfinished.FileUnwritten told) (λ e. result ≡ unfinished.Memory) }
    {
        match line {
            Ok(line) => Unfinished::FileUnwritten { line },
            Err(_) => Unfinished::Memory,
        }
    }
}
