//! The file that is being written, as a sink.

ghost use Rattle.std.specs.Prelude.{IsSome};

use crate::files::Files;
use crate::sink::Sink;
use crate::stop::Stop;

/// The file that is being written, as a sink. What it keeps says, once it is gone, that its files
/// are as they were but for that file's bytes and faults of writing.
#[derive(Drop)]
pub struct FileSink<'a, F: Files> {
    files: &'a mut F,
    ghost open: { IsSome (F.state files.now).writing },
}

impl<'a, F: Files> FileSink<'a, F> {
    ghost use Rattle.std.specs.Prelude.{◌≡◌};

    /// The file that is being written.
    pub fn new(files: &'a mut F) -> FileSink<'a, F>
        requires { IsSome (F.state files.old).writing }
        ensures same_reference { result.files.ghost_name ≡ files.entry.ghost_name }
        ensures same { result.files.now ≡ files.old }
    {
        FileSink { files }
    }
}

impl<F: Files> Sink for FileSink<'_, F> {
    ghost use Rattle.std.specs.Prelude.{◌≡◌, refl};
    ghost use Rattle.std.proofs.Common.{◌∙◌};
    ghost use Rattle.cla_io.specs.Writes.{held};
    ghost use Rattle.cla_io.specs.Kept.{KeptFiles, kept_itself, kept_on};

    ghost told = { λ s. held (F.state s.files.now).told (F.state s.files.now).writing };

    ghost faults = { λ s. (F.state s.files.now).write_faults };

    ghost steady = { λ s. (F.state s.files.now).steady };

    ghost kept = { λ a b. (a.files.ghost_name ≡ b.files.ghost_name) × KeptFiles (F.state a.files.now)
        (F.state b.files.now) };

    fn write(&mut self, piece: &[u8]) -> Result<usize, Stop> {
        self.files.write(piece)
    }

    ghost faultless = { λ s steady. (F.faultless s.files.now steady).write_faults };

    ghost kept_itself = { λ s. (refl, kept_itself (F.state s.files.now)) };

    ghost kept_on = { λ a b c h k. (
      h.0 ∙ k.0,
      kept_on (F.state a.files.now) (F.state b.files.now) (F.state c.files.now) h.1 k.1,
    ) };
}
