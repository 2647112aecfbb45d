//! Why a script isn't read.

use cla_grammar::{Place, ScriptKind};
use std::alloc::{AllocError, AllocFailed};
use thiserror::Error;

/// Why a script is refused: its first fault, or want of memory.
#[derive(Debug, Drop, Error)]
pub enum ScriptFault {
    #[error("the script is refused")]
    At { place: Place, kind: ScriptKind },
    #[error("out of memory")]
    Memory,
}

impl ScriptFault {
    ghost use Rattle.std.specs.Prelude.{◌≡◌};
    ghost use Rattle.cla_script.specs.declared.fault.ScriptFault.TheVariants as fault;

    /// A fault of this kind.
    pub(crate) fn at(place: Place, kind: ScriptKind) -> ScriptFault
        ensures { result ≡ fault.At place kind }
    {
        ScriptFault::At { place, kind }
    }
}

impl From<AllocError> for ScriptFault {
    ghost use Rattle.std.specs.Prelude.{◌≡◌};
    ghost use Rattle.cla_script.specs.declared.fault.ScriptFault.TheVariants as fault;

    ghost from_gives = { λ _ e. e ≡ fault.Memory };

    fn from(_error: AllocError) -> ScriptFault {
        ScriptFault::Memory
    }
}

impl<T: Drop> From<AllocFailed<T>> for ScriptFault {
    ghost use Rattle.std.specs.Prelude.{◌≡◌};
    ghost use Rattle.cla_script.specs.declared.fault.ScriptFault.TheVariants as fault;

    ghost from_gives = { λ _ e. e ≡ fault.Memory };

    fn from(_error: AllocFailed<T>) -> ScriptFault {
        ScriptFault::Memory
    }
}
