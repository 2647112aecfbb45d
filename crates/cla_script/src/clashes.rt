//! Files that a script both reads and writes.

ghost use Rattle.std.specs.Prelude.{◌≡◌};
ghost use Rattle.cla_script.specs.Reads.{statements_of};
ghost use Rattle.cla_script.specs.Clashes.{reads_file, first_clash, Clashes};

use crate::expr::{Script, Statement};
use crate::fault::ScriptFault;
use cla_grammar::ScriptKind;
use cla_num::{Name, Number};

// Whether one of the statements reads the file.
fn reads_file<N: Number>(statements: &[Statement<N>], file: &Name) -> bool
    ensures { result ≡ reads_file (statements_of N.value statements.now) file.now }
{
    for statement in statements {
        if let Statement::Read { file: other, .. } = statement {
            if other == file {
                return true;
            }
        }
    }
    false
}

/// Refused exactly where a `write` or `pack` names a file that some `read` of the script names, before
/// or after it: at the file's place in the first such statement, as `Clash`. Names are compared byte by
/// byte. It takes no memory, and its time grows with the statements that write times those in all.
pub fn clash<N: Number>(s: &Script<N>) -> Result<(), ScriptFault>
    ensures { Clashes result (first_clash (statements_of N.value s.now.statements.items)) }
{
    for statement in &s.statements {
        match statement {
            Statement::Write {
                file,
                file_place,
                ..
            }
            | Statement::Pack {
                file,
                file_place,
                ..
            } => {
                if reads_file(&s.statements, file) {
                    return Err(ScriptFault::At {
                        place: *file_place,
                        kind: ScriptKind::Clash,
                    });
                }
            }
            Statement::Read { .. } | Statement::Let { .. } | Statement::Print { .. } => {}
        }
    }
    Ok(())
}
