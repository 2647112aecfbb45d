//! Laws of the grammar. Each stands on a function with an empty body, whose contract it is.

ghost use Rattle.cla_grammar.specs.Laws.{OneAnswer, OneTree, ScriptsAreRead};

/// Tokens are one expression and one statement at most.
pub fn one_tree()
    ensures { OneTree }
{}

/// `read_script`, which goes from item to item with a stack, answers the script of the grammar, or
/// the first item that one of the tests refuses.
pub fn scripts_are_read()
    ensures { ScriptsAreRead }
{}

/// Items are one script at most, or have one first refused item, and never both.
pub fn one_answer()
    ensures { OneAnswer }
{}
