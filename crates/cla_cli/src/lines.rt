//! The lines that the program writes.

ghost use Rattle.std.specs.Prelude.{◌≡◌, ◌++◌, [], IfOk, OnOk, codes, pos};
ghost use Rattle.cla_spec.specs.Effects.{File};
ghost use Rattle.cla_spec.specs.Numbers.{decimal_of};
ghost use Rattle.cla_cli.specs.Texts.{missing_line, unreadable_line, unwritable_line, more_bytes_text, limit_line};
ghost use Rattle.cla_cli.specs.Texts.{script_line, bad_line_text, shape_text, line_fault_text, field_text};
ghost use Rattle.cla_cli.specs.Texts.{bad_field_text, packed_fault_text, table_fault_text, table_word, table_line};
ghost use Rattle.cla_cli.specs.Texts.{bad_kind_text, script_kind_text, shape_kind_text, operator_line, reason_text};
ghost use Rattle.cla_cli.specs.Texts.{budget_line};

use crate::needed::TABLE_BYTES;
use crate::status::BadKind;
use cla_check::ShapeKind;
use cla_mtx::MtxFault;
use cla_num::{Memory, OpFault, What, Wide};
use cla_pack::{FieldName, PackFault};
use cla_script::{Place, ScriptKind};
use cla_tables::FileFault;
use cla_text::Text;
use std::alloc::Global;

/// The line that tells that a file is absent.
pub(crate) fn missing_line(alloc: Global, name: &str) -> Result<Text, Memory>
    ensures { IfOk result (λ line. line ≡ missing_line name.now) }
{
    line_of(alloc, b"missing file ", name, b"\n")
}

/// The line that tells that a file can't be read.
pub(crate) fn unreadable_line(alloc: Global, name: &str) -> Result<Text, Memory>
    ensures { IfOk result (λ line. line ≡ unreadable_line name.now) }
{
    line_of(alloc, b"cannot read ", name, b"\n")
}

/// The line that tells that a file can't be written.
pub(crate) fn unwritable_line(alloc: Global, name: &str) -> Result<Text, Memory>
    ensures { IfOk result (λ line. line ≡ unwritable_line (File name.now [])) }
{
    line_of(alloc, b"cannot write ", name, b"\n")
}

/// The line that tells that a file has more bytes than its limit.
pub(crate) fn limit_line(alloc: Global, name: &str, limit: u64) -> Result<Text, Memory>
    ensures { IfOk result (λ line. line ≡ limit_line name.now limit) }
{
    let mut line = line_of(alloc, b"limit ", name, b": ")?;
    push_more_bytes(&mut line, limit)?;
    line.push(b"\n")?;
    Ok(line)
}

/// The line that tells why a table is refused.
pub(crate) fn table_line(alloc: Global, name: &str, fault: FileFault) -> Result<Text, Memory>
    ensures { IfOk result (λ line. line ≡ table_line name.now fault) }
{
    let mut line = line_of(alloc, table_word(fault), name, b": ")?;
    push_fault(&mut line, fault)?;
    line.push(b"\n")?;
    Ok(line)
}

/// The line that tells why a script is refused.
pub(crate) fn script_line(alloc: Global, place: Place, kind: BadKind) -> Result<Text, Memory>
    ensures { IfOk result (λ line. line ≡ script_line place kind) }
{
    let mut line = Text::new(alloc);
    line.push(b"script ")?;
    line.push_int(i128::from(place.line))?;
    line.push(b":")?;
    line.push_int(i128::from(place.col))?;
    line.push(b": ")?;
    line.push(kind_text(kind))?;
    line.push(b"\n")?;
    Ok(line)
}

/// The line that tells an operator's fault.
pub(crate) fn operator_line(alloc: Global, place: Place, fault: &OpFault) -> Result<Text, Memory>
    ensures { IfOk result (λ line. line ≡ operator_line place fault.now) }
{
    let mut line = Text::new(alloc);
    line.push(b"operator ")?;
    line.push_int(i128::from(place.line))?;
    line.push(b":")?;
    line.push_int(i128::from(place.col))?;
    line.push(b": entry (")?;
    line.push_int(i128::from(fault.row))?;
    line.push(b", ")?;
    line.push_int(i128::from(fault.col))?;
    push_reason(&mut line, &fault.what)?;
    line.push(b"\n")?;
    Ok(line)
}

/// The line that tells that a table takes more bytes than its budget.
pub(crate) fn budget_line(
    alloc: Global,
    name: &str,
    needed: u64,
    budget: u64,
) -> Result<Text, Memory>
    ensures { IfOk result (λ line. line ≡ budget_line name.now needed budget) }
{
    let mut line = line_of(alloc, b"budget ", name, b": needs ")?;
    line.push_int(i128::from(needed))?;
    line.push(b", has ")?;
    line.push_int(i128::from(budget))?;
    line.push(b"\n")?;
    Ok(line)
}

// A line that names a file.
fn line_of(alloc: Global, before: &[u8], name: &str, behind: &[u8]) -> Result<Text, Memory>
    ensures { IfOk result (λ line. line ≡ before.now ++ name.now ++ behind.now) }
{
    let mut line = Text::new(alloc);
    line.push(before)?;
    line.push(name.as_bytes())?;
    line.push(behind)?;
    Ok(line)
}

// What a table's line begins with.
fn table_word(fault: FileFault) -> &'static [u8]
    ensures { result.now ≡ table_word fault }
{
    match fault {
        FileFault::Mtx(MtxFault::TooLarge { rows: _, cols: _ } | MtxFault::TooLong)
        | FileFault::Pack(PackFault::TooLarge { rows: _, cols: _ } | PackFault::TooLong) =>
            b"limit ",
        _ => b"bad file ",
    }
}

// What is wrong with a table.
fn push_fault(line: &mut Text, fault: FileFault) -> Result<(), Memory>
    ensures { OnOk result (line.new ≡ line.old ++ table_fault_text fault) }
{
    match fault {
        FileFault::Mtx(fault) => push_line_fault(line, fault),
        FileFault::Pack(fault) => push_packed_fault(line, fault),
    }
}

// What is wrong with a Matrix Market text.
fn push_line_fault(line: &mut Text, fault: MtxFault) -> Result<(), Memory>
    ensures { OnOk result (line.new ≡ line.old ++ line_fault_text fault) }
{
    match fault {
        MtxFault::Banner { line: n } => push_bad_line(line, n, b"Banner"),
        MtxFault::Unsupported { place } => {
            push_numbered(line, b"line 1: unsupported word ", u64::from(place))
        }
        MtxFault::Size { line: n } => push_bad_line(line, n, b"Size"),
        MtxFault::Entry { line: n } => push_bad_line(line, n, b"Entry"),
        MtxFault::Index { line: n } => push_bad_line(line, n, b"Index"),
        MtxFault::Diagonal { line: n } => push_bad_line(line, n, b"Diagonal"),
        MtxFault::Range { line: n } => push_bad_line(line, n, b"Range"),
        MtxFault::TooFew { line: n } => push_bad_line(line, n, b"TooFew"),
        MtxFault::TooMany { line: n } => push_bad_line(line, n, b"TooMany"),
        MtxFault::TooLarge { rows, cols } => push_shape(line, rows, cols),
        MtxFault::TooLong => push_more_bytes(line, TABLE_BYTES),
        MtxFault::Read => line.push(b"Read"),
        MtxFault::Memory => line.push(b"Memory"),
    }
}

fn push_bad_line(line: &mut Text, n: u64, kind: &[u8]) -> Result<(), Memory>
    ensures { OnOk result (line.new ≡ line.old ++ bad_line_text n kind.now) }
{
    push_numbered(line, b"line ", n)?;
    line.push(b": ")?;
    line.push(kind)
}

// What is wrong with a packed file.
fn push_packed_fault(line: &mut Text, fault: PackFault) -> Result<(), Memory>
    ensures { OnOk result (line.new ≡ line.old ++ packed_fault_text fault) }
{
    match fault {
        PackFault::Field { group, field, at } => push_bad_field(line, group, field, at),
        PackFault::Trailing { at } => push_numbered(line, b"trailing byte at ", at),
        PackFault::TooLarge { rows, cols } => push_shape(line, rows, cols),
        PackFault::TooLong => push_more_bytes(line, TABLE_BYTES),
        PackFault::Read => line.push(b"Read"),
        PackFault::Memory => line.push(b"Memory"),
    }
}

fn push_bad_field(line: &mut Text, group: u32, field: FieldName, at: u64) -> Result<(), Memory>
    ensures { OnOk result (line.new ≡ line.old ++ bad_field_text group field at) }
{
    push_numbered(line, b"group ", u64::from(group))?;
    line.push(b" ")?;
    line.push(field_text(field))?;
    push_numbered(line, b" at ", at)
}

fn field_text(field: FieldName) -> &'static [u8]
    ensures { result.now ≡ field_text field }
{
    match field {
        FieldName::Magic => b"magic",
        FieldName::Rows => b"rows",
        FieldName::Columns => b"columns",
        FieldName::Groups => b"groups",
        FieldName::Kind => b"kind",
        FieldName::Width => b"width",
        FieldName::Column => b"column",
        FieldName::Tuples => b"tuples",
        FieldName::Rest => b"rest",
        FieldName::Value => b"value",
        FieldName::Code => b"code",
        FieldName::Count => b"count",
        FieldName::Offset => b"offset",
        FieldName::Runs => b"runs",
        FieldName::Gap => b"gap",
        FieldName::Length => b"length",
        FieldName::Cover => b"cover",
    }
}

fn push_shape(line: &mut Text, rows: u32, cols: u32) -> Result<(), Memory>
    ensures { OnOk result (line.new ≡ line.old ++ shape_text rows cols) }
{
    line.push_int(i128::from(rows))?;
    line.push(b" by ")?;
    line.push_int(i128::from(cols))
}

fn push_more_bytes(line: &mut Text, limit: u64) -> Result<(), Memory>
    ensures { OnOk result (line.new ≡ line.old ++ more_bytes_text limit) }
{
    push_numbered(line, b"more than ", limit)?;
    line.push(b" bytes")
}

/// Appends words and a number.
pub(crate) fn push_numbered(line: &mut Text, words: &[u8], n: u64) -> Result<(), Memory>
    ensures { OnOk result (line.new ≡ line.old ++ (words.now ++ decimal_of (pos n))) }
{
    line.push(words)?;
    line.push_int(i128::from(n))
}

fn kind_text(kind: BadKind) -> &'static [u8]
    ensures { result.now ≡ bad_kind_text kind }
{
    match kind {
        BadKind::Script(kind) => script_kind_text(kind),
        BadKind::Shape(kind) => shape_kind_text(kind),
        BadKind::Unbuilt => b"Unbuilt",
    }
}

fn script_kind_text(kind: ScriptKind) -> &'static [u8]
    ensures { result.now ≡ script_kind_text kind }
{
    match kind {
        ScriptKind::Char => b"Char",
        ScriptKind::Text => b"Text",
        ScriptKind::Long => b"Long",
        ScriptKind::Literal => b"Literal",
        ScriptKind::Exponent => b"Exponent",
        ScriptKind::Syntax => b"Syntax",
        ScriptKind::Clash => b"Clash",
    }
}

fn shape_kind_text(kind: ShapeKind) -> &'static [u8]
    ensures { result.now ≡ shape_kind_text kind }
{
    match kind {
        ShapeKind::Unknown => b"Unknown",
        ShapeKind::Operand => b"Operand",
        ShapeKind::Shapes => b"Shapes",
        ShapeKind::Bounds => b"Bounds",
        ShapeKind::TooLarge => b"TooLarge",
    }
}

fn push_reason(line: &mut Text, what: &What) -> Result<(), Memory>
    ensures { OnOk result (line.new ≡ line.old ++ reason_text what.now) }
{
    match what {
        What::Range { value } => {
            line.push(b") is ")?;
            push_wide(line, *value)
        }
        What::Zero => line.push(b") divides by zero"),
    }
}

fn push_wide(line: &mut Text, value: Wide) -> Result<(), Memory>
    ensures { OnOk result (line.new ≡ line.old ++ decimal_of value) }
{
    let mut digits = [0u8; 40];
    let len = value.put(&mut digits);
    line.push(&digits[..len])
}
