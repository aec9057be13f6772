// The single checks of a packed file: its length, a mark, the codes of a record
// and where a name ends. `bytes` and `at` stay parameters: each check needs another
// bound on `at`, and a struct with one bound would ask more of its callers.
#![tactic(auto)]

ghost use Rattle.std.specs.Prelude.{◌≡◌, ◌+◌, ◌^◌, ◌<◌};
ghost use Rattle.std.specs.Option.{option_or};
ghost use Rattle.std.specs.Result.{result_err};
ghost use Rattle.layout.specs.Layout.{end_of};
ghost use Rattle.checks.specs.Faults.{length_fault, mark_fault, code_fault, name_fault, value_fault, mention_fault, record_fault};

use component::fault::{Fault, Reason};
use fields::{byte_at, read16};
use layout::{Mark, Table};

// A file has a whole header, and ends at `end`.
pub fn check_length(bytes: &[u8], end: usize) -> Result<(), Fault>
    requires { end ≡ end_of bytes.now }
    ensures { result_err result ≡ length_fault bytes.now }
{
    let length = bytes.len();
    Reason::FileLength.unless(length >= 22, length)?;
    Reason::FileLength.unless(length == end, length.min(end))
}

pub fn check_mark(bytes: &[u8], at: usize, mark: Mark) -> Result<(), Fault>
    requires { at + 1 < 2 ^ 64 }
    ensures { result_err result ≡ mark_fault bytes.now at mark }
{
    Reason::RecordMark.unless(
        byte_at(bytes, at) == mark.first && byte_at(bytes, at + 1) == mark.second,
        at,
    )
}

// The field at `at` holds a code below `limit`.
pub fn check_code(bytes: &[u8], at: usize, limit: u16) -> Result<(), Fault>
    requires { at + 2 < 2 ^ 64 }
    ensures { result_err result ≡ code_fault bytes.now at limit }
{
    Reason::FieldCode.unless(read16(bytes, at) < limit, at)
}

// The name of the record at `at` ends within the text.
fn check_name(bytes: &[u8], text: u16, at: usize) -> Result<(), Fault>
    requires { at + 6 < 2 ^ 64 }
    ensures { result_err result ≡ name_fault bytes.now text at }
{
    let end = read16(bytes, at + 2) as usize + read16(bytes, at + 4) as usize;
    Reason::FieldCode.unless(end <= text as usize, at + 2)
}

fn check_value(bytes: &[u8], at: usize) -> Result<(), Fault>
    requires { at + 8 < 2 ^ 64 }
    ensures { result_err result ≡ value_fault bytes.now at }
{
    check_code(bytes, at + 2, 3)?;
    check_code(bytes, at + 6, 5)
}

// Of a hole only the form is read.
fn check_mention(bytes: &[u8], at: usize) -> Result<(), Fault>
    requires { at + 10 < 2 ^ 64 }
    ensures { result_err result ≡ mention_fault bytes.now at }
{
    check_code(bytes, at + 4, 3)?;
    if read16(bytes, at + 4) == 2 {
        return Ok(());
    }
    check_code(bytes, at + 6, 8)?;
    check_code(bytes, at + 8, 2)
}

// The codes of the record at `at`.
fn check_record(table: Table, bytes: &[u8], text: u16, at: usize) -> Result<(), Fault>
    requires { at + 18 < 2 ^ 64 }
    ensures { result_err result ≡ record_fault table bytes.now text at }
{
    match table {
        Table::Names => check_name(bytes, text, at),
        Table::Values => check_value(bytes, at),
        Table::Functions => Ok(()),
        Table::Blocks => check_code(bytes, at + 16, 2),
        Table::Predecessors => Ok(()),
        Table::Phis => Ok(()),
        Table::Instructions => check_code(bytes, at + 2, 7),
        Table::Mentions => check_mention(bytes, at),
    }
}

// Notes the first wrong code of the record at `at`, unless a fault was found
// earlier.
pub fn note_wrong(found: &mut Option<Fault>, table: Table, bytes: &[u8], text: u16, at: usize)
    requires { at + 18 < 2 ^ 64 }
    ensures { found.new ≡ option_or found.old (record_fault table bytes.now text at) }
{
    if found.is_none() {
        *found = check_record(table, bytes, text, at).err();
    }
}
