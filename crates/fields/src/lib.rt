// The fields of the packed form, and its records out of their bytes. A reader
// is handed the part of the file that a record takes, from its mark on. A byte
// past a part's end reads 0, so that every reader is total. `part` and `at` stay two
// parameters, as a slice and a place in it are in `part[at]`.
#![tactic(auto)]

ghost use Rattle.std.specs.Prelude.{◌≡◌, ◌+◌, ◌^◌, ◌<◌, slice_index};
ghost use Rattle.std.specs.List.{between};
ghost use Rattle.fields.specs.Fields.{le16, le32, run_at};

pub mod codes;
pub mod readers;

use component::records::Run;

// The byte at `i`.
pub fn byte_at(part: &[u8], i: usize) -> u8
    ensures { result ≡ slice_index part.now i }
{
    part.get(i).copied().unwrap_or(0)
}

// What there is of the `size` bytes from `at` on.
pub fn part_at(bytes: &[u8], at: usize, size: usize) -> &[u8]
    requires { at + size < 2 ^ 64 }
    ensures { result.now ≡ between at (at + size) bytes.now }
{
    let from = at.min(bytes.len());
    let to = (at + size).min(bytes.len());
    &bytes[from..to]
}

// The two-byte field at `at`, low byte first. Both bytes are tested at once
// where both are there.
pub fn read16(part: &[u8], at: usize) -> u16
    requires { at + 2 < 2 ^ 64 }
    ensures { result ≡ le16 part.now at }
{
    if at + 1 < part.len() {
        u16::from_le_bytes([part[at], part[at + 1]])
    } else {
        u16::from_le_bytes([byte_at(part, at), byte_at(part, at + 1)])
    }
}

// The four-byte field at `at`, low byte first: two fields of two bytes, as the definition
// has it.
pub fn read32(part: &[u8], at: usize) -> u32
    requires { at + 4 < 2 ^ 64 }
    ensures { result ≡ le32 part.now at }
{
    read16(part, at) as u32 + 65536 * read16(part, at + 2) as u32
}

// The list at `at`: start, then count.
pub fn read_run(part: &[u8], at: usize) -> Run
    requires { at + 4 < 2 ^ 64 }
    ensures { result ≡ run_at part.now at }
{
    Run {
        start: read16(part, at),
        count: read16(part, at + 2),
    }
}
