// Numbers and marks as a packed file has them: the low byte first.
ghost use Rattle.std.specs.Prelude.{◌≡◌, ◌++◌, OnOk};
ghost use Rattle.assemble.specs.Numbers.{le16, le32};

use std::alloc::AllocError;

// Appends a record's mark.
pub fn put_mark(out: &mut Vec<u8>, mark: &[u8; 2]) -> Result<(), AllocError>
    ensures { OnOk result (out.new.items ≡ out.old.items ++ mark.now) }
{
    out.extend_from_slice(mark)
}

// Appends a number of two bytes.
pub fn put16(out: &mut Vec<u8>, short: u16) -> Result<(), AllocError>
    ensures { OnOk result (out.new.items ≡ out.old.items ++ le16 short) }
{
    out.extend_from_slice(&short.to_le_bytes())
}

// Appends a number of four bytes.
pub fn put32(out: &mut Vec<u8>, long: u32) -> Result<(), AllocError>
    ensures { OnOk result (out.new.items ≡ out.old.items ++ le32 long) }
{
    out.extend_from_slice(&long.to_le_bytes())
}
