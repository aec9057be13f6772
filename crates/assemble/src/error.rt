// Why the builder refuses.
ghost use Rattle.std.specs.Prelude.{◌≡◌};
ghost use Rattle.assemble.specs.declared.error.BuildError.TheVariants.{Memory};

use super::table::Table;
use std::alloc::{AllocError, AllocFailed};
use std::error::Error;
use std::fmt;

#[derive(Clone, Copy, Debug)]
pub enum BuildError {
    // No memory is left.
    Memory,
    // A table has as many records as a file can say.
    TableFull(Table),
    // The text has as many bytes as a file can say.
    TextFull,
    // A record of plain bytes has not its table's width.
    RawWidth(Table),
}

impl Error for BuildError {}

impl From<AllocError> for BuildError {
    ghost from_gives = { λ _ r. r ≡ Memory };

    fn from(_e: AllocError) -> BuildError {
        BuildError::Memory
    }
}

impl<T: Drop> From<AllocFailed<T>> for BuildError {
    ghost from_gives = { λ _ r. r ≡ Memory };

    fn from(_e: AllocFailed<T>) -> BuildError {
        BuildError::Memory
    }
}

impl fmt::Display for BuildError {
    fn fmt<W: fmt::Write>(&self, f: &mut fmt::Formatter<W>) -> fmt::Result {
        match self {
            BuildError::Memory => f.write_str("no memory is left"),
            BuildError::TableFull(table) => write!(f, "more than 65535 {table} records"),
            BuildError::TextFull => f.write_str("more than 65535 bytes of text"),
            BuildError::RawWidth(table) => {
                let width = table.width();
                write!(f, "a {table} record has {width} bytes behind its mark")
            }
        }
    }
}
