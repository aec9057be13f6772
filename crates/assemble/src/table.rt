// The eight tables of a panel, in the order in which a packed file has them. The builder
// has them once more, since it shares nothing with the reader that it tests.
ghost use Rattle.std.specs.Prelude.{◌≡◌, Some};
ghost use Rattle.assemble.specs.Tables.{IsNamed, mark_of, width_of, word_of};

use std::fmt;
use std::str::FromStr;

#[derive(Clone, Copy, Debug)]
pub enum Table {
    Names,
    Values,
    Functions,
    Blocks,
    Predecessors,
    Phis,
    Instructions,
    Mentions,
}

impl Table {
    // The mark before each of its records.
    pub fn mark(self) -> [u8; 2]
        ensures { result ≡ mark_of self }
    {
        match self {
            Table::Names => *b"NM",
            Table::Values => *b"VA",
            Table::Functions => *b"FN",
            Table::Blocks => *b"BL",
            Table::Predecessors => *b"PR",
            Table::Phis => *b"PH",
            Table::Instructions => *b"IN",
            Table::Mentions => *b"ME",
        }
    }

    // How many bytes a record has behind its mark.
    pub fn width(self) -> usize
        ensures { result ≡ width_of self }
    {
        match self {
            Table::Names => 4,
            Table::Values => 14,
            Table::Functions => 8,
            Table::Blocks => 18,
            Table::Predecessors => 2,
            Table::Phis => 6,
            Table::Instructions => 22,
            Table::Mentions => 16,
        }
    }

    // What one of its records is called. A function beside `Display`, which prints it: it
    // was there for callers that want the word alone.
    pub fn word(self) -> &'static str
        ensures { result.now ≡ word_of self }
    {
        match self {
            Table::Names => "name",
            Table::Values => "value",
            Table::Functions => "function",
            Table::Blocks => "block",
            Table::Predecessors => "predecessor",
            Table::Phis => "phi",
            Table::Instructions => "instruction",
            Table::Mentions => "mention",
        }
    }
}

// A word that no record is called by.
#[derive(Clone, Copy, Debug)]
pub struct UnknownRecord;

// The table whose records are called so.
impl FromStr for Table {
    type Err = UnknownRecord;

    ghost from_str_gives = { IsNamed };

    fn from_str(word: &str) -> Result<Table, UnknownRecord> {
        match word {
            "name" => Ok(Table::Names),
            "value" => Ok(Table::Values),
            "function" => Ok(Table::Functions),
            "block" => Ok(Table::Blocks),
            "predecessor" => Ok(Table::Predecessors),
            "phi" => Ok(Table::Phis),
            "instruction" => Ok(Table::Instructions),
            "mention" => Ok(Table::Mentions),
            _ => Err(UnknownRecord),
        }
    }
}

impl fmt::Display for Table {
    ghost output = { λ t. Some (word_of t) };

    fn fmt<W: fmt::Write>(&self, f: &mut fmt::Formatter<W>) -> fmt::Result {
        f.write_str(self.word())
    }
}
