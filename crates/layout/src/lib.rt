// The tables of a packed file: their marks, sizes and where they stand.
#![tactic(auto)]

ghost use Rattle.std.specs.Prelude.{◌≡◌, ◌+◌, ◌≤◌};
ghost use Rattle.layout.specs.Layout.{letters, mark_of, extent, layout_of, size_of, sizes_in, extent_in};

use component::records::Sizes;
use fields::read16;

// The longest that a packed file can be: every table and the text at 65,535.
pub fn max_length() -> usize
    ensures { result ≡ 7012269 }
{
    22 + 65535 * (6 + 16 + 10 + 20 + 4 + 8 + 24 + 18) + 2 + 65535
}

// The two letters before a record.
#[derive(Clone, Copy)]
pub struct Mark {
    pub first: u8,
    pub second: u8,
}

// A constructor, so that a mark is written as its two letters.
pub fn letters(first: u8, second: u8) -> Mark
    ensures { result ≡ letters first second }
{
    Mark { first, second }
}

// The tables, in the order in which a file has them.
#[derive(Clone, Copy)]
pub enum Table {
    Names,
    Values,
    Functions,
    Blocks,
    Predecessors,
    Phis,
    Instructions,
    Mentions,
}

impl Table {
    pub fn mark(self) -> Mark
        ensures { result ≡ mark_of self }
    {
        match self {
            Table::Names => letters(b'N', b'M'),
            Table::Values => letters(b'V', b'A'),
            Table::Functions => letters(b'F', b'N'),
            Table::Blocks => letters(b'B', b'L'),
            Table::Predecessors => letters(b'P', b'R'),
            Table::Phis => letters(b'P', b'H'),
            Table::Instructions => letters(b'I', b'N'),
            Table::Mentions => letters(b'M', b'E'),
        }
    }

    // How many bytes a record has, with its mark.
    pub fn record_size(self) -> usize
        ensures { result ≡ size_of self }
    {
        match self {
            Table::Names => 6,
            Table::Values => 16,
            Table::Functions => 10,
            Table::Blocks => 20,
            Table::Predecessors => 4,
            Table::Phis => 8,
            Table::Instructions => 24,
            Table::Mentions => 18,
        }
    }
}

// Records one after the other: `count` of them, the first at byte `start`. The
// text is one of single bytes.
#[derive(Clone, Copy)]
pub struct Extent {
    pub start: u32,
    pub count: u16,
}

#[derive(Clone, Copy)]
pub struct Layout {
    pub names: Extent,
    pub values: Extent,
    pub functions: Extent,
    pub blocks: Extent,
    pub predecessors: Extent,
    pub phis: Extent,
    pub instructions: Extent,
    pub mentions: Extent,
    pub text: Extent,
}

impl Layout {
    // How many records each table has.
    pub fn sizes(&self) -> Sizes
        ensures { result ≡ sizes_in self.now }
    {
        Sizes {
            names: self.names.count as usize,
            values: self.values.count as usize,
            functions: self.functions.count as usize,
            blocks: self.blocks.count as usize,
            predecessors: self.predecessors.count as usize,
            phis: self.phis.count as usize,
            instructions: self.instructions.count as usize,
            mentions: self.mentions.count as usize,
        }
    }

    pub fn extent(&self, table: Table) -> Extent
        ensures { result ≡ extent_in self.now table }
    {
        match table {
            Table::Names => self.names,
            Table::Values => self.values,
            Table::Functions => self.functions,
            Table::Blocks => self.blocks,
            Table::Predecessors => self.predecessors,
            Table::Phis => self.phis,
            Table::Instructions => self.instructions,
            Table::Mentions => self.mentions,
        }
    }
}

// A constructor: a literal would take four lines for each extent.
fn records_at(start: u32, count: u16) -> Extent
    ensures { result ≡ extent start count }
{
    Extent { start, count }
}

// The layout that the header's sizes give. The lines are those of the definition; a
// method for an extent's end would ask for a bound on the size of a record.
pub fn read_layout(bytes: &[u8]) -> Layout
    ensures value { result ≡ layout_of bytes.now }
    ensures bound { result.text.start + result.text.count ≤ 7012269 }
{
    let names = records_at(22, read16(bytes, 2));
    let values = records_at(names.start + 6 * names.count as u32, read16(bytes, 4));
    let functions = records_at(values.start + 16 * values.count as u32, read16(bytes, 6));
    let blocks = records_at(
        functions.start + 10 * functions.count as u32,
        read16(bytes, 8),
    );
    let predecessors = records_at(blocks.start + 20 * blocks.count as u32, read16(bytes, 10));
    let phis = records_at(
        predecessors.start + 4 * predecessors.count as u32,
        read16(bytes, 12),
    );
    let instructions = records_at(phis.start + 8 * phis.count as u32, read16(bytes, 14));
    let mentions = records_at(
        instructions.start + 24 * instructions.count as u32,
        read16(bytes, 16),
    );
    let text = records_at(
        mentions.start + 18 * mentions.count as u32 + 2,
        read16(bytes, 18),
    );
    Layout {
        names,
        values,
        functions,
        blocks,
        predecessors,
        phis,
        instructions,
        mentions,
        text,
    }
}
