// The records of a packed file, field by field. A field is the number that is
// written, so a record can also hold what means nothing. So codes are numbers
// and no enums (`codes` has these), and what may be absent is a number and its
// value and no `Option`. `Run` stands here once more, since the builder shares nothing with
// the reader that it tests. The records' `write` differ in every line.
ghost use Rattle.std.specs.Prelude.{◌≡◌, ◌++◌, OnOk};
ghost use Rattle.assemble.specs.Layout.{record_after, table_of, run_after, range_after, name_after, value_after, function_after, block_after, predecessor_after, phi_after, instruction_after, mention_after};

use super::bytes::{put_mark, put16, put32};
use super::table::Table;
use std::alloc::AllocError;

// A list: `count` records of a table, from number `start` on.
#[derive(Clone, Copy)]
pub struct Run {
    pub start: u16,
    pub count: u16,
}

impl Run {
    pub fn write(&self, out: &mut Vec<u8>) -> Result<(), AllocError>
        ensures { OnOk result (out.new.items ≡ run_after out.old.items self.now) }
    {
        put16(out, self.start)?;
        put16(out, self.count)
    }
}

// Two numbers of four bytes each: a mutable range or a span.
#[derive(Clone, Copy)]
pub struct Range {
    pub start: u32,
    pub end: u32,
}

impl Range {
    pub fn write(&self, out: &mut Vec<u8>) -> Result<(), AllocError>
        ensures { OnOk result (out.new.items ≡ range_after out.old.items self.now) }
    {
        put32(out, self.start)?;
        put32(out, self.end)
    }
}

// A name: where it stands in the text, and its length.
#[derive(Clone, Copy)]
pub struct NameRecord {
    pub start: u16,
    pub length: u16,
}

impl NameRecord {
    pub fn write(&self, out: &mut Vec<u8>) -> Result<(), AllocError>
        ensures { OnOk result (out.new.items ≡ name_after out.old.items self.now) }
    {
        put_mark(out, &Table::Names.mark())?;
        put16(out, self.start)?;
        put16(out, self.length)
    }
}

// A value: the codes of its form and type (`kind`), its name and its range.
#[derive(Clone, Copy)]
pub struct ValueRecord {
    pub form: u16,
    pub name: u16,
    pub kind: u16,
    pub range: Range,
}

impl ValueRecord {
    pub fn write(&self, out: &mut Vec<u8>) -> Result<(), AllocError>
        ensures { OnOk result (out.new.items ≡ value_after out.old.items self.now) }
    {
        put_mark(out, &Table::Values.mark())?;
        put16(out, self.form)?;
        put16(out, self.name)?;
        put16(out, self.kind)?;
        self.range.write(out)
    }
}

// A function: lists of mentions and of blocks.
#[derive(Clone, Copy)]
pub struct FunctionRecord {
    pub params: Run,
    pub blocks: Run,
}

impl FunctionRecord {
    pub fn write(&self, out: &mut Vec<u8>) -> Result<(), AllocError>
        ensures { OnOk result (out.new.items ≡ function_after out.old.items self.now) }
    {
        put_mark(out, &Table::Functions.mark())?;
        self.params.write(out)?;
        self.blocks.write(out)
    }
}

// A block. `returns` is 1 where `value` is the value of an explicit return,
// else 0.
#[derive(Clone, Copy)]
pub struct BlockRecord {
    pub id: u16,
    pub predecessors: Run,
    pub phis: Run,
    pub instructions: Run,
    pub returns: u16,
    pub value: u16,
}

impl BlockRecord {
    pub fn write(&self, out: &mut Vec<u8>) -> Result<(), AllocError>
        ensures { OnOk result (out.new.items ≡ block_after out.old.items self.now) }
    {
        put_mark(out, &Table::Blocks.mark())?;
        put16(out, self.id)?;
        self.predecessors.write(out)?;
        self.phis.write(out)?;
        self.instructions.write(out)?;
        put16(out, self.returns)?;
        put16(out, self.value)
    }
}

// The id of a block from which control may come.
#[derive(Clone, Copy)]
pub struct PredecessorRecord {
    pub id: u16,
}

impl PredecessorRecord {
    pub fn write(&self, out: &mut Vec<u8>) -> Result<(), AllocError>
        ensures { OnOk result (out.new.items ≡ predecessor_after out.old.items self.now) }
    {
        put_mark(out, &Table::Predecessors.mark())?;
        put16(out, self.id)
    }
}

// A phi: the value that it writes, and a list of mentions.
#[derive(Clone, Copy)]
pub struct PhiRecord {
    pub value: u16,
    pub operands: Run,
}

impl PhiRecord {
    pub fn write(&self, out: &mut Vec<u8>) -> Result<(), AllocError>
        ensures { OnOk result (out.new.items ≡ phi_after out.old.items self.now) }
    {
        put_mark(out, &Table::Phis.mark())?;
        put16(out, self.value)?;
        self.operands.write(out)
    }
}

// An instruction: the code of its kind, its evaluation order, lists of mentions,
// the mention that is its subject, and a function.
#[derive(Clone, Copy)]
pub struct InstructionRecord {
    pub kind: u16,
    pub order: u32,
    pub lvalues: Run,
    pub operands: Run,
    pub subject: u16,
    pub arguments: Run,
    pub function: u16,
}

impl InstructionRecord {
    pub fn write(&self, out: &mut Vec<u8>) -> Result<(), AllocError>
        ensures { OnOk result (out.new.items ≡ instruction_after out.old.items self.now) }
    {
        put_mark(out, &Table::Instructions.mark())?;
        put16(out, self.kind)?;
        put32(out, self.order)?;
        self.lvalues.write(out)?;
        self.operands.write(out)?;
        put16(out, self.subject)?;
        self.arguments.write(out)?;
        put16(out, self.function)
    }
}

// A mention: a value, and the codes of its form and effect. `spanned` is 1 where
// the span is present, else 0.
#[derive(Clone, Copy)]
pub struct MentionRecord {
    pub value: u16,
    pub form: u16,
    pub effect: u16,
    pub spanned: u16,
    pub span: Range,
}

impl MentionRecord {
    pub fn write(&self, out: &mut Vec<u8>) -> Result<(), AllocError>
        ensures { OnOk result (out.new.items ≡ mention_after out.old.items self.now) }
    {
        put_mark(out, &Table::Mentions.mark())?;
        put16(out, self.value)?;
        put16(out, self.form)?;
        put16(out, self.effect)?;
        put16(out, self.spanned)?;
        self.span.write(out)
    }
}

// Any record.
#[derive(Clone, Copy)]
pub enum Record {
    Name(NameRecord),
    Value(ValueRecord),
    Function(FunctionRecord),
    Block(BlockRecord),
    Predecessor(PredecessorRecord),
    Phi(PhiRecord),
    Instruction(InstructionRecord),
    Mention(MentionRecord),
}

impl Record {
    pub fn table(&self) -> Table
        ensures { result ≡ table_of self.now }
    {
        match self {
            Record::Name(_) => Table::Names,
            Record::Value(_) => Table::Values,
            Record::Function(_) => Table::Functions,
            Record::Block(_) => Table::Blocks,
            Record::Predecessor(_) => Table::Predecessors,
            Record::Phi(_) => Table::Phis,
            Record::Instruction(_) => Table::Instructions,
            Record::Mention(_) => Table::Mentions,
        }
    }

    // Appends the record, its mark first. A trait over the eight types is no
    // plainer: what is read of a source is any record, so this match would stay.
    pub fn write(&self, out: &mut Vec<u8>) -> Result<(), AllocError>
        ensures { OnOk result (out.new.items ≡ record_after out.old.items self.now) }
    {
        match self {
            Record::Name(name) => name.write(out),
            Record::Value(value) => value.write(out),
            Record::Function(function) => function.write(out),
            Record::Block(block) => block.write(out),
            Record::Predecessor(predecessor) => predecessor.write(out),
            Record::Phi(phi) => phi.write(out),
            Record::Instruction(instruction) => instruction.write(out),
            Record::Mention(mention) => mention.write(out),
        }
    }
}
