// The source language: one statement to a line.
use super::words::{Code, Problem, Words, check, parse, range_of};
use assemble::builder::PanelBuilder;
use assemble::codes::{Effect, InstructionKind, MentionForm, NameForm, PanelKind, ValueType};
use assemble::error::BuildError;
use assemble::records::{
    BlockRecord, FunctionRecord, InstructionRecord, MentionRecord, NameRecord, PhiRecord,
    PredecessorRecord, Range, Record, Run, ValueRecord,
};
use assemble::table::Table;
use std::alloc::Global;
use std::error::Error;
use std::fmt;

// What is wrong, and the number of the line, from 1.
#[derive(Clone, Copy)]
pub struct SourceError<'a> {
    pub line: usize,
    pub problem: Problem<'a>,
}

impl<'a> fmt::Display for SourceError<'a> {
    fn fmt<W: fmt::Write>(&self, f: &mut fmt::Formatter<W>) -> fmt::Result {
        let line = self.line;
        let problem = self.problem;
        write!(f, "line {line}: {problem}")
    }
}

// Written by hand: it prints the line that `Display` prints, so that a `main` or a test
// which ends with this error says what is wrong, and where.
impl<'a> fmt::Debug for SourceError<'a> {
    fn fmt<W: fmt::Write>(&self, f: &mut fmt::Formatter<W>) -> fmt::Result {
        fmt::Display::fmt(self, f)
    }
}

impl<'a> Error for SourceError<'a> {}

// What a line asks of the builder.
#[derive(Drop)]
enum Statement<'a> {
    Panel(u16),
    Name(&'a str),
    Text(&'a str),
    Add(Record),
    Raw(Table, Vec<u8>),
    RawText(Vec<u8>),
}

const PANELS: [Code; 3] = [
    ("component", PanelKind::Component as u16),
    ("hook", PanelKind::Hook as u16),
    ("other", PanelKind::Other as u16),
];

const FORMS: [Code; 3] = [
    ("unnamed", NameForm::Unnamed as u16),
    ("named", NameForm::Named as u16),
    ("promoted", NameForm::Promoted as u16),
];

const TYPES: [Code; 5] = [
    ("other", ValueType::Other as u16),
    ("use-state", ValueType::UseState as u16),
    ("set-state", ValueType::SetState as u16),
    ("use-ref", ValueType::UseRef as u16),
    ("effect-hook", ValueType::EffectHook as u16),
];

const KINDS: [Code; 7] = [
    ("other", InstructionKind::Other as u16),
    ("load-local", InstructionKind::LoadLocal as u16),
    ("function", InstructionKind::Function as u16),
    ("call", InstructionKind::Call as u16),
    ("method-call", InstructionKind::MethodCall as u16),
    ("array", InstructionKind::Array as u16),
    ("load-global", InstructionKind::LoadGlobal as u16),
];

const MENTION_FORMS: [Code; 3] = [
    ("place", MentionForm::Place as u16),
    ("spread", MentionForm::Spread as u16),
    ("hole", MentionForm::Hole as u16),
];

const EFFECTS: [Code; 8] = [
    ("unknown", Effect::Unknown as u16),
    ("freeze", Effect::Freeze as u16),
    ("read", Effect::Read as u16),
    ("capture", Effect::Capture as u16),
    (
        "mutate-iterator?",
        Effect::MutateIteratorConditionally as u16,
    ),
    ("mutate?", Effect::MutateConditionally as u16),
    ("mutate", Effect::Mutate as u16),
    ("store", Effect::Store as u16),
];

const NO_RUN: Run = Run { start: 0, count: 0 };

const NO_RANGE: Range = Range { start: 0, end: 0 };

// What the source asks for, in the order of its lines.
pub fn parse_source<'a>(heap: Global, source: &'a str) -> Result<PanelBuilder, SourceError<'a>> {
    let mut builder = PanelBuilder::new(heap);
    for (text, line) in source.lines().zip(1..) {
        run_line(heap, &mut builder, text).map_err(|problem| SourceError { line, problem })?;
    }
    Ok(builder)
}

// Runs a line.
fn run_line<'a>(
    heap: Global,
    builder: &mut PanelBuilder,
    line: &'a str,
) -> Result<(), Problem<'a>> {
    let mut words = Words::of(line);
    let Some(word) = words.next() else {
        return Ok(());
    };
    let (times, keyword) = read_times(word, &mut words)?;
    let statement = read_statement(heap, keyword, &mut words)?;
    words.end()?;
    run_times(builder, &statement, times)?;
    Ok(())
}

// How often the statement that begins with `word` is to be run, and its keyword.
fn read_times<'a>(word: &'a str, words: &mut Words<'a>) -> Result<(u32, &'a str), Problem<'a>> {
    if word != "repeat" {
        return Ok((1, word));
    }
    let times = words.number("a number of times")?;
    Ok((times, words.expect("a statement")?))
}

fn run_times(
    builder: &mut PanelBuilder,
    statement: &Statement<'_>,
    times: u32,
) -> Result<(), BuildError> {
    for _ in 0..times {
        run_statement(builder, statement)?;
    }
    Ok(())
}

fn run_statement(builder: &mut PanelBuilder, statement: &Statement<'_>) -> Result<(), BuildError> {
    match statement {
        Statement::Panel(code) => {
            builder.set_kind(*code);
            Ok(())
        }
        Statement::Name(word) => builder.add_name(word.as_bytes()),
        Statement::Text(word) => builder.add_text(word.as_bytes()),
        Statement::Add(record) => builder.add(record),
        Statement::Raw(table, fields) => builder.add_raw(*table, fields.as_slice()),
        Statement::RawText(bytes) => builder.add_text(bytes.as_slice()),
    }
}

fn read_statement<'a>(
    heap: Global,
    keyword: &'a str,
    words: &mut Words<'a>,
) -> Result<Statement<'a>, Problem<'a>> {
    // A match: it says which words each takes; a table of closures would hide that.
    match keyword {
        "panel" => Ok(Statement::Panel(words.code("a kind of panel", &PANELS)?)),
        "name" => Ok(Statement::Name(words.expect("a word")?)),
        "name-at" => Ok(Statement::Add(read_record(Table::Names, words)?)),
        "text" => Ok(Statement::Text(words.expect("a word")?)),
        "raw" => read_raw(heap, words),
        _ => {
            let table = parse("a statement", keyword, keyword)?;
            Ok(Statement::Add(read_record(table, words)?))
        }
    }
}

// The bytes are read before the word of the table is looked up, so that a wrong
// byte is reported first.
fn read_raw<'a>(heap: Global, words: &mut Words<'a>) -> Result<Statement<'a>, Problem<'a>> {
    let word = words.expect("a table or text")?;
    let bytes = words.bytes(heap)?;
    if word == "text" {
        return Ok(Statement::RawText(bytes));
    }
    Ok(Statement::Raw(parse("a table or text", word, word)?, bytes))
}

fn read_record<'a>(table: Table, words: &mut Words<'a>) -> Result<Record, Problem<'a>> {
    match table {
        Table::Names => read_name(words).map(Record::Name),
        Table::Values => read_value(words).map(Record::Value),
        Table::Functions => read_function(words).map(Record::Function),
        Table::Blocks => read_block(words).map(Record::Block),
        Table::Predecessors => read_predecessor(words).map(Record::Predecessor),
        Table::Phis => read_phi(words).map(Record::Phi),
        Table::Instructions => read_instruction(words).map(Record::Instruction),
        Table::Mentions => read_mention(words).map(Record::Mention),
    }
}

fn read_name<'a>(words: &mut Words<'a>) -> Result<NameRecord, Problem<'a>> {
    Ok(NameRecord {
        start: words.number("a place in the text")?,
        length: words.number("a length")?,
    })
}

fn read_value<'a>(words: &mut Words<'a>) -> Result<ValueRecord, Problem<'a>> {
    let form = words.code("a form", &FORMS)?;
    // Compared as a number, since a source may give any for a form.
    let name = if form == NameForm::Unnamed as u16 {
        0
    } else {
        words.number("a name's number")?
    };
    Ok(ValueRecord {
        form,
        name,
        kind: words.code("a type", &TYPES)?,
        range: words.range()?,
    })
}

fn read_function<'a>(words: &mut Words<'a>) -> Result<FunctionRecord, Problem<'a>> {
    Ok(FunctionRecord {
        params: words.run("params")?,
        blocks: words.run("blocks")?,
    })
}

fn read_block<'a>(words: &mut Words<'a>) -> Result<BlockRecord, Problem<'a>> {
    let id = words.number("a block id")?;
    let predecessors = words.run("preds")?;
    let phis = words.run("phis")?;
    let instructions = words.run("instructions")?;
    let returned = read_return(words)?;
    Ok(BlockRecord {
        id,
        predecessors,
        phis,
        instructions,
        returns: returned.is_some() as u16,
        value: returned.unwrap_or(0),
    })
}

// The value of a block's return, which may stand at the end of its line.
fn read_return<'a>(words: &mut Words<'a>) -> Result<Option<u16>, Problem<'a>> {
    let Some(word) = words.next() else {
        return Ok(None);
    };
    check("return", word)?;
    words.number("a value's number").map(Some)
}

fn read_predecessor<'a>(words: &mut Words<'a>) -> Result<PredecessorRecord, Problem<'a>> {
    Ok(PredecessorRecord {
        id: words.number("a block id")?,
    })
}

fn read_phi<'a>(words: &mut Words<'a>) -> Result<PhiRecord, Problem<'a>> {
    Ok(PhiRecord {
        value: words.number("a value's number")?,
        operands: words.run("operands")?,
    })
}

fn read_instruction<'a>(words: &mut Words<'a>) -> Result<InstructionRecord, Problem<'a>> {
    let code = words.code("a kind of instruction", &KINDS)?;
    // A code that is no kind's has what `other` has.
    let kind = InstructionKind::try_from(code).unwrap_or(InstructionKind::Other);
    let subject = match kind {
        InstructionKind::LoadLocal | InstructionKind::Call | InstructionKind::MethodCall => {
            words.number("a mention's number")?
        }
        _ => 0,
    };
    let arguments = match kind {
        InstructionKind::Call | InstructionKind::MethodCall | InstructionKind::Array => {
            words.run("args")?
        }
        _ => NO_RUN,
    };
    let function = match kind {
        InstructionKind::Function => words.number("a function's number")?,
        _ => 0,
    };
    words.keyword("order")?;
    Ok(InstructionRecord {
        kind: code,
        order: words.number("an evaluation order")?,
        lvalues: words.run("lvalues")?,
        operands: words.run("operands")?,
        subject,
        arguments,
        function,
    })
}

fn read_mention<'a>(words: &mut Words<'a>) -> Result<MentionRecord, Problem<'a>> {
    let form = words.code("a form of mention", &MENTION_FORMS)?;
    // Compared as a number, since a source may give any for a form.
    if form == MentionForm::Hole as u16 {
        return Ok(MentionRecord {
            value: 0,
            form,
            effect: 0,
            spanned: 0,
            span: NO_RANGE,
        });
    }
    let value = words.number("a value's number")?;
    let effect = words.code("an effect", &EFFECTS)?;
    let span = words.next().map(range_of).transpose()?;
    Ok(MentionRecord {
        value,
        form,
        effect,
        spanned: span.is_some() as u16,
        span: span.unwrap_or(NO_RANGE),
    })
}
