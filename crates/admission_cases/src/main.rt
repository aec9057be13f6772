// Admits many components and prints what comes of each. Standard input is a
// list of commands, one to a line; `#` starts a comment line.
//
//   source            the lines up to `end` are the statements of the base
//   case TITLE        the statements are the base's again, under this title
//   clear             leaves no statement
//   add STATEMENT     one statement more
//   edit N STATEMENT  in place of statement N, from 0, of the same table
//   drop N TABLE      without statement N of that table
//   admit             prints the title with the outcome
//   packed HEX        the same for the packed file that these bytes are
//
// A statement is one of a panel's source. In the base and behind `add`, `each
// FROM TO STATEMENT` stands for a statement for each number from FROM up to TO,
// TO excluded, with the number in place of every `@`. A statement's table is
// its first word up to a dash, so that `name-at` counts with `name`.
#![tactic(auto)]

use admission::admit;
use anyhow::bail;
use component::fault::Fault;
use packed::Packed;
use panelsource::source::parse_source;
use std::alloc::{AllocError, Global};
use std::io::Read;

#[derive(Drop)]
struct Cases {
    // The statements of a base that are still being read.
    source: Option<String>,
    base: String,
    title: String,
    statements: String,
}

impl Cases {
    fn new(heap: Global) -> Cases {
        Cases {
            source: None,
            base: String::new(heap),
            title: String::new(heap),
            statements: String::new(heap),
        }
    }

    fn take_line(&mut self, rt: &HostRuntime, line: &str) -> anyhow::Result<()> {
        if let Some(source) = self.source.take() {
            return self.take_source(rt.alloc(), source, line);
        }
        let (command, rest) = first_word(line);
        // A match: it says which words each takes; a table of closures would hide that.
        match command {
            "source" => self.source = Some(String::new(rt.alloc())),
            "case" => self.start_case(rt.alloc(), rest)?,
            "clear" => self.statements.clear(),
            "add" => add(rt.alloc(), &mut self.statements, rest)?,
            "edit" => self.edit(rt.alloc(), rest)?,
            "drop" => self.drop_one(rt.alloc(), rest)?,
            "admit" => self.admit_statements(rt)?,
            "packed" => self.admit_packed(rt, rest)?,
            _ => bail!("no such command"),
        }
        Ok(())
    }

    // One line more of the base, or its end.
    fn take_source(&mut self, heap: Global, mut source: String, line: &str) -> anyhow::Result<()> {
        if line == "end" {
            self.statements = source.clone()?;
            self.base = source;
            return Ok(());
        }
        add(heap, &mut source, line)?;
        self.source = Some(source);
        Ok(())
    }

    fn start_case(&mut self, heap: Global, title: &str) -> Result<(), AllocError> {
        self.title = String::from_str(heap, title)?;
        self.statements = self.base.clone()?;
        Ok(())
    }

    // `N STATEMENT`. The heap stays a parameter: a field for it would be
    // copied into each call.
    fn edit(&mut self, heap: Global, words: &str) -> anyhow::Result<()> {
        let (number, statement) = first_word(words);
        self.put(
            heap,
            table_of(statement),
            number.parse::<usize>()?,
            statement,
        )
    }

    // `N TABLE`
    fn drop_one(&mut self, heap: Global, words: &str) -> anyhow::Result<()> {
        let (number, table) = first_word(words);
        self.put(heap, table, number.parse::<usize>()?, "")
    }

    // Puts a line in place of statement `number` of a table.
    fn put(
        &mut self,
        heap: Global,
        table: &str,
        number: usize,
        statement: &str,
    ) -> anyhow::Result<()> {
        let found = self
            .statements
            .lines()
            .enumerate()
            .filter(|(_, line)| table_of(line) == table)
            .nth(number);
        let Some((place, _)) = found else {
            bail!("no such statement");
        };
        let mut statements = String::new(heap);
        for (n, line) in self.statements.lines().enumerate() {
            push_line(&mut statements, if n == place { statement } else { line })?;
        }
        self.statements = statements;
        Ok(())
    }

    fn admit_statements(&self, rt: &HostRuntime) -> anyhow::Result<()> {
        let Ok(panel) = parse_source(rt.alloc(), self.statements.as_str()) else {
            bail!("the statements have an error");
        };
        let file = panel.finish(rt.alloc())?;
        self.print_outcome(rt, file.as_slice())
    }

    fn admit_packed(&self, rt: &HostRuntime, digits: &str) -> anyhow::Result<()> {
        let file = read_bytes(rt.alloc(), digits)?;
        self.print_outcome(rt, file.as_slice())
    }

    fn print_outcome(&self, rt: &HostRuntime, file: &[u8]) -> anyhow::Result<()> {
        let title = self.title.as_str();
        match open_and_admit(file) {
            Ok(()) => println!(rt; "{title}: admitted")?,
            Err(fault) => println!(rt; "{title}: {fault}")?,
        }
        Ok(())
    }
}

fn open_and_admit(file: &[u8]) -> Result<(), Fault> {
    let packed = Packed::open(file)?;
    admit(&packed)
}

// Appends a statement, or those that `each` stands for.
fn add(heap: Global, statements: &mut String, statement: &str) -> anyhow::Result<()> {
    let (word, rest) = first_word(statement);
    if word == "each" {
        return add_each(heap, statements, rest);
    }
    push_line(statements, statement)?;
    Ok(())
}

// `FROM TO STATEMENT`
fn add_each(heap: Global, statements: &mut String, words: &str) -> anyhow::Result<()> {
    let (from, words) = first_word(words);
    let (to, statement) = first_word(words);
    for n in from.parse::<usize>()?..to.parse::<usize>()? {
        let number = format!(in heap; "{n}")?;
        let line = statement.replace(heap, '@', number.as_str())?;
        push_line(statements, line.as_str())?;
    }
    Ok(())
}

fn first_word(line: &str) -> (&str, &str) {
    line.split_once(' ').unwrap_or((line, ""))
}

fn table_of(statement: &str) -> &str {
    let (word, _) = first_word(statement);
    let (table, _) = word.split_once('-').unwrap_or((word, ""));
    table
}

fn push_line(text: &mut String, line: &str) -> Result<(), AllocError> {
    text.push_str(line)?;
    text.push('\n')
}

// The bytes that pairs of hexadecimal digits are.
fn read_bytes(heap: Global, digits: &str) -> anyhow::Result<Vec<u8>> {
    digits
        .as_bytes()
        .chunks(2)
        .map(|pair| Ok(u8::from_str_radix(std::str::from_utf8(pair)?, 16)?))
        .try_collect(heap)
}

// As in `packed_cases`: a crate for these few lines would be no plainer, since it would
// have to take a command by a closure.
fn run(rt: &HostRuntime) -> anyhow::Result<()> {
    let mut bytes = Vec::new(rt.alloc());
    rt.stdin().read_to_end(&mut bytes)?;
    let text = std::str::from_utf8(bytes.as_slice())?;
    let mut cases = Cases::new(rt.alloc());
    let commands = text
        .lines()
        .filter(|line| !line.is_empty() && !line.starts_with('#'));
    for line in commands {
        cases.take_line(rt, line)?;
    }
    Ok(())
}

fn main(rt: HostRuntime) -> anyhow::Result<()> {
    run(&rt)
}
