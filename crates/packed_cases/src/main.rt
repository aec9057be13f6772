// Opens many files and prints what comes of each. Standard input is a list of
// commands, one to a line; `#` starts a comment line.
//
//   source       the lines up to `end` are the source of a panel, the base
//   case TITLE   the file is the base again, under this title
//   set AT HEX.. writes bytes from AT on
//   cut N        keeps the first N bytes
//   grow N       appends N zeros
//   open         prints the title with the refusal, or with the table sizes
//   list         prints the listing of a file that opens
#![tactic(auto)]

use anyhow::{anyhow, bail};
use component::Component;
use listing::{Listing, Text};
use packed::Packed;
use panelsource::source::parse_source;
use std::alloc::{AllocError, Global};
use std::io::Read;

#[derive(Drop)]
struct Cases {
    // The source of a base that is still being read.
    source: Option<String>,
    base: Vec<u8>,
    title: String,
    file: Vec<u8>,
}

impl Cases {
    fn new(heap: Global) -> Cases {
        Cases {
            source: None,
            base: Vec::new(heap),
            title: String::new(heap),
            file: Vec::new(heap),
        }
    }

    fn take_line(&mut self, rt: &HostRuntime, line: &str) -> anyhow::Result<()> {
        if let Some(source) = self.source.take() {
            return self.take_source(rt.alloc(), source, line);
        }
        let (command, rest) = line.split_once(' ').unwrap_or((line, ""));
        // A match: it says which words each takes; a table of closures would hide that.
        match command {
            "source" => self.source = Some(String::new(rt.alloc())),
            "case" => self.start_case(rt.alloc(), rest)?,
            "set" => self.set_bytes(rest)?,
            "cut" => self.file.truncate(rest.parse::<usize>()?),
            "grow" => self.grow(rest.parse::<usize>()?)?,
            "open" => self.print_outcome(rt)?,
            "list" => self.print_listing(rt)?,
            _ => bail!("no such command"),
        }
        Ok(())
    }

    // One line more of the base's source, or its end.
    fn take_source(&mut self, heap: Global, mut source: String, line: &str) -> anyhow::Result<()> {
        if line == "end" {
            let Ok(panel) = parse_source(heap, source.as_str()) else {
                bail!("the source has an error");
            };
            self.base = panel.finish(heap)?;
            return Ok(());
        }
        source.push_str(line)?;
        source.push('\n')?;
        self.source = Some(source);
        Ok(())
    }

    fn start_case(&mut self, heap: Global, title: &str) -> Result<(), AllocError> {
        self.title = String::from_str(heap, title)?;
        self.file = self.base.clone()?;
        Ok(())
    }

    // `AT HEX HEX ..`
    fn set_bytes(&mut self, words: &str) -> anyhow::Result<()> {
        let mut words = words.split_whitespace();
        let at = words.next().ok_or(anyhow!("set wants a place"))?;
        let mut places = self.file.iter_mut().skip(at.parse::<usize>()?);
        for word in words {
            let byte = u8::from_str_radix(word, 16)?;
            match places.next() {
                Some(place) => *place = byte,
                None => bail!("set past the end"),
            }
        }
        Ok(())
    }

    fn grow(&mut self, n: usize) -> Result<(), AllocError> {
        self.file.resize(self.file.len().saturating_add(n), 0)
    }

    fn print_outcome(&self, rt: &HostRuntime) -> anyhow::Result<()> {
        let title = self.title.as_str();
        match Packed::open(self.file.as_slice()) {
            Ok(packed) => print_opened(rt, title, &packed)?,
            Err(fault) => println!(rt; "{title}: {fault}")?,
        }
        Ok(())
    }

    fn print_listing(&self, rt: &HostRuntime) -> anyhow::Result<()> {
        let Ok(packed) = Packed::open(self.file.as_slice()) else {
            bail!("nothing to list");
        };
        let mut listing = Listing::new(&packed, Text::new(rt.alloc()));
        while listing.push_next() {}
        print!(rt; "{}", listing.text.written()?)?;
        Ok(())
    }
}

fn print_opened(rt: &HostRuntime, title: &str, packed: &Packed) -> anyhow::Result<()> {
    let s = packed.sizes();
    let text = packed.text_length();
    print!(rt;
        "{title}: opened, {} {} {} {}",
        s.names, s.values, s.functions, s.blocks
    )?;
    println!(rt;
        " {} {} {} {} {text}",
        s.predecessors, s.phis, s.instructions, s.mentions
    )?;
    Ok(())
}

// As in `admission_cases`: a crate for these few lines would be no plainer, since it would
// have to take a command by a closure.
fn run(rt: &HostRuntime) -> anyhow::Result<()> {
    let mut bytes = Vec::new(rt.alloc());
    rt.stdin().read_to_end(&mut bytes)?;
    let text = std::str::from_utf8(bytes.as_slice())?;
    let mut cases = Cases::new(rt.alloc());
    let commands = text
        .lines()
        .filter(|line| !line.is_empty() && !line.starts_with('#'));
    for line in commands {
        cases.take_line(rt, line)?;
    }
    Ok(())
}

fn main(rt: HostRuntime) -> anyhow::Result<()> {
    run(&rt)
}
