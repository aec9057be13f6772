// Lists the component of a packed file.
#![tactic(auto)]

use component::fault::Fault;
use listing::{Listing, Text};
use packed::{Packed, max_length};
use std::io::{Read, Write};
use std::process::ExitCode;
use std::{env, io};

const USAGE: &str = "usage: panelinfo [--help] <FILE";

const HELP: &str = "\
Lists the component of a packed file as text.

usage: panelinfo [--help] <FILE

Standard input is a packed file. Standard output is its length and that of its
text, the kind and the sizes of its component, and a line for each value,
function, block, phi and instruction. The component's records are listed as
they stand, also where they contradict each other: `?7` is number 7 of a table
with no such record, and `(not in sequence)` marks a list that does not start
where the one before it ended.

Bytes that are no packed file are refused: standard output is then
`refused N at P`, the number of the reason and the place.

exit status: 0 where the component or this help was printed, 1 otherwise

example: panelpack <examples/rate.panel | panelinfo";

// How many bytes of the listing are held before they are printed.
const PIECE: usize = 65536;

enum Command {
    List,
    Help,
}

// Why the program ends with status 1.
#[derive(Drop)]
enum Failure {
    Usage,
    Refused(Fault),
    Io(io::Error),
}

impl From<io::Error> for Failure {
    fn from(error: io::Error) -> Failure {
        Failure::Io(error)
    }
}

impl From<Fault> for Failure {
    fn from(fault: Fault) -> Failure {
        Failure::Refused(fault)
    }
}

fn main(rt: HostRuntime) -> ExitCode {
    match run(&rt) {
        Ok(()) => ExitCode::SUCCESS,
        Err(failure) => {
            report(&rt, &failure);
            ExitCode::FAILURE
        }
    }
}

fn run(rt: &HostRuntime) -> Result<(), Failure> {
    match read_arguments(rt)? {
        Command::List => list(rt),
        Command::Help => Ok(println!(rt; "{HELP}")?),
    }
}

fn read_arguments(rt: &HostRuntime) -> Result<Command, Failure> {
    let mut words = env::args(rt)?.skip(1);
    match words.next() {
        None => Ok(Command::List),
        Some(word) if word.as_str() == "--help" => Ok(Command::Help),
        Some(_) => Err(Failure::Usage),
    }
}

fn list(rt: &HostRuntime) -> Result<(), Failure> {
    let bytes = read_input(rt)?;
    let packed = Packed::open(bytes.as_slice())?;
    print_listing(rt, bytes.len(), &packed)?;
    Ok(())
}

// One byte more than the longest packed file is enough to refuse a longer one.
fn read_input(rt: &HostRuntime) -> io::Result<Vec<u8>> {
    let mut bytes = Vec::new(rt.alloc());
    rt.stdin()
        .take(max_length() as u64 + 1)
        .read_to_end(&mut bytes)?;
    Ok(bytes)
}

fn print_listing(rt: &HostRuntime, length: usize, packed: &Packed) -> io::Result<()> {
    let text_length = packed.text_length();
    println!(rt; "file {length}  text {text_length}")?;
    let mut listing = Listing::new(packed, Text::new(rt.alloc()));
    while listing.push_next() {
        if listing.text.len() >= PIECE {
            print_piece(rt, &mut listing.text)?;
        }
    }
    print_piece(rt, &mut listing.text)
}

fn print_piece(rt: &HostRuntime, text: &mut Text) -> io::Result<()> {
    rt.stdout().write_all(text.written()?.as_bytes())?;
    text.clear();
    Ok(())
}

// A write that fails here is let go: the status says enough.
fn report(rt: &HostRuntime, failure: &Failure) {
    let _ = match failure {
        Failure::Usage => eprintln!(rt; "{USAGE}"),
        Failure::Refused(fault) => println!(rt; "{fault}"),
        Failure::Io(error) => eprintln!(rt; "panelinfo: {error}"),
    };
}
