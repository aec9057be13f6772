// Packs a panel: readable source on standard input, the packed file on
// standard output.
#![tactic(auto)]

use anyhow::bail;
use panelsource::source::parse_source;
use std::io::Write;
use std::process::ExitCode;
use std::{env, io};

const HELP: &str = "panelpack < SOURCE > FILE

Packs a panel. The source has one statement to a line, `#` starts a comment:

  panel KIND                 component, hook or other
  name WORD                  appends the word to the text, and a name for it
  name-at START LENGTH       a name at a place in the text
  text WORD                  appends the word to the text
  value FORM TYPE A..B       form: unnamed, named NAME, promoted NAME
                             type: other, use-state, set-state, use-ref,
                             effect-hook
  function params LIST blocks LIST
  block ID preds LIST phis LIST instructions LIST [return VALUE]
  predecessor ID
  phi VALUE operands LIST
  instruction WHAT order N lvalues LIST operands LIST
                             what: other, load-local MENTION,
                             function FUNCTION, call MENTION args LIST,
                             method-call MENTION args LIST, array args LIST,
                             load-global
  mention place VALUE EFFECT [A..B]
  mention spread VALUE EFFECT [A..B]
  mention hole               effect: unknown, freeze, read, capture,
                             mutate-iterator?, mutate?, mutate, store
  raw TABLE BYTE..           a record by the bytes behind its mark
  raw text BYTE..            bytes of the text
  repeat N STATEMENT         as if the statement stood N times

LIST is start+count, A..B a range, BYTE two hexadecimal digits. NAME, VALUE,
FUNCTION and MENTION are record numbers, from 0 in the order of the lines. In
place of a word for a code any number may stand. An error is reported as
`line N: what is wrong`.
";

// Reads, packs and writes, unless help is asked for.
fn run(rt: &HostRuntime) -> anyhow::Result<()> {
    let heap = rt.alloc();
    if let Some(word) = env::args(rt)?.nth(1) {
        if word.as_str() != "--help" {
            bail!("panelpack takes no words but --help");
        }
        rt.print(HELP)?;
        return Ok(());
    }
    let source = io::read_to_string(heap, rt.stdin())?;
    let builder = parse_source(heap, source.as_str())?;
    let file = builder.finish(heap)?;
    rt.stdout().write_all(file.as_slice())?;
    Ok(())
}

fn main(rt: HostRuntime) -> ExitCode {
    match run(&rt) {
        Ok(()) => ExitCode::SUCCESS,
        Err(error) => {
            let _ = rt.eprintln(&error);
            ExitCode::FAILURE
        }
    }
}
