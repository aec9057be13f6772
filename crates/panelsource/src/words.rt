// The words of a source line, and what is wrong with one.
ghost use Rattle.std.specs.Prelude.{◌≡◌, ◌↔◌, ◌⊎◌, IfErr, IsOk, Ok, IfOk, IsOkUnless};
ghost use Rattle.panelsource.specs.declared.words.Problem.TheVariants.{Missing, Refused, Unfit};
ghost use Rattle.assemble.specs.declared.error.BuildError.TheVariants.{Memory};

use assemble::builder::TEXT_MAX;
use assemble::error::BuildError;
use assemble::records::{Range, Run};
use std::alloc::{AllocError, Global};
use std::fmt;
use std::fmt::Display;
use std::str::{FromStr, SplitWhitespace};

// What is wrong with a line.
#[derive(Clone, Copy, Debug)]
pub enum Problem<'a> {
    // The line ends where this should stand.
    Missing(&'static str),
    // Where the first should stand, the second does.
    Unfit(&'static str, &'a str),
    // Words follow a whole statement.
    Leftover(&'a str),
    // The builder refuses the record.
    Refused(BuildError),
}

impl<'a> From<BuildError> for Problem<'a> {
    ghost from_gives = { λ error problem. problem ≡ Refused error };

    fn from(refusal: BuildError) -> Problem<'a> {
        Problem::Refused(refusal)
    }
}

impl<'a> From<AllocError> for Problem<'a> {
    ghost from_gives = { λ _ problem. problem ≡ Refused Memory };

    fn from(error: AllocError) -> Problem<'a> {
        Problem::Refused(BuildError::from(error))
    }
}

impl<'a> fmt::Display for Problem<'a> {
    fn fmt<W: fmt::Write>(&self, f: &mut fmt::Formatter<W>) -> fmt::Result {
        match self {
            Problem::Missing(what) => write!(f, "{what} is missing"),
            Problem::Unfit(what, word) => write!(f, "`{word}` is not {what}"),
            Problem::Leftover(word) => write!(f, "`{word}` is left over"),
            Problem::Refused(error) => error.fmt(f),
        }
    }
}

// A word and the code that it stands for.
pub type Code = (&'static str, u16);

const LIST: &str = "a list start+count";

const RANGE: &str = "a range start..end";

// The words that are still to be read.
#[derive(Drop)]
pub struct Words<'a> {
    rest: SplitWhitespace<'a>,
}

impl<'a> Words<'a> {
    // The words of a line, up to its comment.
    pub fn of(line: &'a str) -> Words<'a> {
        let (code, _) = line.split_once('#').unwrap_or((line, ""));
        Words {
            rest: code.split_whitespace(),
        }
    }

    pub fn next(&mut self) -> Option<&'a str> {
        self.rest.next()
    }

    // The next word, which stands for `what`.
    pub fn expect(&mut self, what: &'static str) -> Result<&'a str, Problem<'a>>
        ensures { IsOkUnless result (Missing what.entry) }
    {
        self.rest.next().ok_or(Problem::Missing(what))
    }

    // The next word has to be this one.
    pub fn keyword(&mut self, keyword: &'static str) -> Result<(), Problem<'a>> {
        check(keyword, self.expect(keyword)?)
    }

    // Nothing may follow a whole statement.
    pub fn end(&mut self) -> Result<(), Problem<'a>> {
        self.rest
            .next()
            .map_or(Ok(()), |word| Err(Problem::Leftover(word)))
    }

    // The next word as a number.
    pub fn number<N: FromStr>(&mut self, what: &'static str) -> Result<N, Problem<'a>>
    where
        N::Err: Drop,
        ensures { IfErr result (λ p. (p ≡ Missing what.entry) ⊎ ((word : _) × (p ≡ Unfit what.entry word))) }
    {
        let word = self.expect(what)?;
        parse::<N>(what, word, word)
    }

    // The code of a word of `codes`, or any code as a plain number.
    pub fn code(&mut self, what: &'static str, codes: &[Code]) -> Result<u16, Problem<'a>> {
        let word = self.expect(what)?;
        match codes.iter().find(|(name, _)| *name == word) {
            Some((_, code)) => Ok(*code),
            None => parse(what, word, word),
        }
    }

    // A list behind its keyword, as `args 3+2`.
    pub fn run(&mut self, keyword: &'static str) -> Result<Run, Problem<'a>> {
        self.keyword(keyword)?;
        let word = self.expect(LIST)?;
        let (start, count) = halves(word, "+");
        Ok(Run {
            start: parse(LIST, word, start)?,
            count: parse(LIST, word, count)?,
        })
    }

    pub fn range(&mut self) -> Result<Range, Problem<'a>> {
        range_of(self.expect(RANGE)?)
    }

    // All words that are left, each a byte of two hexadecimal digits.
    pub fn bytes(&mut self, heap: Global) -> Result<Vec<u8>, Problem<'a>> {
        self.rest
            .by_ref()
            .take(TEXT_MAX)
            .map(byte_of)
            .try_collect(heap)
    }
}

// The word has to be the keyword. An `if`: by `then_some` and `ok_or` it is no plainer.
pub fn check<'a>(keyword: &'static str, word: &'a str) -> Result<(), Problem<'a>>
    ensures same { IsOk result ↔ (word.now ≡ keyword.now) }
    ensures unfit { IsOkUnless result (Unfit keyword.entry word.entry) }
{
    if word == keyword {
        Ok(())
    } else {
        Err(Problem::Unfit(keyword, word))
    }
}

// What a part of a word says, where `what` should stand.
pub fn parse<'a, T: FromStr>(
    what: &'static str,
    word: &'a str,
    part: &str,
) -> Result<T, Problem<'a>>
where
    T::Err: Drop,
    ensures said { IfOk result (λ x. T.from_str_gives part.now (Ok x)) }
    ensures unfit { IsOkUnless result (Unfit what.entry word.entry) }
{
    part.parse().map_err(|_| Problem::Unfit(what, word))
}

// The range that a word is, as `5..30`.
pub fn range_of<'a>(word: &'a str) -> Result<Range, Problem<'a>> {
    let (start, end) = halves(word, "..");
    Ok(Range {
        start: parse(RANGE, word, start)?,
        end: parse(RANGE, word, end)?,
    })
}

// The byte that a word is, as `0a`.
fn byte_of<'a>(word: &'a str) -> Result<u8, Problem<'a>> {
    match u8::from_str_radix(word, 16) {
        Ok(byte) if word.len() == 2 && !word.starts_with('+') => Ok(byte),
        _ => Err(Problem::Unfit("a byte of two hexadecimal digits", word)),
    }
}

// What stands before and behind a mark.
fn halves<'a>(word: &'a str, mark: &str) -> (&'a str, &'a str) {
    word.split_once(mark).unwrap_or(("", ""))
}
