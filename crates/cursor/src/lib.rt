// The order of the lines of a listing: which record or heading comes next, so
// that each record has one line, whatever a component's lists say.
#![tactic(auto)]

mod progress;

ghost use Rattle.std.specs.Prelude.{◌≡◌, ◌+◌, ◌<◌, IfSome, MatchOption};
ghost use Rattle.cursor.specs.Left.{left, records_left, unturned, listed, listed_of};
ghost use Rattle.cursor.specs.Order.{line_at, heading, Passed, Turned, First};

use component::records::Sizes;
pub use progress::{Cursor, Progress};

// A record by its number, or a heading.
#[derive(Clone, Copy)]
pub enum Line {
    Value(usize),
    Function(usize),
    Block(usize),
    Phi(usize),
    Instruction(usize),
    OutsideFunctions,
    OutsideBlocks,
}

impl Cursor {
    pub fn new(sizes: Sizes) -> Cursor
        ensures first { First sizes result }
        ensures all { records_left result ≡ listed_of sizes }
    {
        Cursor {
            values: Progress::new(sizes.values, sizes.values),
            functions: Progress::new(sizes.functions, sizes.functions),
            blocks: Progress::new(0, sizes.blocks),
            phis: Progress::new(0, sizes.phis),
            instructions: Progress::new(0, sizes.instructions),
        }
    }

    // The line that comes next. There is none once every record was listed. Each table is
    // asked only where those before it have none: a chain of `or_else` is no plainer, since
    // each closure would borrow the cursor anew.
    pub fn advance(&mut self) -> Option<Line>
        ensures which { result ≡ line_at self.old }
        ensures passed { Passed result self.old self.new }
        ensures turned { Turned result self.old self.new }
        ensures counted { MatchOption result (records_left self.old ≡ 0) (λ l. records_left self.new + listed l ≡ records_left self.old) }
        ensures ends { MatchOption result (records_left self.new ≡ 0) (λ _. left self.new < left self.old) }
    {
        if let Some(n) = self.values.advance() {
            return Some(Line::Value(n));
        }
        if let Some(n) = self.phis.advance() {
            return Some(Line::Phi(n));
        }
        if let Some(n) = self.instructions.advance() {
            return Some(Line::Instruction(n));
        }
        if let Some(n) = self.blocks.advance() {
            return Some(Line::Block(n));
        }
        if let Some(n) = self.functions.advance() {
            return Some(Line::Function(n));
        }
        self.enter_rest()
    }

    // Headings for the records that stand in no list that had its turn.
    fn enter_rest(&mut self) -> Option<Line>
        ensures which { result ≡ heading self.old }
        ensures passed { Passed result self.old self.new }
        ensures turned { Turned result self.old self.new }
        ensures counted { IfSome result (λ l. records_left self.new + listed l ≡ records_left self.old) }
        ensures ends { MatchOption result ((unturned self.old ≡ 0) × (records_left self.new ≡ records_left self.old)) (λ _. left self.new < left self.old) }
    {
        if self.blocks.enter_rest() {
            return Some(Line::OutsideFunctions);
        }
        let phis = self.phis.enter_rest();
        let instructions = self.instructions.enter_rest();
        (phis || instructions).then_some(Line::OutsideBlocks)
    }
}
