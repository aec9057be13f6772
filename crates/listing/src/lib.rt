// A component as lines of text: its kind and sizes, its values, and its
// functions with their blocks, phis and instructions.
//
// Any component has a listing whose length is at most a fixed multiple of its
// size, whatever its lists say. A list of blocks, phis or instructions is
// expanded only where it starts at the end of the one before, and the records
// of the others come last, so each record is listed once. Of a list of
// mentions or predecessors the first 32 entries are shown, and of a name the
// first 64 bytes. `?7` is number 7 of a table that has no such record.
#![tactic(auto)]

mod lines;
mod lists;
mod names;
mod page;
mod text;

ghost use Rattle.std.specs.Prelude.{◌≡◌, ◌<◌, ◌≤◌, true, false, is_some};
ghost use Rattle.component.specs.Meaning.{sizes_of};
ghost use Rattle.cursor.specs.Left.{left, records_left};
ghost use Rattle.cursor.specs.Order.{line_at, Passed, Tables, Same, NoRecord, First};
ghost use Rattle.listing.specs.Turns.{Entered, ListsEntered, Behind};

use component::Component;
use component::records::{Block, Function};
pub use cursor::Cursor;
use cursor::Line;
use page::Page;
pub use text::Text;

// Adds the lines that come before those of the records, and answers where
// these begin.
pub fn push_head<C: Component>(component: &C, text: &mut Text) -> Cursor
    ensures { First (sizes_of (C.Component.meaning component.now)) result }
{
    let sizes = component.sizes();
    let mut page = Page::new(component, text);
    page.push_str("kind ");
    page.push_str(component.kind().word());
    page.push_str("\n");
    page.push_sizes(sizes);
    Cursor::new(sizes)
}

// Adds the line that comes next, of a record or a heading. Once every record
// was listed it adds nothing, and answers false.
pub fn push_next<C: Component>(component: &C, cursor: &mut Cursor, text: &mut Text) -> bool
    ensures value { result ≡ is_some (line_at cursor.old) }
    ensures passed { Passed (line_at cursor.old) cursor.old cursor.new }
    ensures behind { Behind (C.Component.meaning component.now) (line_at cursor.old) cursor.old cursor.new }
    ensures more { result ≡ true → left cursor.new < left cursor.old }
    ensures complete { result ≡ false → records_left cursor.new ≡ 0 }
{
    match cursor.advance() {
        Some(line) => {
            Page::new(component, text).push_line(line, cursor);
            true
        }
        None => false,
    }
}

// A component, the lines that are to come, and the text of those that came.
#[derive(Drop)]
pub struct Listing<'a, C: Component> {
    pub component: &'a C,
    pub cursor: Cursor,
    pub text: Text,
}

impl<'a, C: Component> Listing<'a, C> {
    // A listing whose text has the lines that come before those of the records.
    pub fn new(component: &'a C, mut text: Text) -> Listing<'a, C>
        ensures component { result.component.now ≡ component.now }
        ensures first { First (sizes_of (C.Component.meaning component.now)) result.cursor }
    {
        let cursor = push_head(component, &mut text);
        Listing {
            component,
            cursor,
            text,
        }
    }

    // Adds the line that comes next: `push_next` over this listing's own cursor and text.
    pub fn push_next(&mut self) -> bool
        ensures component { self.new.component.now ≡ self.old.component.now }
        ensures value { result ≡ is_some (line_at self.old.cursor) }
        ensures passed { Passed (line_at self.old.cursor) self.old.cursor self.new.cursor }
        ensures behind { Behind (C.Component.meaning self.old.component.now) (line_at self.old.cursor) self.old.cursor self.new.cursor }
        ensures more { result ≡ true → left self.new.cursor < left self.old.cursor }
        ensures complete { result ≡ false → records_left self.new.cursor ≡ 0 }
    {
        push_next(self.component, &mut self.cursor, &mut self.text)
    }
}

impl<'a, C: Component> Page<'a, C> {
    // The line of a record, with the turns of the lists behind it, or a heading.
    fn push_line(&mut self, line: Line, cursor: &mut Cursor)
        ensures entered { ListsEntered (C.Component.meaning self.old.component.now) line cursor.old cursor.new }
        ensures kept { NoRecord cursor.old cursor.new }
        ensures less { left cursor.new ≤ left cursor.old }
    {
        match line {
            Line::Value(n) => {
                if let Some(value) = self.component.value(n) {
                    self.push_value_line(n, value);
                }
            }
            Line::Function(n) => {
                if let Some(function) = self.component.function(n) {
                    self.push_function(n, function, cursor);
                }
            }
            Line::Block(n) => {
                if let Some(block) = self.component.block(n) {
                    self.push_block(n, block, cursor);
                }
            }
            Line::Phi(n) => {
                if let Some(phi) = self.component.phi(n) {
                    self.push_phi(n, phi);
                }
            }
            Line::Instruction(n) => {
                if let Some(instruction) = self.component.instruction(n) {
                    self.push_instruction(n, instruction);
                }
            }
            Line::OutsideFunctions => self.push_str("outside any function\n"),
            Line::OutsideBlocks => self.push_str("outside any block\n"),
        }
    }

    fn push_function(&mut self, n: usize, function: Function, cursor: &mut Cursor)
        ensures entered { Tables Same Same (Entered (Some function.blocks)) Same Same cursor.old cursor.new }
        ensures kept { NoRecord cursor.old cursor.new }
        ensures less { left cursor.new ≤ left cursor.old }
    {
        self.push_function_start(n, function.params);
        if !cursor.blocks.enter(function.blocks) {
            self.push_not_in_sequence("blocks", function.blocks);
        }
        self.push_str("\n");
    }

    fn push_block(&mut self, n: usize, block: Block, cursor: &mut Cursor)
        ensures entered { Tables Same Same Same (Entered (Some block.phis)) (Entered (Some block.instructions)) cursor.old cursor.new }
        ensures kept { NoRecord cursor.old cursor.new }
        ensures less { left cursor.new ≤ left cursor.old }
    {
        self.push_block_start(n, block);
        if !cursor.phis.enter(block.phis) {
            self.push_not_in_sequence("phis", block.phis);
        }
        if !cursor.instructions.enter(block.instructions) {
            self.push_not_in_sequence("instructions", block.instructions);
        }
        self.push_str("\n");
    }
}
