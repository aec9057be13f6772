// A component and the text that its lines are written to.
ghost use Rattle.std.specs.Prelude.{◌≡◌};

use crate::text::Text;
use component::Component;
use std::fmt;

#[derive(Drop)]
pub struct Page<'a, C: Component> {
    pub component: &'a C,
    pub text: &'a mut Text,
}

impl<'a, C: Component> Page<'a, C> {
    pub fn new(component: &'a C, text: &'a mut Text) -> Page<'a, C>
        ensures { result.component.now ≡ component.now }
    {
        Page { component, text }
    }

    pub fn push(&mut self, piece: impl fmt::Display + Drop) {
        self.text.push(piece);
    }

    pub fn push_str(&mut self, text: &str) {
        self.text.push_str(text);
    }

    pub fn push_number(&mut self, n: usize) {
        self.text.push_number(n as u64);
    }

    // A range, of orders or of a source text.
    pub fn push_bounds(&mut self, start: u32, end: u32) {
        self.text.push_number(u64::from(start));
        self.push_str("..");
        self.text.push_number(u64::from(end));
    }

    // A number that its table has no record for.
    pub fn push_unknown(&mut self, n: usize) {
        self.push_str("?");
        self.push_number(n);
    }
}
