// How far a table has been listed.
ghost use Rattle.std.specs.Prelude.{◌≡◌, ◌+◌, ◌≤◌, is_some, MatchOption, nat_lt};
ghost use Rattle.cursor.specs.Lists.{end_of, after};

use component::records::Run;

// Records below `next` have been listed. The list whose turn it is ends at
// `end`, and the table at `size`.
#[derive(Clone, Copy)]
pub struct Progress {
    pub next: usize,
    pub end: usize,
    pub size: usize,
    ghost within: { (next ≤ end) × (end ≤ size) },
}

// How far each table has been listed that is listed record by record. Values
// and functions have their turn as a whole.
#[derive(Clone, Copy)]
pub struct Cursor {
    pub values: Progress,
    pub functions: Progress,
    pub blocks: Progress,
    pub phis: Progress,
    pub instructions: Progress,
    ghost whole: { (values.end ≡ values.size) × (functions.end ≡ functions.size) },
}

impl Progress {
    pub fn new(end: usize, size: usize) -> Progress
        requires { end ≤ size }
        ensures { (result.next ≡ 0) × (result.end ≡ end) × (result.size ≡ size) }
    {
        Progress { next: 0, end, size }
    }

    // The next record of the list whose turn it is. Not a `Range`, which would hide `next`
    // and `end`: every definition is about these two.
    pub fn advance(&mut self) -> Option<usize>
        ensures cases { MatchOption result ((self.new.next ≡ self.old.next) × (self.old.next ≡ self.old.end)) (λ n. (n ≡ self.old.next) × (self.new.next ≡ n + 1)) }
        ensures kept { (self.new.end ≡ self.old.end) × (self.new.size ≡ self.old.size) }
    {
        let n = self.next;
        if n == self.end {
            return None;
        }
        self.next = n + 1;
        Some(n)
    }

    // Gives a list its turn, if it starts where the one before it ended and
    // stays within the table.
    pub fn enter(&mut self, list: Run) -> bool
        ensures value { result ≡ is_some (end_of list self.old.end self.old.size) }
        ensures end { self.new.end ≡ after list self.old.end self.old.size }
        ensures kept { (self.new.next ≡ self.old.next) × (self.new.size ≡ self.old.size) }
    {
        let start = usize::from(list.start);
        let end = start + usize::from(list.count);
        if start == self.end && end <= self.size {
            self.end = end;
            true
        } else {
            false
        }
    }

    // Gives what is left of the table its turn, and says whether that is
    // anything.
    pub fn enter_rest(&mut self) -> bool
        ensures value { result ≡ nat_lt self.old.end self.old.size }
        ensures end { self.new.end ≡ self.old.size }
        ensures kept { (self.new.next ≡ self.old.next) × (self.new.size ≡ self.old.size) }
    {
        let is_some = self.end < self.size;
        self.end = self.size;
        is_some
    }
}
