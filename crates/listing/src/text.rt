// Text that is written piece by piece.
ghost use Rattle.std.specs.Prelude.{◌≡◌, ◌+◌, ◌<◌, ◌++◌, length, if◌then◌else◌, is_ok, IsOk, OnErr, encode_utf8, string_bytes, string_len, string_capacity};
ghost use Rattle.std.specs.Fmt.{decimal};

use std::alloc::{AllocError, Global};
use std::fmt;

// Once memory was short, nothing more is added, and `written` says so. The result stands
// beside the text, as in std's builders of `Debug`: in one `Result` the text would be lost
// with the first error.
#[derive(Drop)]
pub struct Text {
    written: String,
    result: Result<(), AllocError>,
}

impl Text {
    pub fn new(heap: Global) -> Text {
        Text {
            written: String::new(heap),
            result: Ok(()),
        }
    }

    // Whatever can be displayed. For a text, a character or a number that is pushed often
    // there is a function below, which takes less time.
    pub fn push(&mut self, piece: impl fmt::Display + Drop) {
        if self.result.is_ok() {
            self.result = write!(self.written, "{piece}");
        }
    }

    pub fn push_str(&mut self, text: &str)
        ensures bytes { string_bytes self.new.written ≡ (if is_ok self.new.result then string_bytes self.old.written ++ text.now else string_bytes self.old.written) }
        ensures short { IsOk self.new.result → IsOk self.old.result }
        ensures full { IsOk self.old.result → OnErr self.new.result (string_capacity self.old.written < string_len self.old.written + length text.now) }
    {
        if self.result.is_ok() {
            self.result = self.written.push_str(text);
        }
    }

    pub fn push_char(&mut self, c: char)
        ensures bytes { string_bytes self.new.written ≡ (if is_ok self.new.result then string_bytes self.old.written ++ encode_utf8 c else string_bytes self.old.written) }
        ensures short { IsOk self.new.result → IsOk self.old.result }
        ensures full { IsOk self.old.result → OnErr self.new.result (string_capacity self.old.written < string_len self.old.written + length (encode_utf8 c)) }
    {
        if self.result.is_ok() {
            self.result = self.written.push(c);
        }
    }

    pub fn push_number(&mut self, n: u64)
        ensures digits { IsOk self.new.result → string_bytes self.new.written ≡ string_bytes self.old.written ++ decimal n }
        ensures short { IsOk self.new.result → IsOk self.old.result }
    {
        if self.result.is_ok() {
            self.result = write!(self.written, "{n}");
        }
    }

    pub fn push_hex(&mut self, byte: u8) {
        if self.result.is_ok() {
            self.result = write!(self.written, "{byte:02x}");
        }
    }

    // What has been written since the text was last cleared.
    pub fn written(&self) -> Result<&str, AllocError> {
        self.result?;
        Ok(self.written.as_str())
    }

    pub fn len(&self) -> usize {
        self.written.len()
    }

    pub fn clear(&mut self) {
        self.written.clear();
    }
}
