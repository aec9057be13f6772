// Names, and values by their numbers and names.
ghost use Rattle.std.specs.Prelude.{◌≡◌, length, take};

use crate::page::Page;
use component::Component;
use component::records::IdentifierName;
use std::str::from_utf8;

const MOST_SHOWN: usize = 64;

impl<'a, C: Component> Page<'a, C> {
    // A value where it is mentioned: its number, and its name where it has one.
    pub fn push_value(&mut self, n: u16) {
        match self.component.value(usize::from(n)) {
            Some(value) => {
                self.push_number(usize::from(n));
                self.push_identifier(value.name);
            }
            None => self.push_unknown(usize::from(n)),
        }
    }

    pub fn push_identifier(&mut self, name: IdentifierName) {
        match name {
            IdentifierName::Unnamed => {}
            IdentifierName::Named(n) | IdentifierName::Promoted(n) => {
                self.push_str(" ");
                self.push_name(usize::from(n));
            }
        }
    }

    // The front of a name, and `..` where that is not the whole name.
    fn push_name(&mut self, n: usize) {
        let Some(length) = self.component.name_length(n) else {
            self.push_unknown(n);
            return;
        };
        // An array: the front has a size of its own, and a `Vec` could fail.
        let mut buffer = [0; MOST_SHOWN];
        let front = &mut buffer[0..length.min(MOST_SHOWN)];
        read_front(self.component, n, front);
        if length <= MOST_SHOWN {
            self.push_bytes(front);
        } else {
            self.push_bytes(whole_characters(front));
            self.push("..");
        }
    }

    // Bytes as the text that they are, if it is plain, and else escaped.
    fn push_bytes(&mut self, bytes: &[u8]) {
        match from_utf8(bytes) {
            Ok("") => self.push("\"\""),
            Ok(plain) if is_plain(plain) => self.push(plain),
            _ => self.push_escaped(bytes),
        }
    }

    fn push_escaped(&mut self, bytes: &[u8]) {
        for b in bytes {
            match *b {
                b' '..=b'[' | b']'..=b'~' => self.text.push_char(char::from(*b)),
                other => {
                    self.push_str("\\x");
                    self.text.push_hex(other);
                }
            }
        }
    }
}

fn read_front<C: Component>(component: &C, n: usize, buffer: &mut [u8]) {
    for (i, byte) in buffer.iter_mut().enumerate() {
        if let Some(b) = component.name_byte(n, i) {
            *byte = b;
        }
    }
}

// Bytes without the part of a character that they were cut in.
fn whole_characters(bytes: &[u8]) -> &[u8]
    ensures { result.now ≡ take (length result.now) bytes.now }
{
    match from_utf8(bytes) {
        Err(e) if e.error_len().is_none() => &bytes[0..e.valid_up_to()],
        _ => bytes,
    }
}

// Whether a text is shown as it is. One with a backslash is not, so that an
// escape is never taken for text.
fn is_plain(text: &str) -> bool {
    text.chars().all(|c| !c.is_control() && c != '\\')
}
