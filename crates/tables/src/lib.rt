// A component that its caller lends as tables.
#![tactic(auto)]

ghost use Rattle.std.specs.Prelude.{◌≡◌, map, length, take, drop};
ghost use Rattle.std.specs.List.{slice_get};
ghost use Rattle.tables.specs.Naming.{name_in};

use component::Component;
use component::records::{
    Block, Function, Instruction, Mention, Phi, Predecessor, ReactFunctionType, Sizes, Value,
};

// A name: `length` bytes of the text from `start` on, cut at the text's end.
#[derive(Clone, Copy)]
pub struct NameSpan {
    pub start: usize,
    pub length: usize,
}

// The bytes from `start` on, none where they end before it. By an index: with `get` the
// bounds were tested again at each byte of a name, and admission took up to 1.7 times as long.
fn bytes_from(bytes: &[u8], start: usize) -> &[u8]
    ensures { result.now ≡ drop start bytes.now }
{
    &bytes[start.min(bytes.len())..]
}

// The first `length` bytes, or all where there are fewer.
fn first_bytes(bytes: &[u8], length: usize) -> &[u8]
    ensures { result.now ≡ take length bytes.now }
{
    &bytes[..length.min(bytes.len())]
}

impl NameSpan {
    // The bytes of the name.
    fn bytes<'a>(self, text: &'a [u8]) -> &'a [u8]
        ensures { result.now ≡ name_in text.now self }
    {
        first_bytes(bytes_from(text, self.start), self.length)
    }

    // How many bytes the name has.
    fn len(self, text: &[u8]) -> usize
        ensures { result ≡ length (name_in text.now self) }
    {
        self.bytes(text).len()
    }

    // Byte `i` of the name.
    fn byte(self, text: &[u8], i: usize) -> Option<u8>
        ensures { result ≡ slice_get (name_in text.now self) i }
    {
        self.bytes(text).get(i).copied()
    }
}

// The eight tables, and the text that has the names.
#[derive(Clone, Copy)]
pub struct Tables<'a> {
    pub kind: ReactFunctionType,
    pub text: &'a [u8],
    pub names: &'a [NameSpan],
    pub values: &'a [Value],
    pub functions: &'a [Function],
    pub blocks: &'a [Block],
    pub predecessors: &'a [Predecessor],
    pub phis: &'a [Phi],
    pub instructions: &'a [Instruction],
    pub mentions: &'a [Mention],
}

impl<'a> Component for Tables<'a> {
    ghost meaning = { λ t. record { kind = t.kind; names = map (name_in t.text.now) t.names.now; values = t.values.now; functions = t.functions.now; blocks = t.blocks.now; predecessors = t.predecessors.now; phis = t.phis.now; instructions = t.instructions.now; mentions = t.mentions.now } };

    fn kind(&self) -> ReactFunctionType {
        self.kind
    }

    fn sizes(&self) -> Sizes {
        Sizes {
            names: self.names.len(),
            values: self.values.len(),
            functions: self.functions.len(),
            blocks: self.blocks.len(),
            predecessors: self.predecessors.len(),
            phis: self.phis.len(),
            instructions: self.instructions.len(),
            mentions: self.mentions.len(),
        }
    }

    fn name_length(&self, n: usize) -> Option<usize> {
        Some(self.names.get(n)?.len(self.text))
    }

    fn name_byte(&self, n: usize, i: usize) -> Option<u8> {
        self.names.get(n)?.byte(self.text, i)
    }

    fn value(&self, n: usize) -> Option<Value> {
        self.values.get(n).copied()
    }

    fn function(&self, n: usize) -> Option<Function> {
        self.functions.get(n).copied()
    }

    fn block(&self, n: usize) -> Option<Block> {
        self.blocks.get(n).copied()
    }

    fn predecessor(&self, n: usize) -> Option<Predecessor> {
        self.predecessors.get(n).copied()
    }

    fn phi(&self, n: usize) -> Option<Phi> {
        self.phis.get(n).copied()
    }

    fn instruction(&self, n: usize) -> Option<Instruction> {
        self.instructions.get(n).copied()
    }

    fn mention(&self, n: usize) -> Option<Mention> {
        self.mentions.get(n).copied()
    }
}
