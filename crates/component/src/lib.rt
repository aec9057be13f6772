// What every panel is to this library: its records, the interface by which
// they are asked, and the reasons for which a call refuses.
#![tactic(auto)]

ghost use Rattle.std.specs.Prelude.{◌≡◌, [], map, length, slice_index_or};
ghost use Rattle.std.specs.List.{slice_get};
ghost use Rattle.component.specs.Meaning.{Meaning, sizes_of};

pub mod decoding;
pub mod fault;
pub mod records;
mod words;

use records::{
    Block, Function, Instruction, Mention, Phi, Predecessor, ReactFunctionType, Sizes, Value,
};

// A component by what it means. Asking changes nothing, the same question
// always gets the same answer, and a number outside its table is answered by
// `None`.
pub trait Component {
    ghost meaning: { Self → Meaning };

    // The kind of function 0.
    fn kind(&self) -> ReactFunctionType
        ensures { result ≡ (meaning self.now).kind };

    // How many records each table has.
    fn sizes(&self) -> Sizes
        ensures { result ≡ sizes_of (meaning self.now) };

    // The length of name `n`.
    fn name_length(&self, n: usize) -> Option<usize>
        ensures { result ≡ slice_get (map length (meaning self.now).names) n };

    // Byte `i` of name `n`.
    fn name_byte(&self, n: usize, i: usize) -> Option<u8>
        ensures { result ≡ slice_get (slice_index_or (meaning self.now).names n []) i };

    fn value(&self, n: usize) -> Option<Value>
        ensures { result ≡ slice_get (meaning self.now).values n };

    fn function(&self, n: usize) -> Option<Function>
        ensures { result ≡ slice_get (meaning self.now).functions n };

    fn block(&self, n: usize) -> Option<Block>
        ensures { result ≡ slice_get (meaning self.now).blocks n };

    fn predecessor(&self, n: usize) -> Option<Predecessor>
        ensures { result ≡ slice_get (meaning self.now).predecessors n };

    fn phi(&self, n: usize) -> Option<Phi>
        ensures { result ≡ slice_get (meaning self.now).phis n };

    fn instruction(&self, n: usize) -> Option<Instruction>
        ensures { result ≡ slice_get (meaning self.now).instructions n };

    fn mention(&self, n: usize) -> Option<Mention>
        ensures { result ≡ slice_get (meaning self.now).mentions n };
}

// Entry `n` of a slice.
pub fn pick<T: Copy>(entries: &[T], n: usize) -> Option<T>
    ensures { result ≡ slice_get entries.now n }
{
    entries.get(n).copied()
}
