// Lists that follow each other, and functions that are bodies.
ghost use Rattle.std.specs.Prelude.{◌≡◌, ℕ, true, false, ◌&&◌, nat_lt, slice_index_or, slice_set};
ghost use Rattle.rules.specs.Lists.{run_of, starts_behind};
ghost use Rattle.rules.specs.Rules.{function_behind, block_behind, body_from, body_free, noted};
ghost use Rattle.component.specs.declared.records.Function.{Function as AFunction};
ghost use Rattle.component.specs.declared.records.Block.{Block as ABlock};

use crate::records::end_of;
use component::records::{Block, Function, Instruction, InstructionValue, Run};

const NO_LIST: Run = Run { start: 0, count: 0 };

// The blocks of a function, and none of none. What is generic in these three is
// `map_or`, which they call.
pub fn blocks_in(function: Option<Function>) -> Run
    ensures { result ≡ run_of (λ (f : AFunction). f.blocks) function }
{
    function.map_or(NO_LIST, |function| function.blocks)
}

pub fn phis_in(block: Option<Block>) -> Run
    ensures { result ≡ run_of (λ (b : ABlock). b.phis) block }
{
    block.map_or(NO_LIST, |block| block.phis)
}

pub fn instructions_in(block: Option<Block>) -> Run
    ensures { result ≡ run_of (λ (b : ABlock). b.instructions) block }
{
    block.map_or(NO_LIST, |block| block.instructions)
}

// A list starts where another ended.
fn starts_behind(previous: Run, list: Run) -> bool
    ensures { result ≡ starts_behind previous list }
{
    list.start as usize == end_of(previous)
}

// A function's blocks follow those of the function before it.
pub fn function_behind(previous: Option<Function>, function: Option<Function>) -> bool
    ensures { result ≡ function_behind previous function }
{
    starts_behind(blocks_in(previous), blocks_in(function))
}

// A block's phis and instructions follow those of the block before it.
pub fn block_behind(previous: Option<Block>, block: Option<Block>) -> bool
    ensures { result ≡ block_behind previous block }
{
    starts_behind(phis_in(previous), phis_in(block))
        && starts_behind(instructions_in(previous), instructions_in(block))
}

// The function of a function expression.
pub fn body_in(instruction: Option<Instruction>) -> Option<u16>
    ensures { result ≡ body_from instruction }
{
    match instruction?.value {
        InstructionValue::FunctionExpression(f) => Some(f),
        _ => None,
    }
}

// Function `f` is the body of an instruction before. `taken` stays a slice beside
// the body: a struct round a lent slice would say no more.
fn is_taken(taken: &[bool], f: u16) -> bool
    ensures { result ≡ slice_index_or taken.now f false }
{
    taken.get(f as usize).copied().unwrap_or(false)
}

// A body is not function 0 and not taken.
fn body_free(taken: &[bool], body: Option<u16>) -> bool
    ensures { result ≡ body_free (λ f. slice_index_or taken.now f false) body }
{
    body.is_none_or(|f| f != 0 && !is_taken(taken, f))
}

// An instruction before `end`, where the blocks' lists end, with a free body.
pub fn instruction_follows(n: usize, end: usize, taken: &[bool], body: Option<u16>) -> bool
    ensures { result ≡ (nat_lt n end && body_free (λ f. slice_index_or taken.now f false) body) }
{
    n < end && body_free(taken, body)
}

// An index: with `get_mut` the proof that the write comes back did not close.
fn take_function(taken: &mut [bool], f: u16)
    ensures { taken.new ≡ slice_set taken.old f true }
{
    if (f as usize) < taken.len() {
        taken[f as usize] = true;
    }
}

// Notes a body as taken.
pub fn note_body(taken: &mut [bool], body: Option<u16>)
    ensures { taken.new ≡ noted taken.old body }
{
    if let Some(f) = body {
        take_function(taken, f);
    }
}
