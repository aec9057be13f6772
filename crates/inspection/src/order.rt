// Lists that follow each other, and function expressions.
ghost use Rattle.std.specs.Prelude.{◌≡◌, ℕ, ◌<◌, ◌&&◌, length, Some, nat_lt};
ghost use Rattle.std.specs.List.{slice_get};
ghost use Rattle.rules.specs.Lists.{before, starts_at};
ghost use Rattle.rules.specs.Rules.{function_behind, block_behind, blocks_of, phis_of, instructions_of, body_of};
ghost use Rattle.rules.specs.Admission.{function_order, block_order, phi_order, instruction_order};

use crate::Inspection;
use component::Component;
use component::records::{Block, Function};
use rules::firsts::{first_failing, rest_from};
use rules::order::{
    block_behind, blocks_in, body_in, function_behind, instruction_follows, instructions_in,
    note_body, phis_in,
};
use rules::records::end_of;

// What is generic before and at the end of a table is `and_then` and `end_of`: a line each
// is left.
impl<'a, C: Component> Inspection<'a, C> {
    // The function before function `n`.
    fn function_before(&self, n: usize) -> Option<Function>
        ensures { result ≡ before self.now.functions n }
    {
        n.checked_sub(1).and_then(|m| self.component.function(m))
    }

    // The block before block `n`.
    fn block_before(&self, n: usize) -> Option<Block>
        ensures { result ≡ before self.now.blocks n }
    {
        n.checked_sub(1).and_then(|m| self.component.block(m))
    }

    // Where the block lists of all functions end.
    fn blocks_end(&self) -> usize
        ensures { result ≡ starts_at (blocks_of self.now) (length self.now.functions) }
    {
        end_of(blocks_in(self.function_before(self.sizes.functions)))
    }

    // Where the phi lists of all blocks end.
    fn phis_end(&self) -> usize
        ensures { result ≡ starts_at (phis_of self.now) (length self.now.blocks) }
    {
        end_of(phis_in(self.block_before(self.sizes.blocks)))
    }

    // Where the instruction lists of all blocks end.
    fn instructions_end(&self) -> usize
        ensures { result ≡ starts_at (instructions_of self.now) (length self.now.blocks) }
    {
        end_of(instructions_in(self.block_before(self.sizes.blocks)))
    }

    // Function `n`'s blocks follow those of the function before it.
    fn function_follows(&self, n: usize) -> bool
        ensures { result ≡ function_behind (before self.now.functions n) (slice_get self.now.functions n) }
    {
        function_behind(self.function_before(n), self.component.function(n))
    }

    // Block `n` is before `end`, and its phis and instructions follow those of the block
    // before it.
    fn block_follows(&self, end: usize, n: usize) -> bool
        ensures { result ≡ (nat_lt n end && block_behind (before self.now.blocks n) (slice_get self.now.blocks n)) }
    {
        n < end && block_behind(self.block_before(n), self.component.block(n))
    }

    pub fn function_order(&self) -> Option<usize>
        ensures { result ≡ function_order self.now }
    {
        first_failing(self.sizes.functions, |n| self.function_follows(n))
    }

    // Each block is before the end of the functions' lists.
    pub fn block_order(&self) -> Option<usize>
        ensures { result ≡ block_order self.now }
    {
        let end = self.blocks_end();
        first_failing(self.sizes.blocks, |n| self.block_follows(end, n))
    }

    // The first phi behind the blocks' lists.
    pub fn phi_order(&self) -> Option<usize>
        ensures { result ≡ phi_order self.now }
    {
        rest_from(self.phis_end(), self.sizes.phis)
    }

    // The first instruction behind the blocks' lists, or whose function is 0 or the body
    // of an earlier one.
    pub fn instruction_order(&self) -> Option<usize>
        requires { (i f : ℕ) → body_of self.now i ≡ Some f → f < 256 }
        ensures { result ≡ instruction_order self.now }
    {
        let end = self.instructions_end();
        // An array, since admission uses local memory alone.
        let mut taken = [false; 256];
        // By number, since each step notes a body for the next ones.
        for n in 0..self.sizes.instructions {
            let body = body_in(self.component.instruction(n));
            if !instruction_follows(n, end, &taken, body) {
                return Some(n);
            }
            note_body(&mut taken, body);
        }
        None
    }
}
