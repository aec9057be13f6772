// The tables of a component, each record asked once: numbers inside their
// tables, forms, lengths of lists.
ghost use Rattle.std.specs.Prelude.{◌≡◌};
ghost use Rattle.component.specs.Meaning.{sizes_of};
ghost use Rattle.rules.specs.Lists.{test_in};
ghost use Rattle.rules.specs.Rules.{value_fits, function_fits, block_fits};
ghost use Rattle.rules.specs.Admission.{value_breach, function_breach, block_breach};

use crate::Inspection;
use component::Component;
use rules::firsts::first_failing;
use rules::records::{block_fits, function_fits, value_fits};

// The tests of single records differ in their table alone, and what is generic in them
// is `is_none_or`, which they call.
impl<'a, C: Component> Inspection<'a, C> {
    fn value_keeps(&self, n: usize) -> bool
        ensures { result ≡ test_in (value_fits (sizes_of self.now)) self.now.values n }
    {
        let sizes = self.sizes;
        self.component
            .value(n)
            .is_none_or(|value| value_fits(sizes, value))
    }

    fn function_keeps(&self, n: usize) -> bool
        ensures { result ≡ test_in (function_fits (sizes_of self.now)) self.now.functions n }
    {
        let sizes = self.sizes;
        self.component
            .function(n)
            .is_none_or(|function| function_fits(sizes, function))
    }

    fn block_keeps(&self, n: usize) -> bool
        ensures { result ≡ test_in (block_fits (sizes_of self.now)) self.now.blocks n }
    {
        let sizes = self.sizes;
        self.component
            .block(n)
            .is_none_or(|block| block_fits(sizes, block))
    }

    pub fn value_breach(&self) -> Option<usize>
        ensures { result ≡ value_breach self.now }
    {
        first_failing(self.sizes.values, |n| self.value_keeps(n))
    }

    // Without a function 0 the table fails at 0.
    pub fn function_breach(&self) -> Option<usize>
        ensures { result ≡ function_breach self.now }
    {
        if self.sizes.functions == 0 {
            return Some(0);
        }
        first_failing(self.sizes.functions, |n| self.function_keeps(n))
    }

    pub fn block_breach(&self) -> Option<usize>
        ensures { result ≡ block_breach self.now }
    {
        first_failing(self.sizes.blocks, |n| self.block_keeps(n))
    }
}
