// What each record keeps: numbers inside their tables, forms, lengths of lists.
ghost use Rattle.std.specs.Prelude.{◌≡◌, ◌<◌, slice_index};
ghost use Rattle.rules.specs.Lists.{end_of, inside};
ghost use Rattle.rules.specs.Rules.{sizes_fit, name_fits, value_fits, function_fits, returned_fits, block_fits, counted_places, operands_fit, lvalues_fit, subject_fits, phi_fits, kind_fits, instruction_fits, mention_fits, places_after};

use component::records::{
    Block, Function, IdentifierName, Instruction, InstructionValue, Mention, Phi, Run, Sizes, Value,
};

pub const MAX_NAMES: usize = 2048;

pub const MAX_VALUES: usize = 2048;

pub const MAX_FUNCTIONS: usize = 256;

pub const MAX_BLOCKS: usize = 2048;

pub const MAX_PREDECESSORS: usize = 4096;

pub const MAX_PHIS: usize = 2048;

pub const MAX_INSTRUCTIONS: usize = 8192;

pub const MAX_MENTIONS: usize = 32768;

// The most operands or lvalues that a phi or an instruction has.
pub const MAX_OPERANDS: u16 = 32;

// No table has more records than its limit.
pub fn sizes_fit(sizes: Sizes) -> bool
    ensures { result ≡ sizes_fit sizes }
{
    sizes.names <= MAX_NAMES
        && sizes.values <= MAX_VALUES
        && sizes.functions <= MAX_FUNCTIONS
        && sizes.blocks <= MAX_BLOCKS
        && sizes.predecessors <= MAX_PREDECESSORS
        && sizes.phis <= MAX_PHIS
        && sizes.instructions <= MAX_INSTRUCTIONS
        && sizes.mentions <= MAX_MENTIONS
}

// The number behind the last record of a list.
pub fn end_of(list: Run) -> usize
    ensures { result ≡ end_of list }
{
    list.start as usize + list.count as usize
}

// A list ends inside a table of `size` records.
pub fn list_inside(size: usize, list: Run) -> bool
    ensures { result ≡ inside size list }
{
    end_of(list) <= size
}

pub fn value_fits(sizes: Sizes, value: Value) -> bool
    ensures { result ≡ value_fits sizes value }
{
    match value.name {
        IdentifierName::Unnamed => true,
        IdentifierName::Named(n) | IdentifierName::Promoted(n) => (n as usize) < sizes.names,
    }
}

pub fn function_fits(sizes: Sizes, function: Function) -> bool
    ensures { result ≡ function_fits sizes function }
{
    list_inside(sizes.mentions, function.params) && list_inside(sizes.blocks, function.blocks)
}

fn returned_fits(values: usize, returned: Option<u16>) -> bool
    ensures { result ≡ returned_fits values returned }
{
    returned.is_none_or(|v| (v as usize) < values)
}

pub fn block_fits(sizes: Sizes, block: Block) -> bool
    ensures { result ≡ block_fits sizes block }
{
    list_inside(sizes.predecessors, block.predecessors)
        && list_inside(sizes.phis, block.phis)
        && list_inside(sizes.instructions, block.instructions)
        && returned_fits(sizes.values, block.returned)
}

// How many places stand behind `places` of them and this mention.
pub fn places_after(places: u16, mention: Option<Mention>) -> u16
    requires { places < 65535 }
    ensures { result ≡ places_after places mention }
{
    match mention {
        Some(Mention::Place(_)) => places + 1,
        _ => 0,
    }
}

// Entry `n` of a table of numbers, and 0 past its end.
pub fn number_at(numbers: &[u16], n: usize) -> u16
    ensures { result ≡ slice_index numbers.now n }
{
    numbers.get(n).copied().unwrap_or(0)
}

// The sizes of the tables, and how many places stand right before each mention.
#[derive(Clone, Copy)]
pub struct Places<'a> {
    pub sizes: Sizes,
    pub before: &'a [u16],
}

impl<'a> Places<'a> {
    // The mentions of a list are places.
    fn only_places(&self, list: Run) -> bool
        ensures { result ≡ counted_places self.now.before.now list.start list.count }
    {
        list.count <= number_at(self.before, end_of(list))
    }

    // A list of operands: at most 32 places.
    pub fn operands_fit(&self, list: Run) -> bool
        ensures { result ≡ operands_fit (counted_places self.now.before.now) self.now.sizes.mentions list }
    {
        list_inside(self.sizes.mentions, list)
            && list.count <= MAX_OPERANDS
            && self.only_places(list)
    }

    // A list of lvalues: one at least.
    fn lvalues_fit(&self, list: Run) -> bool
        ensures { result ≡ lvalues_fit (counted_places self.now.before.now) self.now.sizes.mentions list }
    {
        0 < list.count && self.operands_fit(list)
    }

    // A subject is a place.
    fn subject_fits(&self, subject: u16) -> bool
        ensures { result ≡ subject_fits (counted_places self.now.before.now) self.now.sizes.mentions subject }
    {
        let list = Run {
            start: subject,
            count: 1,
        };
        (subject as usize) < self.sizes.mentions && self.only_places(list)
    }

    pub fn phi_fits(&self, phi: Phi) -> bool
        ensures { result ≡ phi_fits self.now.sizes (counted_places self.now.before.now) phi }
    {
        (phi.value as usize) < self.sizes.values && self.operands_fit(phi.operands)
    }

    fn kind_fits(&self, kind: InstructionValue) -> bool
        ensures { result ≡ kind_fits self.now.sizes (counted_places self.now.before.now) kind }
    {
        match kind {
            InstructionValue::Other | InstructionValue::LoadGlobal => true,
            InstructionValue::LoadLocal(place) => self.subject_fits(place),
            InstructionValue::FunctionExpression(f) => (f as usize) < self.sizes.functions,
            InstructionValue::CallExpression(subject, args)
            | InstructionValue::MethodCall(subject, args) => {
                self.subject_fits(subject) && list_inside(self.sizes.mentions, args)
            }
            InstructionValue::ArrayExpression(elements) => {
                list_inside(self.sizes.mentions, elements)
            }
        }
    }

    pub fn instruction_fits(&self, instruction: Instruction) -> bool
        ensures { result ≡ instruction_fits self.now.sizes (counted_places self.now.before.now) instruction }
    {
        self.lvalues_fit(instruction.lvalues)
            && self.operands_fit(instruction.operands)
            && self.kind_fits(instruction.value)
    }
}

pub fn mention_fits(sizes: Sizes, mention: Mention) -> bool
    ensures { result ≡ mention_fits sizes mention }
{
    match mention {
        Mention::Place(place) | Mention::Spread(place) => (place.value as usize) < sizes.values,
        Mention::Hole => true,
    }
}
