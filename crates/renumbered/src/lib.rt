// A component with its values renumbered: a layer over another component.
#![tactic(auto)]

ghost use Rattle.std.specs.Prelude.{◌≡◌, ◌<◌, length, MatchResult, slice_index_or};
ghost use Rattle.std.specs.Result.{result_err};
ghost use Rattle.component.specs.Exchange.{exchange, place_to, mention_to, block_to, phi_to};
ghost use Rattle.renumbered.specs.Numbering.{number_in};
ghost use Rattle.renumbered.specs.Layer.{blank, value_at, layered, number_fault, exchange_fault};
ghost use Rattle.renumbered.specs.Laws.{TwiceIsNone, ExchangesPermute};

pub mod numbers;

use component::Component;
use component::fault::{Fault, Reason};
use component::records::{
    Block, Function, IdentifierName, Instruction, Mention, MutableRange, Phi, Place, Predecessor,
    ReactFunctionType, Sizes, Value, ValueType,
};
use numbers::{Numbers, TABLE_SIZE};

// Records by the numbers that their values have now.
impl Numbers {
    fn place(&self, place: Place) -> Place
        ensures { result ≡ place_to (number_in self.now.numbers) place }
    {
        Place {
            value: self.number_of(place.value),
            ..place
        }
    }

    fn mention(&self, mention: Mention) -> Mention
        ensures { result ≡ mention_to (number_in self.now.numbers) mention }
    {
        match mention {
            Mention::Place(place) => Mention::Place(self.place(place)),
            Mention::Spread(place) => Mention::Spread(self.place(place)),
            Mention::Hole => Mention::Hole,
        }
    }

    fn phi(&self, phi: Phi) -> Phi
        ensures { result ≡ phi_to (number_in self.now.numbers) phi }
    {
        Phi {
            value: self.number_of(phi.value),
            ..phi
        }
    }

    fn block(&self, block: Block) -> Block
        ensures { result ≡ block_to (number_in self.now.numbers) block }
    {
        Block {
            returned: block.returned.map(|value| self.number_of(value)),
            ..block
        }
    }
}

// What a value past the end of its table would be.
const BLANK: Value = Value {
    name: IdentifierName::Unnamed,
    kind: ValueType::Other,
    range: MutableRange { start: 0, end: 0 },
};

// Value `n` of a component, or a blank one past the end.
fn value_or_blank<C: Component>(inner: &C, n: usize) -> Value
    ensures { result ≡ slice_index_or (C.Component.meaning inner.now).values n blank }
{
    inner.value(n).unwrap_or(BLANK)
}

// The value that has the number `n` now.
fn value_of_number<C: Component>(inner: &C, numbers: &Numbers, n: usize) -> Value
    ensures { result ≡ value_at numbers.now.origins (C.Component.meaning inner.now).values n }
{
    value_or_blank(inner, numbers.origin_of(n))
}

// Refuses `a` where it is past the tables, or no number of `count` values.
fn check_number(count: usize, a: usize) -> Result<(), Fault>
    ensures { result_err result ≡ number_fault count a }
{
    Reason::RecordNumber.unless(a < TABLE_SIZE && a < count, a)
}

// What holds of exchanges in every component; nothing comes of it but these
// laws.
fn exchange_laws()
    ensures twice { TwiceIsNone }
    ensures permute { ExchangesPermute }
{}

// A component whose values have the numbers that `numbers` gives them.
#[derive(Drop)]
pub struct Renumbered<C> {
    inner: C,
    numbers: Numbers,
}

impl<C: Component> Renumbered<C> {
    // A layer that means what the component below means.
    pub fn new(inner: C) -> Renumbered<C>
        ensures inner { result.inner ≡ inner }
        ensures meaning { layered result.numbers (C.Component.meaning result.inner) ≡ C.Component.meaning inner }
    {
        Renumbered {
            inner,
            numbers: Numbers::new(),
        }
    }

    // Exchanges the numbers `a` and `b` of two values. They stay two parameters: a
    // pair would be made at each call, and its facts name each of the two.
    fn exchange_values(&mut self, a: usize, b: usize)
        requires first { a < 2048 }
        requires second { b < 2048 }
        requires first_value { a < length (C.Component.meaning self.old.inner).values }
        requires second_value { b < length (C.Component.meaning self.old.inner).values }
        ensures inner { self.new.inner ≡ self.old.inner }
        ensures meaning { layered self.new.numbers (C.Component.meaning self.new.inner) ≡ exchange a b (layered self.old.numbers (C.Component.meaning self.old.inner)) }
    {
        self.numbers.exchange(a as u16, b as u16);
    }

    // Exchanges the numbers `a` and `b` of two values, or refuses the first of
    // them that is no value's number.
    pub fn exchange(&mut self, a: usize, b: usize) -> Result<(), Fault>
        ensures judged { result_err result ≡ exchange_fault (length (C.Component.meaning self.old.inner).values) a b }
        ensures inner { self.new.inner ≡ self.old.inner }
        ensures meaning { MatchResult result (λ _. layered self.new.numbers (C.Component.meaning self.new.inner) ≡ exchange a b (layered self.old.numbers (C.Component.meaning self.old.inner))) (λ _. self.new ≡ self.old) }
        ensures twice { TwiceIsNone }
        ensures permute { ExchangesPermute }
    {
        exchange_laws();
        let count = self.inner.sizes().values;
        check_number(count, a)?;
        check_number(count, b)?;
        self.exchange_values(a, b);
        Ok(())
    }

    // The component below.
    pub fn into_inner(self) -> C
        ensures { result ≡ self.inner }
    {
        let Renumbered { inner, numbers: _ } = self;
        inner
    }
}

impl<C: Component> Component for Renumbered<C> {
    ghost meaning = { λ s. layered s.numbers (C.Component.meaning s.inner) };

    fn kind(&self) -> ReactFunctionType {
        self.inner.kind()
    }

    fn sizes(&self) -> Sizes {
        self.inner.sizes()
    }

    fn name_length(&self, n: usize) -> Option<usize> {
        self.inner.name_length(n)
    }

    fn name_byte(&self, n: usize, i: usize) -> Option<u8> {
        self.inner.name_byte(n, i)
    }

    fn value(&self, n: usize) -> Option<Value> {
        // By `then` and a closure this was tried, and its proof stayed open.
        if n < self.inner.sizes().values {
            Some(value_of_number(&self.inner, &self.numbers, n))
        } else {
            None
        }
    }

    fn function(&self, n: usize) -> Option<Function> {
        self.inner.function(n)
    }

    fn block(&self, n: usize) -> Option<Block> {
        Some(self.numbers.block(self.inner.block(n)?))
    }

    fn predecessor(&self, n: usize) -> Option<Predecessor> {
        self.inner.predecessor(n)
    }

    fn phi(&self, n: usize) -> Option<Phi> {
        Some(self.numbers.phi(self.inner.phi(n)?))
    }

    fn instruction(&self, n: usize) -> Option<Instruction> {
        self.inner.instruction(n)
    }

    fn mention(&self, n: usize) -> Option<Mention> {
        Some(self.numbers.mention(self.inner.mention(n)?))
    }
}
