// One reading of a component's tables against the rules of its records.
#![tactic(auto)]

ghost use Rattle.std.specs.Prelude.{◌≡◌};
ghost use Rattle.component.specs.Meaning.{sizes_of};

use component::Component;
use component::records::Sizes;
use std::marker::Model;

pub mod mentions;
pub mod numbers;
pub mod order;

// A component and the sizes of its tables, asked once.
#[derive(Drop)]
pub struct Inspection<'a, C: Component> {
    component: &'a C,
    sizes: Sizes,
}

impl<'a, C: Component> Model for Inspection<'a, C> {
    ghost use Rattle.std.specs.Prelude.{◌≡◌};
    ghost use Rattle.component.specs.Meaning.{Meaning, sizes_of};

    ghost Value = { Meaning };

    ghost view = { λ i. C.meaning i.component.now };

    ghost invariant = { λ i. i.sizes ≡ sizes_of (C.meaning i.component.now) };
}

impl<'a, C: Component> Inspection<'a, C> {
    pub fn new(component: &'a C) -> Self
        ensures { result ≡ C.meaning component.now }
    {
        Inspection {
            component,
            sizes: component.sizes(),
        }
    }

    pub fn component(&self) -> &'a C
        ensures { C.meaning result.now ≡ self.now }
    {
        self.component
    }

    pub fn sizes(&self) -> Sizes
        ensures { result ≡ sizes_of self.now }
    {
        self.sizes
    }
}
