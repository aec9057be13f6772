// The words that stand for the cases of an enum. `word` gives the word itself, and cannot
// fail; `Display` prints it.
ghost use Rattle.std.specs.Prelude.{◌≡◌, Some};
ghost use Rattle.component.specs.Words.{kind_word, type_word, effect_word};

use crate::records::{Effect, ReactFunctionType, ValueType};
use std::fmt;

impl ReactFunctionType {
    pub fn word(self) -> &'static str
        ensures { result.now ≡ kind_word self }
    {
        match self {
            ReactFunctionType::Component => "component",
            ReactFunctionType::Hook => "hook",
            ReactFunctionType::Other => "other",
        }
    }
}

impl fmt::Display for ReactFunctionType {
    ghost output = { λ k. Some (kind_word k) };

    fn fmt<W: fmt::Write>(&self, f: &mut fmt::Formatter<W>) -> fmt::Result {
        f.write_str(ReactFunctionType::word(*self))
    }
}

impl ValueType {
    pub fn word(self) -> &'static str
        ensures { result.now ≡ type_word self }
    {
        match self {
            ValueType::Other => "other",
            ValueType::UseState => "use-state",
            ValueType::SetState => "set-state",
            ValueType::UseRef => "use-ref",
            ValueType::EffectHook => "effect-hook",
        }
    }
}

impl fmt::Display for ValueType {
    ghost output = { λ t. Some (type_word t) };

    fn fmt<W: fmt::Write>(&self, f: &mut fmt::Formatter<W>) -> fmt::Result {
        f.write_str(ValueType::word(*self))
    }
}

impl Effect {
    pub fn word(self) -> &'static str
        ensures { result.now ≡ effect_word self }
    {
        match self {
            Effect::Unknown => "unknown",
            Effect::Freeze => "freeze",
            Effect::Read => "read",
            Effect::Capture => "capture",
            Effect::ConditionallyMutateIterator => "mutate-iterator?",
            Effect::ConditionallyMutate => "mutate?",
            Effect::Mutate => "mutate",
            Effect::Store => "store",
        }
    }
}

impl fmt::Display for Effect {
    ghost output = { λ e. Some (effect_word e) };

    fn fmt<W: fmt::Write>(&self, f: &mut fmt::Formatter<W>) -> fmt::Result {
        f.write_str(Effect::word(*self))
    }
}
