// The enums out of their codes, whatever the number. Opening a file refuses a code
// past the last one; where none was refused, a code past the last reads as the last.
ghost use Rattle.std.specs.Prelude.{◌≡◌, ◌<◌};
ghost use Rattle.component.specs.Codes.{function_code, type_code, effect_code};
ghost use Rattle.fields.specs.Fields.{function_of, type_of, effect_of};

use component::records::{Effect, ReactFunctionType, ValueType};

pub fn function_type(code: u16) -> ReactFunctionType
    ensures value { result ≡ function_of code }
    ensures coded { code < 3 → function_code result ≡ code }
{
    ReactFunctionType::try_from(code).unwrap_or(ReactFunctionType::Other)
}

pub fn value_type(code: u16) -> ValueType
    ensures value { result ≡ type_of code }
    ensures coded { code < 5 → type_code result ≡ code }
{
    ValueType::try_from(code).unwrap_or(ValueType::EffectHook)
}

pub fn effect(code: u16) -> Effect
    ensures value { result ≡ effect_of code }
    ensures coded { code < 8 → effect_code result ≡ code }
{
    Effect::try_from(code).unwrap_or(Effect::Store)
}
