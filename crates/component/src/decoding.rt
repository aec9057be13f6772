// Enums out of their codes.
ghost use Rattle.component.specs.Codes.{IsFunctionCoded, IsTypeCoded, IsEffectCoded};

use crate::records::{Effect, ReactFunctionType, ValueType};

// A number that is the code of no case.
#[derive(Clone, Copy, PartialEq, Eq, Debug)]
pub struct UnknownCode(pub u16);

impl TryFrom<u16> for ReactFunctionType {
    type Error = UnknownCode;

    ghost try_from_gives = { IsFunctionCoded };

    fn try_from(code: u16) -> Result<ReactFunctionType, UnknownCode> {
        match code {
            0 => Ok(ReactFunctionType::Component),
            1 => Ok(ReactFunctionType::Hook),
            2 => Ok(ReactFunctionType::Other),
            _ => Err(UnknownCode(code)),
        }
    }
}

impl TryFrom<u16> for ValueType {
    type Error = UnknownCode;

    ghost try_from_gives = { IsTypeCoded };

    fn try_from(code: u16) -> Result<ValueType, UnknownCode> {
        match code {
            0 => Ok(ValueType::Other),
            1 => Ok(ValueType::UseState),
            2 => Ok(ValueType::SetState),
            3 => Ok(ValueType::UseRef),
            4 => Ok(ValueType::EffectHook),
            _ => Err(UnknownCode(code)),
        }
    }
}

impl TryFrom<u16> for Effect {
    type Error = UnknownCode;

    ghost try_from_gives = { IsEffectCoded };

    fn try_from(code: u16) -> Result<Effect, UnknownCode> {
        match code {
            0 => Ok(Effect::Unknown),
            1 => Ok(Effect::Freeze),
            2 => Ok(Effect::Read),
            3 => Ok(Effect::Capture),
            4 => Ok(Effect::ConditionallyMutateIterator),
            5 => Ok(Effect::ConditionallyMutate),
            6 => Ok(Effect::Mutate),
            7 => Ok(Effect::Store),
            _ => Err(UnknownCode(code)),
        }
    }
}
