// The codes of a packed file that have a meaning. A field is a plain number all
// the same, since a file may have any number there. These enums are the builder's own,
// since it shares nothing with the reader that it tests; only a kind of instruction is
// read back from its code, so the others are written by `as u16` alone.
ghost use Rattle.std.specs.Prelude.{◌≡◌};
ghost use Rattle.assemble.specs.Codes.{Decodes, kind_code};

// What the panel's function 0 is.
#[derive(Clone, Copy)]
pub enum PanelKind {
    Component,
    Hook,
    Other,
}

// What a value is called.
#[derive(Clone, Copy)]
pub enum NameForm {
    Unnamed,
    Named,
    Promoted,
}

// What a value's type is.
#[derive(Clone, Copy)]
pub enum ValueType {
    Other,
    UseState,
    SetState,
    UseRef,
    EffectHook,
}

// What an instruction does.
#[derive(Clone, Copy)]
pub enum InstructionKind {
    Other,
    LoadLocal,
    Function,
    Call,
    MethodCall,
    Array,
    LoadGlobal,
}

// What a mention is.
#[derive(Clone, Copy)]
pub enum MentionForm {
    Place,
    Spread,
    Hole,
}

// What a mention does to its value.
#[derive(Clone, Copy)]
pub enum Effect {
    Unknown,
    Freeze,
    Read,
    Capture,
    MutateIteratorConditionally,
    MutateConditionally,
    Mutate,
    Store,
}

// A number that is no instruction's code.
#[derive(Clone, Copy, Debug)]
pub struct UnknownKind(pub u16);

impl From<InstructionKind> for u16 {
    ghost from_gives = { λ kind code. code ≡ kind_code kind };

    fn from(kind: InstructionKind) -> u16 {
        kind as u16
    }
}

impl TryFrom<u16> for InstructionKind {
    type Error = UnknownKind;

    ghost try_from_gives = { Decodes };

    fn try_from(code: u16) -> Result<InstructionKind, UnknownKind> {
        match code {
            0 => Ok(InstructionKind::Other),
            1 => Ok(InstructionKind::LoadLocal),
            2 => Ok(InstructionKind::Function),
            3 => Ok(InstructionKind::Call),
            4 => Ok(InstructionKind::MethodCall),
            5 => Ok(InstructionKind::Array),
            6 => Ok(InstructionKind::LoadGlobal),
            _ => Err(UnknownKind(code)),
        }
    }
}
