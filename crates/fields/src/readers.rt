// Each record out of its part.
ghost use Rattle.std.specs.Prelude.{◌≡◌, ℕ, ◌<◌, List};
ghost use Rattle.component.specs.Codes.{number, name_code, instruction_code, return_code, span_code, mention_code};
ghost use Rattle.fields.specs.Fields.{le16, name_of};
ghost use Rattle.fields.specs.Records.{value_of, function_at, block_of, returned_of, predecessor_of, phi_of, instruction_value_of, instruction_of, span_of, place_of, mention_of};

use crate::{codes, read_run, read16, read32};
use component::records::{
    Block, Function, IdentifierName, Instruction, InstructionValue, Mention, MutableRange, Phi,
    Place, Predecessor, Span, Value,
};

// A record of the packed form, by what its bytes mean.
pub trait PackedRecord: Sized {
    ghost of: { List ℕ → Self };

    fn read(part: &[u8]) -> Self
        ensures { result ≡ of part.now };
}

// A value's form, with its name where the form has one. By the code itself, here and
// below: by an enum of forms a match over its cases would stay.
fn read_name(part: &[u8]) -> IdentifierName
    ensures value { result ≡ name_of (le16 part.now 2) (le16 part.now 4) }
    ensures coded { le16 part.now 2 < 3 → number (name_code result) ≡ le16 part.now 2 }
{
    match read16(part, 2) {
        0 => IdentifierName::Unnamed,
        1 => IdentifierName::Named(read16(part, 4)),
        _ => IdentifierName::Promoted(read16(part, 4)),
    }
}

impl PackedRecord for Value {
    ghost of = { value_of };

    fn read(part: &[u8]) -> Value {
        Value {
            name: read_name(part),
            kind: codes::value_type(read16(part, 6)),
            range: MutableRange {
                start: read32(part, 8),
                end: read32(part, 12),
            },
        }
    }
}

impl PackedRecord for Function {
    ghost of = { function_at };

    fn read(part: &[u8]) -> Function {
        Function {
            params: read_run(part, 2),
            blocks: read_run(part, 6),
        }
    }
}

// The value of an explicit return, where there is one.
fn read_returned(part: &[u8]) -> Option<u16>
    ensures value { result ≡ returned_of part.now }
    ensures coded { le16 part.now 16 < 2 → number (return_code result) ≡ le16 part.now 16 }
{
    (read16(part, 16) != 0).then(|| read16(part, 18))
}

impl PackedRecord for Block {
    ghost of = { block_of };

    fn read(part: &[u8]) -> Block {
        Block {
            id: read16(part, 2),
            predecessors: read_run(part, 4),
            phis: read_run(part, 8),
            instructions: read_run(part, 12),
            returned: read_returned(part),
        }
    }
}

impl PackedRecord for Predecessor {
    ghost of = { predecessor_of };

    fn read(part: &[u8]) -> Predecessor {
        let id = read16(part, 2);
        Predecessor { id }
    }
}

impl PackedRecord for Phi {
    ghost of = { phi_of };

    fn read(part: &[u8]) -> Phi {
        Phi {
            value: read16(part, 2),
            operands: read_run(part, 4),
        }
    }
}

// The kind of an instruction, with the fields that this kind has.
fn read_instruction_value(part: &[u8]) -> InstructionValue
    ensures value { result ≡ instruction_value_of part.now }
    ensures coded { le16 part.now 2 < 7 → number (instruction_code result) ≡ le16 part.now 2 }
{
    match read16(part, 2) {
        0 => InstructionValue::Other,
        1 => InstructionValue::LoadLocal(read16(part, 16)),
        2 => InstructionValue::FunctionExpression(read16(part, 22)),
        3 => InstructionValue::CallExpression(read16(part, 16), read_run(part, 18)),
        4 => InstructionValue::MethodCall(read16(part, 16), read_run(part, 18)),
        5 => InstructionValue::ArrayExpression(read_run(part, 18)),
        _ => InstructionValue::LoadGlobal,
    }
}

impl PackedRecord for Instruction {
    ghost of = { instruction_of };

    fn read(part: &[u8]) -> Instruction {
        Instruction {
            order: read32(part, 4),
            lvalues: read_run(part, 8),
            operands: read_run(part, 12),
            value: read_instruction_value(part),
        }
    }
}

fn read_span(part: &[u8]) -> Option<Span>
    ensures value { result ≡ span_of part.now }
    ensures coded { le16 part.now 8 < 2 → number (span_code result) ≡ le16 part.now 8 }
{
    (read16(part, 8) != 0).then(|| Span {
        start: read32(part, 10),
        end: read32(part, 14),
    })
}

fn read_place(part: &[u8]) -> Place
    ensures { result ≡ place_of part.now }
{
    Place {
        value: read16(part, 2),
        effect: codes::effect(read16(part, 6)),
        span: read_span(part),
    }
}

fn read_mention(part: &[u8]) -> Mention
    ensures value { result ≡ mention_of part.now }
    ensures coded { le16 part.now 4 < 3 → number (mention_code result) ≡ le16 part.now 4 }
{
    match read16(part, 4) {
        0 => Mention::Place(read_place(part)),
        1 => Mention::Spread(read_place(part)),
        _ => Mention::Hole,
    }
}

impl PackedRecord for Mention {
    ghost of = { mention_of };

    fn read(part: &[u8]) -> Mention {
        read_mention(part)
    }
}
