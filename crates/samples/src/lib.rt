// Panels of any size up to the largest that is admitted, for measurements.
#![tactic(auto)]

ghost use Rattle.std.specs.Prelude.{◌<◌, ◌≤◌};

use assemble::builder::PanelBuilder;
use assemble::codes::{Effect, InstructionKind, MentionForm, NameForm, ValueType};
use assemble::error::BuildError;
use assemble::records::{
    BlockRecord, FunctionRecord, InstructionRecord, MentionRecord, PhiRecord, PredecessorRecord,
    Range, Record, Run, ValueRecord,
};
use std::alloc::Global;

// As many names as the largest panel has.
pub const LARGEST: u16 = 2048;

// The types of values, in turn.
const TYPES: [ValueType; 5] = [
    ValueType::Other,
    ValueType::UseState,
    ValueType::SetState,
    ValueType::UseRef,
    ValueType::EffectHook,
];

// The effects of operands, in turn.
const EFFECTS: [Effect; 7] = [
    Effect::Freeze,
    Effect::Read,
    Effect::Capture,
    Effect::MutateIteratorConditionally,
    Effect::MutateConditionally,
    Effect::Mutate,
    Effect::Store,
];

// Each value has a name of its own. The first five of sixteen have the types in
// turn.
fn value_of(k: u16) -> ValueRecord {
    let form = if k % 2 == 0 {
        NameForm::Named
    } else {
        NameForm::Promoted
    };
    let kind = TYPES.get(k as usize % 16).copied();
    ValueRecord {
        form: form as u16,
        name: k,
        kind: kind.unwrap_or(ValueType::Other) as u16,
        range: Range {
            start: k as u32,
            end: 2 * k as u32,
        },
    }
}

// Function `f` has eight blocks.
fn function_of(f: u16) -> FunctionRecord
    requires { f < 256 }
{
    FunctionRecord {
        params: Run { start: f, count: 1 },
        blocks: Run {
            start: 8 * f,
            count: 8,
        },
    }
}

// Block `b` has two predecessors, a phi and four instructions.
fn block_of(b: u16) -> BlockRecord
    requires { b < 2048 }
{
    BlockRecord {
        id: b % 8,
        predecessors: Run {
            start: 2 * b,
            count: 2,
        },
        phis: Run { start: b, count: 1 },
        instructions: Run {
            start: 4 * b,
            count: 4,
        },
        returns: (b % 8 == 7) as u16,
        value: b,
    }
}

// The kind of instruction `i`: the last of each function but the last function
// is an expression of the next function, the others go in turn.
fn kind_of(i: u16, instructions: u16) -> InstructionKind {
    if i % 32 == 31 && i < instructions.saturating_sub(1) {
        return InstructionKind::Function;
    }
    match i % 8 {
        1 => InstructionKind::LoadLocal,
        2 => InstructionKind::Call,
        3 => InstructionKind::MethodCall,
        4 => InstructionKind::Array,
        5 => InstructionKind::LoadGlobal,
        _ => InstructionKind::Other,
    }
}

// Instruction `i` has four mentions: its lvalue and three operands.
fn instruction_of(i: u16, instructions: u16) -> InstructionRecord
    requires { i < 8192 }
{
    InstructionRecord {
        kind: kind_of(i, instructions).into(),
        order: i as u32,
        lvalues: Run {
            start: 4 * i,
            count: 1,
        },
        operands: Run {
            start: 4 * i + 1,
            count: 3,
        },
        subject: 4 * i + 1,
        arguments: Run {
            start: 4 * i + 2,
            count: 2,
        },
        function: i / 32 + 1,
    }
}

// Every fourth mention is an lvalue.
fn mention_of(m: u16, values: u16) -> MentionRecord
    requires { 0 < values }
{
    let effect = if m % 4 == 0 {
        Effect::Store
    } else {
        EFFECTS[m as usize % 7]
    };
    MentionRecord {
        value: (m / 4 + 5 * (m % 4)) % values,
        form: MentionForm::Place as u16,
        effect: effect as u16,
        spanned: (m % 3 != 0) as u16,
        span: Range {
            start: m as u32,
            end: m as u32 + 8,
        },
    }
}

// Names of 31 bytes that differ in their last four.
fn add_values(heap: Global, panel: &mut PanelBuilder, n: u16) -> Result<(), BuildError> {
    for k in 0..n {
        let name = format!(in heap; "observatory_gas_panel_value{k:04}")?;
        panel.add_name(name.as_bytes())?;
        panel.add(&Record::Value(value_of(k)))?;
    }
    Ok(())
}

// `panel` and `n` stay two parameters: a struct of both would be made for three calls.
fn add_blocks(panel: &mut PanelBuilder, n: u16) -> Result<(), BuildError>
    requires { n ≤ 2048 }
{
    for f in 0..n / 8 {
        panel.add(&Record::Function(function_of(f)))?;
    }
    for b in 0..n {
        panel.add(&Record::Block(block_of(b)))?;
        panel.add(&Record::Predecessor(PredecessorRecord { id: b % 8 }))?;
        panel.add(&Record::Predecessor(PredecessorRecord { id: (b + 1) % 8 }))?;
        panel.add(&Record::Phi(PhiRecord {
            value: b,
            operands: Run {
                start: 16 * b,
                count: 2,
            },
        }))?;
    }
    Ok(())
}

fn add_instructions(panel: &mut PanelBuilder, n: u16) -> Result<(), BuildError>
    requires { n ≤ 2048 }
{
    for i in 0..4 * n {
        panel.add(&Record::Instruction(instruction_of(i, 4 * n)))?;
    }
    for m in 0..16 * n {
        panel.add(&Record::Mention(mention_of(m, n)))?;
    }
    Ok(())
}

// The packed file of a panel with `n` names and values, one function to eight
// of them, and of each other table what the largest panel has to each name. It
// is a multiple of eight, and at most the largest.
pub fn panel_of(heap: Global, n: u16) -> Result<Vec<u8>, BuildError> {
    let n = n.min(LARGEST) / 8 * 8;
    let mut panel = PanelBuilder::new(heap);
    add_values(heap, &mut panel, n)?;
    add_blocks(&mut panel, n)?;
    add_instructions(&mut panel, n)?;
    panel.finish(heap)
}
