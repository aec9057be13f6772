// Every question of a component once. What is answered goes into one sum, so that
// each field is read.
use component::Component;
use component::records::{
    Block, Function, IdentifierName, Instruction, InstructionValue, Mention, Phi, Place,
    Predecessor, Run, Value,
};

fn of_run(list: Run) -> u64 {
    list.start as u64 ^ (list.count as u64) << 16
}

fn of_value(value: Value) -> u64 {
    let name = match value.name {
        IdentifierName::Unnamed => 0,
        IdentifierName::Named(n) => 1 ^ (n as u64) << 2,
        IdentifierName::Promoted(n) => 2 ^ (n as u64) << 2,
    };
    name ^ (value.kind as u64) << 20 ^ value.range.start as u64 ^ (value.range.end as u64) << 32
}

fn of_function(function: Function) -> u64 {
    of_run(function.params) ^ of_run(function.blocks) << 32
}

fn of_block(block: Block) -> u64 {
    let returned = block.returned.map_or(0, |v| 1 ^ (v as u64) << 1);
    block.id as u64
        ^ returned
        ^ of_run(block.predecessors)
        ^ of_run(block.phis) << 8
        ^ of_run(block.instructions) << 16
}

fn of_predecessor(predecessor: Predecessor) -> u64 {
    predecessor.id as u64
}

fn of_phi(phi: Phi) -> u64 {
    phi.value as u64 ^ of_run(phi.operands) << 16
}

fn of_kind(kind: InstructionValue) -> u64 {
    match kind {
        InstructionValue::Other => 0,
        InstructionValue::LoadLocal(place) => 1 ^ (place as u64) << 3,
        InstructionValue::FunctionExpression(f) => 2 ^ (f as u64) << 3,
        InstructionValue::CallExpression(callee, args) => 3 ^ (callee as u64) << 3 ^ of_run(args),
        InstructionValue::MethodCall(property, args) => {
            4 ^ (property as u64) << 3 ^ of_run(args)
        }
        InstructionValue::ArrayExpression(elements) => 5 ^ of_run(elements) << 3,
        InstructionValue::LoadGlobal => 6,
    }
}

fn of_instruction(instruction: Instruction) -> u64 {
    instruction.order as u64
        ^ of_run(instruction.lvalues)
        ^ of_run(instruction.operands) << 16
        ^ of_kind(instruction.value) << 4
}

fn of_place(place: Place) -> u64 {
    let span = place
        .span
        .map_or(0, |span| span.start as u64 ^ (span.end as u64) << 32);
    place.value as u64 ^ (place.effect as u64) << 16 ^ span
}

fn of_mention(mention: Mention) -> u64 {
    match mention {
        Mention::Place(place) => of_place(place),
        Mention::Spread(place) => 1 ^ of_place(place) << 1,
        Mention::Hole => 2,
    }
}

// The sum of what the answers to a question about each number below `size` come
// to. A fold, since `filter_map` takes a third as long again.
fn ask<C: Component, R, Q: Fn(&C, usize) -> Option<R>, D: Fn(R) -> u64>(
    component: &C,
    size: usize,
    question: Q,
    digest: D,
) -> u64
    requires question { Q.IsAlwaysCallable question }
    requires digest { D.IsAlwaysCallable digest }
{
    (0..size).fold(0u64, |sum, n| match question(component, n) {
        Some(answer) => sum.wrapping_add(digest(answer)),
        None => sum,
    })
}

// The sum of a name's bytes, if there is such a name.
fn ask_name<C: Component>(component: &C, n: usize) -> Option<u64> {
    let length = component.name_length(n)?;
    let byte = |component: &C, i| component.name_byte(n, i);
    Some(ask(component, length, byte, u64::from))
}

pub fn ask_all<C: Component>(component: &C) -> u64 {
    let sizes = component.sizes();
    ask(component, sizes.names, ask_name, |sum| sum)
        .wrapping_add(ask(component, sizes.values, C::value, of_value))
        .wrapping_add(ask(component, sizes.functions, C::function, of_function))
        .wrapping_add(ask(component, sizes.blocks, C::block, of_block))
        .wrapping_add(ask(
            component,
            sizes.predecessors,
            C::predecessor,
            of_predecessor,
        ))
        .wrapping_add(ask(component, sizes.phis, C::phi, of_phi))
        .wrapping_add(ask(
            component,
            sizes.instructions,
            C::instruction,
            of_instruction,
        ))
        .wrapping_add(ask(component, sizes.mentions, C::mention, of_mention))
}
