// The records of a component's eight tables. Each case of an enum holds what
// that case uses and nothing else, so two records mean the same exactly when
// they are equal.
//
// A `u16` field is the number of a record in the table that its comment names.

// What function 0 is.
#[derive(Clone, Copy, PartialEq, Eq, Debug)]
pub enum ReactFunctionType {
    Component,
    Hook,
    Other,
}

// A list: `count` records of a table, from number `start` on.
#[derive(Clone, Copy, PartialEq, Eq, Debug)]
pub struct Run {
    pub start: u16,
    pub count: u16,
}

// A value's form, with the name that a form other than none has.
#[derive(Clone, Copy, PartialEq, Eq, Debug)]
pub enum IdentifierName {
    Unnamed,
    Named(u16),
    Promoted(u16),
}

#[derive(Clone, Copy, PartialEq, Eq, Debug)]
pub enum ValueType {
    Other,
    UseState,
    SetState,
    UseRef,
    EffectHook,
}

// The evaluation orders at which a value may be mutated: `start` is inside,
// `end` is not. Not one type with `Span`: they mean different things, and the Rust that
// is ported has both.
#[derive(Clone, Copy, PartialEq, Eq, Debug)]
pub struct MutableRange {
    pub start: u32,
    pub end: u32,
}

#[derive(Clone, Copy, PartialEq, Eq, Debug)]
pub struct Value {
    pub name: IdentifierName,
    pub kind: ValueType,
    pub range: MutableRange,
}

// A function: its parameters are mentions.
#[derive(Clone, Copy, PartialEq, Eq, Debug)]
pub struct Function {
    pub params: Run,
    pub blocks: Run,
}

// A basic block. `returned` is the value of an explicit return.
#[derive(Clone, Copy, PartialEq, Eq, Debug)]
pub struct Block {
    pub id: u16,
    pub predecessors: Run,
    pub phis: Run,
    pub instructions: Run,
    pub returned: Option<u16>,
}

// The id of a block from which control may come.
#[derive(Clone, Copy, PartialEq, Eq, Debug)]
pub struct Predecessor {
    pub id: u16,
}

// A phi writes `value`; its operands are mentions.
#[derive(Clone, Copy, PartialEq, Eq, Debug)]
pub struct Phi {
    pub value: u16,
    pub operands: Run,
}

// What an instruction does. A place, callee or property is a mention, and so
// are arguments and elements.
#[derive(Clone, Copy, PartialEq, Eq, Debug)]
pub enum InstructionValue {
    Other,
    LoadLocal(u16),
    FunctionExpression(u16),
    CallExpression(u16, Run),
    MethodCall(u16, Run),
    ArrayExpression(Run),
    LoadGlobal,
}

// An instruction at an evaluation order: lvalues, its own first, and operands
// are mentions.
#[derive(Clone, Copy, PartialEq, Eq, Debug)]
pub struct Instruction {
    pub order: u32,
    pub lvalues: Run,
    pub operands: Run,
    pub value: InstructionValue,
}

#[derive(Clone, Copy, PartialEq, Eq, Debug)]
pub enum Effect {
    Unknown,
    Freeze,
    Read,
    Capture,
    ConditionallyMutateIterator,
    ConditionallyMutate,
    Mutate,
    Store,
}

// A place in the source text that the panel was made from.
#[derive(Clone, Copy, PartialEq, Eq, Debug)]
pub struct Span {
    pub start: u32,
    pub end: u32,
}

// A value where it is mentioned.
#[derive(Clone, Copy, PartialEq, Eq, Debug)]
pub struct Place {
    pub value: u16,
    pub effect: Effect,
    pub span: Option<Span>,
}

// An entry of a list of parameters, operands, lvalues, arguments or elements.
#[derive(Clone, Copy, PartialEq, Eq, Debug)]
pub enum Mention {
    Place(Place),
    Spread(Place),
    Hole,
}

// How many records each table has.
#[derive(Clone, Copy, PartialEq, Eq, Debug)]
pub struct Sizes {
    pub names: usize,
    pub values: usize,
    pub functions: usize,
    pub blocks: usize,
    pub predecessors: usize,
    pub phis: usize,
    pub instructions: usize,
    pub mentions: usize,
}
