// Records, each as a line.
use crate::page::Page;
use component::Component;
use component::records::{
    Block, IdentifierName, Instruction, InstructionValue, Phi, Run, Sizes, Value,
};

impl<'a, C: Component> Page<'a, C> {
    pub fn push_sizes(&mut self, sizes: Sizes) {
        let tables = [
            ("names", sizes.names),
            ("values", sizes.values),
            ("functions", sizes.functions),
            ("blocks", sizes.blocks),
            ("predecessors", sizes.predecessors),
            ("phis", sizes.phis),
            ("instructions", sizes.instructions),
            ("mentions", sizes.mentions),
        ];
        self.push_str("sizes");
        for (table, size) in tables {
            self.push(format_args!("  {table} {size}"));
        }
        self.push_str("\n");
    }

    pub fn push_value_line(&mut self, n: usize, value: Value) {
        self.push(format_args!("value {n}"));
        self.push_identifier(value.name);
        if let IdentifierName::Promoted(_) = value.name {
            self.push_str(" (promoted)");
        }
        let (word, range) = (value.kind.word(), value.range);
        self.push(format_args!(": {word}, range {}..{}\n", range.start, range.end));
    }

    pub fn push_function_start(&mut self, n: usize, params: Run) {
        self.push(format_args!("function {n} ("));
        self.push_mentions(params);
        self.push_str(")");
    }

    pub fn push_block_start(&mut self, n: usize, block: Block) {
        self.push(format_args!("  block {n}, id {}, from [", block.id));
        self.push_predecessors(block.predecessors);
        self.push_str("]");
        if let Some(value) = block.returned {
            self.push_str(", returns ");
            self.push_value(value);
        }
    }

    // A list that is not expanded.
    pub fn push_not_in_sequence(&mut self, table: &str, list: Run) {
        let (start, count) = (list.start, list.count);
        self.push(format_args!(", {table} {start}+{count} (not in sequence)"));
    }

    pub fn push_phi(&mut self, n: usize, phi: Phi) {
        // By its pieces: a line of a phi is so short that a format string is felt.
        self.push_str("    phi ");
        self.push_number(n);
        self.push_str(": ");
        self.push_value(phi.value);
        self.push_str(" = phi [");
        self.push_mentions(phi.operands);
        self.push_str("]\n");
    }

    pub fn push_instruction(&mut self, n: usize, instruction: Instruction) {
        let order = instruction.order;
        self.push(format_args!("    instruction {n}, order {order}: ["));
        self.push_mentions(instruction.lvalues);
        self.push_str("] = ");
        self.push_instruction_value(instruction.value);
        self.push_str(", operands [");
        self.push_mentions(instruction.operands);
        self.push_str("]\n");
    }

    fn push_instruction_value(&mut self, value: InstructionValue) {
        match value {
            InstructionValue::Other => self.push_str("other"),
            InstructionValue::LoadGlobal => self.push_str("load-global"),
            InstructionValue::LoadLocal(place) => {
                self.push_str("load-local ");
                self.push_mention(usize::from(place));
            }
            InstructionValue::FunctionExpression(n) => self.push_function_number(usize::from(n)),
            InstructionValue::CallExpression(callee, arguments) => {
                self.push_call("call", callee, arguments);
            }
            InstructionValue::MethodCall(property, arguments) => {
                self.push_call("method-call", property, arguments);
            }
            InstructionValue::ArrayExpression(elements) => {
                self.push_str("array [");
                self.push_mentions(elements);
                self.push_str("]");
            }
        }
    }

    fn push_function_number(&mut self, n: usize) {
        self.push_str("function ");
        match self.component.function(n) {
            Some(_) => self.push_number(n),
            None => self.push_unknown(n),
        }
    }

    fn push_call(&mut self, word: &str, callee: u16, arguments: Run) {
        self.push_str(word);
        self.push_str(" ");
        self.push_mention(usize::from(callee));
        self.push_str(" (");
        self.push_mentions(arguments);
        self.push_str(")");
    }
}
