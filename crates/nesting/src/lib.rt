// How the functions of an admitted component are nested, and in which order
// its phis and instructions are met.
#![tactic(auto)]

ghost use Rattle.nesting.specs.Nesting.{NestingStands};
ghost use Rattle.nesting.specs.Order.{VisitingStands};

// What a walk comes to: a phi or an instruction, by its number.
#[derive(Clone, Copy)]
pub enum Step {
    Phi(u16),
    Instruction(u16),
}

// The law of nesting, of every admitted component.
pub fn nesting_stands()
    ensures { NestingStands }
{}

// The law of the order of steps, of every admitted component.
pub fn visiting_stands()
    ensures { VisitingStands }
{}
