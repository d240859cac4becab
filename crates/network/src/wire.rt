use form::Form;

// A gate over earlier wires, which are named by their numbers, as callers and texts name them.
#[derive(Clone, Copy, Debug, PartialEq, Eq)]
pub enum Gate {
    Xor(u16, u16),
    And(u16, u16),
    Inv(u16),
}

// How a wire comes to be.
#[derive(Clone, Copy, Debug, PartialEq, Eq)]
pub enum Step {
    Input,
    Gate(Gate),
}

// A wire: its step, and the linear form that has its value.
#[derive(Drop)]
pub struct Wire {
    pub step: Step,
    pub form: Form,
}

// An AND node: the forms of its two operands.
#[derive(Drop)]
pub struct Node {
    pub first: Form,
    pub second: Form,
}
