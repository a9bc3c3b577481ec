//! The machine: one or several harts over one memory, a step of one of them at a time, and changes of
//! data bytes from outside. The words of code are decoded once, when the machine is made. A processor
//! has one hart alone; its `execute` runs a single instruction that need not stand in memory.
#![tactic(auto)]

pub use arithmetic::branches;
pub use machine::Machine;
pub use processor::Processor;
pub use ready::Ready;
pub use rv_code::Turn;
pub use rv_mem::Change;

mod arithmetic;
mod code;
mod hart;
mod machine;
mod processor;
mod ready;
