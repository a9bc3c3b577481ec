ghost use Rattle.std.specs.Prelude.{◌≡◌, ◌≤◌};
ghost use Rattle.cfi_gen.specs.Lines.{code_size};
ghost use Rattle.cfi_gen.specs.Code.{function_lines};

use rv_instr::Immediate;

/// A function of the program: what it adds to its argument, and what it does then.
#[derive(Clone, Copy)]
pub struct Function {
    pub amount: Immediate<12>,
    pub shape: Shape,
}

/// What a function does between its sum and its return.
#[derive(Clone, Copy)]
pub enum Shape {
    /// Nothing.
    Leaf,
    /// It calls the function with this number.
    Call(u16),
    /// It calls the function with this number by its address, which it reads from the table.
    Table(u16),
    /// It adds 1 where its sum is 0.
    Skip,
}

impl Function {
    /// How many bytes its code has.
    #[tactic(auto, unfolding(crate::specs::Code::function_lines, crate::specs::Code::opening_lines, crate::specs::Code::shape_lines, crate::specs::Code::closing_lines))]
    pub(crate) fn size(&self) -> u64
        ensures value { result ≡ code_size (function_lines self.now) }
        ensures small { result ≤ 36 }
    {
        match self.shape {
            Shape::Leaf => 24,
            Shape::Call(_) | Shape::Skip => 32,
            Shape::Table(_) => 36,
        }
    }
}
