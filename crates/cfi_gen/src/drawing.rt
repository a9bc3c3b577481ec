ghost use Rattle.std.specs.Prelude.{◌≡◌, ◌<◌, ◌≤◌, ◌/◌, ◌^◌, IfOk};
ghost use Rattle.cfi_gen.specs.Drawing.{drawn, function_at, functions_from, next, shape_of};

use crate::function::{Function, Shape};
use rv_instr::Immediate;
use std::alloc::{AllocError, Global};

/// A linear congruential generator.
#[derive(Clone, Copy)]
struct Generator {
    state: u32,
}

impl Generator {
    /// Draws a number below 2^15.
    #[tactic(auto, unfolding(crate::specs::Drawing::next))]
    fn draw(&mut self) -> u32
        ensures value { result ≡ drawn self.old.state }
        ensures state { self.new.state ≡ next self.old.state }
    {
        let sum = 1103515245 * u64::from(self.state) + 12345;
        self.state = (sum % (1 << 31)) as u32;
        self.state / 65536
    }
}

/// The shape of a function for a drawn number below 4, where it would call the function `other`. Functions
/// call only within their block of fifty.
#[tactic(auto, unfolding(crate::specs::Drawing::shape_of))]
fn shape_of(number: u16, kind: u32, other: u16) -> Shape
    ensures { result ≡ shape_of number kind other }
{
    let is_near = number / 50 == other / 50;
    match kind {
        3 => Shape::Skip,
        1 if is_near => Shape::Call(other),
        2 if is_near => Shape::Table(other),
        _ => Shape::Leaf,
    }
}

/// The function with a number, drawn.
#[tactic(auto, unfolding(crate::specs::Drawing::function_at))]
fn draw_function(generator: &mut Generator, number: u16) -> Function
    requires { number < 2 ^ 15 }
    ensures value { result ≡ function_at number generator.old.state }
    ensures state { generator.new.state ≡ next (next (next generator.old.state)) }
{
    let amount = generator.draw() % 2048;
    let kind = generator.draw() % 4;
    let other = number + 1 + (generator.draw() % 8) as u16;
    Function {
        amount: Immediate::of(amount),
        shape: shape_of(number, kind, other),
    }
}

/// The functions that are drawn from a number.
pub(crate) fn draw_functions(
    alloc: Global,
    count: u16,
    number: u32,
) -> Result<Vec<Function>, AllocError>
    requires { count < 2 ^ 15 }
    ensures { IfOk result (λ functions. functions.items ≡ functions_from count 0 number) }
{
    let mut functions = Vec::new(alloc);
    let mut generator = Generator { state: number };
    for i in 0..count {
        functions.push(draw_function(&mut generator, i))?;
    }
    Ok(functions)
}
