//! The code of `main` and of each shape of function.

ghost use Rattle.std.specs.Prelude.{◌≡◌, ◌<◌, ◌∷◌, [], IfOk, OnOk, map};
ghost use Rattle.cfi_gen.specs.declared.function.Shape.TheVariants.{Call, Table};
ghost use Rattle.cfi_gen.specs.Assembly.{addi, bne, jalr, ld, lui, minus, sd};
ghost use Rattle.cfi_gen.specs.Lines.{marked, plain};
ghost use Rattle.cfi_gen.specs.Code.{closing_lines, function_lines, high, low, main_lines, mark, opening_lines, program_lines, shape_lines, table_symbol};
ghost use Rattle.cfi_gen.specs.Writing.{nothing, with_lines, written_in};

use crate::assembly::{A0, RA, S0, S1, SP, T0, addi, auipc, bne, jalr, ld, lui, minus, sd};
use crate::constants::{FIRST_SYMBOL, TABLE_SIZE, TABLE_SYMBOL};
use crate::function::{Function, Shape};
use crate::mark::Mark;
use crate::text::Text;
use rv_instr::{Immediate, Instr};
use rv_reloc::types::{R_RISCV_CALL_PLT, R_RISCV_HI20, R_RISCV_LO12_I, R_RISCV_RELAX};
use std::alloc::{AllocError, Global};

/// What `main` keeps for its end.
fn main_opening() -> [Instr; 4]
    ensures { result ≡ addi 2 2 (minus 32) ∷ sd 1 24 2 ∷ sd 8 16 2 ∷ sd 9 8 2 ∷ [] }
{
    [
        addi(SP, SP, minus(32)),
        sd(RA, 24, SP),
        sd(S0, 16, SP),
        sd(S1, 8, SP),
    ]
}

/// The loop of `main`, which calls each function of the table, and its end.
fn main_loop() -> [Instr; 9]
    ensures { result ≡ ld 5 0 8 ∷ jalr 1 0 5 ∷ addi 8 8 8 ∷ bne 8 9 (minus 6) ∷ ld 9 8 2 ∷ ld 8 16 2 ∷ ld 1 24 2 ∷ addi 2 2 32 ∷ jalr 0 0 1 ∷ [] }
{
    [
        ld(T0, 0, S0),
        jalr(RA, T0),
        addi(S0, S0, 8),
        bne(S0, S1, minus(6)), // back by 12 bytes, to the load
        ld(S1, 8, SP),
        ld(S0, 16, SP),
        ld(RA, 24, SP),
        addi(SP, SP, 32),
        jalr(0, RA),
    ]
}

/// A relocation by the table and an offset.
fn table_mark(kind: u32, offset: u32) -> Mark
    ensures { result ≡ mark kind table_symbol offset }
{
    Mark {
        kind,
        symbol: TABLE_SYMBOL,
        addend: i64::from(offset),
    }
}

/// Puts into a register the address of the table and an offset.
#[tactic(auto, unfolding(crate::specs::Writing::with_lines))]
fn put_address(text: &mut Text, rd: u32, offset: u32) -> Result<(), AllocError>
    requires { rd < 32 }
    ensures { OnOk result (written_in text.new ≡ with_lines (written_in text.old) (marked (lui rd) (high offset) ∷ marked (addi rd rd 0) (low offset) ∷ [])) }
{
    text.put(lui(rd), &[table_mark(R_RISCV_HI20, offset)])?;
    text.put(addi(rd, rd, 0), &[table_mark(R_RISCV_LO12_I, offset)])
}

/// Puts `main`.
#[tactic(auto, unfolding(crate::specs::Writing::with_lines, crate::specs::Code::main_lines))]
fn put_main(text: &mut Text) -> Result<(), AllocError>
    ensures { OnOk result (written_in text.new ≡ with_lines (written_in text.old) main_lines) }
{
    text.put_all(&main_opening())?;
    put_address(text, S0, 0)?;
    put_address(text, S1, TABLE_SIZE)?;
    text.put_all(&main_loop())
}

/// Where a function keeps its return address and adds to its argument.
#[tactic(auto, unfolding(crate::specs::Code::opening_lines))]
fn opening(amount: Immediate<12>) -> [Instr; 3]
    ensures { map plain result ≡ opening_lines amount }
{
    [
        addi(SP, SP, minus(16)),
        sd(RA, 8, SP),
        addi(A0, A0, amount.bits()),
    ]
}

/// Where it returns.
#[tactic(auto, unfolding(crate::specs::Code::closing_lines))]
fn closing() -> [Instr; 3]
    ensures { map plain result ≡ closing_lines }
{
    [ld(RA, 8, SP), addi(SP, SP, 16), jalr(0, RA)]
}

/// Puts a call of the function with this number.
#[tactic(auto, unfolding(crate::specs::Writing::with_lines, crate::specs::Code::shape_lines))]
fn put_call(text: &mut Text, number: u16) -> Result<(), AllocError>
    ensures { OnOk result (written_in text.new ≡ with_lines (written_in text.old) (shape_lines (Call number))) }
{
    let call = Mark {
        kind: R_RISCV_CALL_PLT,
        symbol: u32::from(number) + FIRST_SYMBOL,
        addend: 0,
    };
    let relax = Mark {
        kind: R_RISCV_RELAX,
        symbol: 0,
        addend: 0,
    };
    text.put(auipc(RA), &[call, relax])?;
    text.put(jalr(RA, RA), &[])
}

/// Puts a call of the function with this number by its address in the table.
#[tactic(auto, unfolding(crate::specs::Writing::with_lines, crate::specs::Code::shape_lines))]
fn put_table_call(text: &mut Text, number: u16) -> Result<(), AllocError>
    ensures { OnOk result (written_in text.new ≡ with_lines (written_in text.old) (shape_lines (Table number))) }
{
    let offset = 8 * u32::from(number);
    text.put(lui(T0), &[table_mark(R_RISCV_HI20, offset)])?;
    text.put(ld(T0, 0, T0), &[table_mark(R_RISCV_LO12_I, offset)])?;
    text.put(jalr(RA, T0), &[])
}

/// Puts what a function does between its sum and its return.
#[tactic(auto, unfolding(crate::specs::Writing::with_lines, crate::specs::Code::shape_lines))]
fn put_shape(text: &mut Text, shape: Shape) -> Result<(), AllocError>
    ensures { OnOk result (written_in text.new ≡ with_lines (written_in text.old) (shape_lines shape)) }
{
    match shape {
        Shape::Leaf => Ok(()),
        Shape::Call(number) => put_call(text, number),
        Shape::Table(number) => put_table_call(text, number),
        Shape::Skip => text.put_all(&[bne(A0, 0, 4), addi(A0, A0, 1)]), // over 8 bytes
    }
}

/// Puts a function.
fn put_function(text: &mut Text, function: &Function) -> Result<(), AllocError>
    ensures { OnOk result (written_in text.new ≡ with_lines (written_in text.old) (function_lines function.now)) }
{
    text.put_all(&opening(function.amount))?;
    put_shape(text, function.shape)?;
    text.put_all(&closing())?;
    Ok(())
}

/// The code of the program with these functions.
pub(crate) fn program_text(alloc: Global, functions: &[Function]) -> Result<Text, AllocError>
    ensures { IfOk result (λ text. written_in text ≡ with_lines nothing (program_lines functions.now)) }
{
    let mut text = Text::new(alloc);
    put_main(&mut text)?;
    for function in functions {
        put_function(&mut text, function)?;
    }
    Ok(text)
}
