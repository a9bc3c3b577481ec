//! The symbols of the generated object.

ghost use Rattle.std.specs.Prelude.{◌≡◌, ◌∷◌, ◌<◌, ◌^◌, [], IfOk, length, map};
ghost use Rattle.elf_writer.specs.Parts.{symbol_of};
ghost use Rattle.cfi_gen.specs.Lines.{code_size};
ghost use Rattle.cfi_gen.specs.Code.{main_lines};
ghost use Rattle.cfi_gen.specs.Demo.{code_symbol, function_name, function_symbols, main_part, table_part};

use crate::constants::TABLE_SIZE;
use crate::function::Function;
use elf_tables::constants::{STB_GLOBAL, STT_FUNC, STT_OBJECT};
use elf_writer::Symbol;
use rv_word::Bytes;
use std::alloc::{AllocError, Global};

/// The section of the code.
const TEXT: u16 = 1;

/// The section of the table.
const DATA: u16 = 2;

/// How many bytes `main` has.
const MAIN_SIZE: u64 = 68;

/// A name's bytes.
fn name(alloc: Global, text: &[u8]) -> Result<Bytes, AllocError>
    ensures { IfOk result (λ name. name ≡ text.now) }
{
    Ok(Bytes::of(Vec::from_slice(alloc, text)?))
}

/// The name of the function with this number.
fn function_name(alloc: Global, number: usize) -> Result<Bytes, AllocError>
    ensures { IfOk result (λ name. name ≡ function_name number) }
{
    let name = format!(in alloc; "f{number}")?;
    Ok(Bytes::of(name.into_bytes()))
}

/// A function of the code.
fn code_symbol(name: Bytes, at: u64, size: u64) -> Symbol
    ensures { symbol_of result ≡ code_symbol name at size }
{
    Symbol {
        name,
        info: (STB_GLOBAL << 4) | STT_FUNC,
        section: TEXT,
        value: at,
        size,
    }
}

/// The symbol `table`.
fn table_symbol(alloc: Global) -> Result<Symbol, AllocError>
    ensures { IfOk result (λ symbol. symbol_of symbol ≡ table_part) }
{
    let symbol = Symbol {
        name: name(alloc, b"table")?,
        info: (STB_GLOBAL << 4) | STT_OBJECT,
        section: DATA,
        value: 0,
        size: u64::from(TABLE_SIZE),
    };
    Ok(symbol)
}

/// The symbols `main` and `table`.
fn first_symbols(alloc: Global) -> Result<Vec<Symbol>, AllocError>
    ensures { IfOk result (λ symbols. map symbol_of symbols.items ≡ main_part ∷ table_part ∷ []) }
{
    let mut symbols = Vec::new(alloc);
    symbols.push(code_symbol(name(alloc, b"main")?, 0, MAIN_SIZE))?;
    symbols.push(table_symbol(alloc)?)?;
    Ok(symbols)
}

/// The symbols of the program with these functions.
pub(crate) fn program_symbols(
    alloc: Global,
    functions: &[Function],
) -> Result<Vec<Symbol>, AllocError>
    requires { length functions.now < 2 ^ 32 }
    ensures { IfOk result (λ symbols. map symbol_of symbols.items ≡ main_part ∷ table_part ∷ function_symbols (code_size main_lines) 0 functions.now) }
{
    let mut symbols = first_symbols(alloc)?;
    let mut at = MAIN_SIZE;
    for (number, function) in functions.iter().enumerate() {
        let size = function.size();
        symbols.push(code_symbol(function_name(alloc, number)?, at, size))?;
        at += size;
    }
    Ok(symbols)
}
