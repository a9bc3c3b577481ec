ghost use Rattle.std.specs.Prelude.{◌≡◌, ◌++◌, [], IfOk, OnOk, if◌then◌else◌, length, option_to_list};
ghost use Rattle.least.specs.Nearest.{joined};
ghost use Rattle.obj_join.specs.SaidInput.{func_at, func_of};

use crate::standing::Standing;
use crate::symbol::Symbol;
use obj_input::Func;
use rv_word::NoMemory;
use std::alloc::Global;

/// The function that a symbol is, which stands in a section.
fn func_at(symbol: &Symbol) -> Option<Func>
    ensures { option_to_list result ≡ func_at symbol.now symbol.now.standing }
{
    match symbol.standing() {
        Standing::InSection(section) => Some(Func {
            section,
            offset: symbol.value(),
            size: symbol.size(),
        }),
        _ => None,
    }
}

/// The function that a symbol is, if it is one.
fn func_of(symbol: &Symbol) -> Option<Func>
    ensures { option_to_list result ≡ (if symbol.now.is_function then func_at symbol.now symbol.now.standing else []) }
{
    if symbol.is_function() {
        func_at(symbol)
    } else {
        None
    }
}

/// Puts the function that a symbol is behind others, if it is one.
fn push_func(funcs: &mut Vec<Func>, symbol: &Symbol) -> Result<(), NoMemory>
    ensures { OnOk result (funcs.new.items ≡ funcs.old.items ++ (if symbol.now.is_function then func_at symbol.now symbol.now.standing else [])) }
{
    match func_of(symbol) {
        Some(func) => Ok(funcs.push(func)?),
        None => Ok(()),
    }
}

/// The functions in code, in the order of the symbols.
pub fn funcs(alloc: Global, symbols: &[Symbol]) -> Result<Vec<Func>, NoMemory>
    ensures { IfOk result (λ v. v.items ≡ joined (func_of symbols.now) (length symbols.now)) }
{
    let mut funcs = Vec::new(alloc);
    for symbol in symbols {
        push_func(&mut funcs, symbol)?;
    }
    Ok(funcs)
}
