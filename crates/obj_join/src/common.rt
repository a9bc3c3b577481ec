//! Common blocks: which symbols have one, and how large each is.

ghost use Rattle.std.specs.Prelude.{◌≡◌, ◌+◌, ◌<◌, max, ℕ, IfOk, length, map};
ghost use Rattle.obj_input.specs.Listed.{listed};
ghost use Rattle.obj_join.specs.Blocks.{block_of, blocks_below, has_block};
ghost use Rattle.obj_join.specs.Numbers.{before, by, merged_below};

use crate::symbol::Symbol;
use obj_input::Block;
use rv_word::NoMemory;
use std::alloc::Global;

/// Whether the symbol with this number has a block.
fn has_block(symbols: &[Symbol], numbers: &[u64], number: u64) -> bool
    requires below { number < length symbols.now }
    requires numbers { length numbers.now ≡ length symbols.now }
    ensures { result ≡ has_block (by numbers.now) symbols.now number }
{
    symbols[number as usize].is_block() && numbers[number as usize] == number
}

/// How many blocks are before that of each symbol, where `numbers` says which symbol each one is.
#[tactic(auto, using(crate::proofs::Counts::counts))]
pub fn places(alloc: Global, symbols: &[Symbol], numbers: &[u64]) -> Result<Vec<u64>, NoMemory>
    requires { length numbers.now ≡ length symbols.now }
    ensures { IfOk result (λ v. v.items ≡ listed (before (by numbers.now) symbols.now) (length symbols.now)) }
{
    let mut count = 0;
    let mut places = Vec::new(alloc);
    for number in 0..symbols.len() as u64 {
        places.push(count)?;
        count += u64::from(has_block(symbols, numbers, number));
    }
    Ok(places)
}

/// A block that is as large and as aligned as this one and as a common symbol.
fn greater(block: Block, symbol: &Symbol) -> Block
    ensures { result ≡ record { size = max block.size symbol.now.size; align = max block.align symbol.now.value } }
{
    Block {
        size: block.size.max(symbol.size()),
        align: block.align.max(symbol.value()),
    }
}

/// No block as yet for any symbol.
#[tactic(auto, using(crate::proofs::Merged::merging))]
fn no_blocks(alloc: Global, symbols: &[Symbol]) -> Result<Vec<Block>, NoMemory>
    ensures { (resolve : ℕ → ℕ) → IfOk result (λ v. v.items ≡ listed (merged_below resolve symbols.now 0) (length symbols.now)) }
{
    let mut blocks = Vec::with_capacity(alloc, symbols.len())?;
    for _symbol in symbols {
        blocks.push(Block { size: 0, align: 0 })?;
    }
    Ok(blocks)
}

/// Makes the block of the symbol that the one with this number stands for as large and as aligned as this one, if it is
/// common.
fn merge(blocks: &mut Vec<Block>, symbols: &[Symbol], numbers: &[u64], number: u64)
    requires below { number < length symbols.now }
    requires numbers { length numbers.now ≡ length symbols.now }
    requires so_far { blocks.old.items ≡ listed (merged_below (by numbers.now) symbols.now number) (length symbols.now) }
    ensures { blocks.new.items ≡ listed (merged_below (by numbers.now) symbols.now (number + 1)) (length symbols.now) }
{
    let symbol = &symbols[number as usize];
    let into = numbers[number as usize] as usize;
    if symbol.is_block() && into < blocks.len() {
        blocks[into] = greater(blocks[into], symbol);
    }
}

/// The block of each symbol, by all common symbols.
fn all_merged(alloc: Global, symbols: &[Symbol], numbers: &[u64]) -> Result<Vec<Block>, NoMemory>
    requires { length numbers.now ≡ length symbols.now }
    ensures { IfOk result (λ v. v.items ≡ listed (merged_below (by numbers.now) symbols.now (length symbols.now)) (length symbols.now)) }
{
    let mut blocks = no_blocks(alloc, symbols)?;
    for number in 0..symbols.len() as u64 {
        merge(&mut blocks, symbols, numbers, number);
    }
    Ok(blocks)
}

/// Those of the blocks of all symbols that stand for themselves.
fn kept(
    alloc: Global,
    symbols: &[Symbol],
    numbers: &[u64],
    merged: &[Block],
) -> Result<Vec<Block>, NoMemory>
    requires numbers { length numbers.now ≡ length symbols.now }
    requires count { length merged.now ≡ length symbols.now }
    requires merged { merged.now ≡ listed (merged_below (by numbers.now) symbols.now (length symbols.now)) (length symbols.now) }
    ensures { IfOk result (λ v. v.items ≡ map (block_of (by numbers.now) symbols.now) (blocks_below (by numbers.now) symbols.now (length symbols.now))) }
{
    let mut blocks = Vec::new(alloc);
    for number in 0..symbols.len() as u64 {
        if has_block(symbols, numbers, number) {
            blocks.push(merged[number as usize])?;
        }
    }
    Ok(blocks)
}

/// The common blocks, where `numbers` says which symbol each one is.
#[tactic(auto, using(crate::proofs::Listing::listings))]
pub fn blocks(alloc: Global, symbols: &[Symbol], numbers: &[u64]) -> Result<Vec<Block>, NoMemory>
    requires { length numbers.now ≡ length symbols.now }
    ensures { IfOk result (λ v. v.items ≡ map (block_of (by numbers.now) symbols.now) (blocks_below (by numbers.now) symbols.now (length symbols.now))) }
{
    let merged = all_merged(alloc, symbols, numbers)?;
    let blocks = kept(alloc, symbols, numbers, &merged)?;
    Ok(blocks)
}
