//! Tests of words through public calls: the words of instructions, bits, products and quotients, lists of bytes and places,
//! what relocations make of words and data, against values from outside, searches for the first and the least, classes of
//! sets, and where parts of code stand. They stand beside the crates that they test, so that these are proved once.
#![tactic(auto)]

#[cfg(test)]
mod bits;
#[cfg(test)]
mod class;
#[cfg(test)]
mod layout;
#[cfg(test)]
mod products;
#[cfg(test)]
mod relocation;
#[cfg(test)]
mod search;
#[cfg(test)]
mod words;
