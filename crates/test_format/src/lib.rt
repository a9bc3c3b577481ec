//! Tests of the readers and writers of files through their public calls: numbers, images, objects by hand, and what is
//! wrong with objects' instructions and relocations. They stand beside the crates that they test, so that these are proved
//! once.
#![tactic(auto)]

#[cfg(test)]
mod bytes;
#[cfg(test)]
mod common;
#[cfg(test)]
mod image;
#[cfg(test)]
mod item_rows;
#[cfg(test)]
mod items;
#[cfg(test)]
mod object;
