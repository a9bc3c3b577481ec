//! Symbols by name.

ghost use Rattle.std.specs.Prelude.{◌≡◌, ◌≤◌, ℕ, List, [], None, IfOk, OnOk, length, find, option_map};
ghost use Rattle.std.specs.Str.{bytes_eq};
ghost use Rattle.obj_input.specs.Indexed.{IsIndexed, first_definition, looked_up, noted};
ghost use Rattle.obj_input.specs.Names.{find_spot, spot_within};

use crate::name::Name;
use crate::name_seed::NameSeed;
use crate::parts::Definition;
use indexmap::IndexMap;
use rv_word::NoMemory;
use std::alloc::Global;
use std::marker::Model;

/// How many bytes a name has at most that is looked up in the index.
const MOST_INDEXED: usize = 256;

/// Names in the order in which they are looked for. A name of at most 256 bytes is found in a few steps; a longer one
/// is compared with each in turn.
#[derive(Drop)]
pub struct Names<'a> {
    names: Vec<Name<'a>>,
    index: IndexMap<&'a [u8], Definition, NameSeed>,
}

impl<'a> Model for Names<'a> {
    ghost use Rattle.std.specs.Prelude.{List};
    ghost use Rattle.obj_input.specs.Input.{Named};
    ghost use Rattle.obj_input.specs.Indexed.{IsIndexed};

    ghost Value = { List Named };

    ghost view = { λ n. n.names.items };

    ghost invariant = { λ n. IsIndexed n.names.items n.index };
}

impl<'a> Names<'a> {
    /// These names, in this order. From the tables that they stand in comes the hasher of their index, and nothing that is
    /// found.
    pub fn of(alloc: Global, names: Vec<Name<'a>>, tables: &[&[u8]]) -> Result<Names<'a>, NoMemory>
        ensures { IfOk result (λ n. n ≡ names.entry.items) }
    {
        let index = index_of(alloc, &names, tables)?;
        Ok(Names { names, index })
    }

    /// The names in their order.
    pub fn as_slice(&self) -> &[Name<'a>]
        ensures { result.now ≡ self.now }
    {
        self.names.as_slice()
    }

    /// Where the first symbol of this name stands: the index of its section and its offset there; none where no
    /// symbol has the name, or where that symbol stands in no section. No symbol is found by an empty name.
    pub fn find(&self, name: &[u8]) -> Option<(u32, u64)>
        ensures { result ≡ find_spot self.now name.now }
    {
        if name.is_empty() {
            return None;
        }
        spot_within(self.definition(name)?)
    }

    /// What the first symbol of this name stands for.
    fn definition(&self, name: &[u8]) -> Option<Definition>
        ensures { result ≡ first_definition self.now name.now }
    {
        if name.len() <= MOST_INDEXED {
            look_up(&self.index, name)
        } else {
            first_definition(&self.names, name)
        }
    }
}

/// Where a definition stands in a section.
fn spot_within(definition: Definition) -> Option<(u32, u64)>
    ensures { result ≡ spot_within definition }
{
    match definition {
        Definition::Within(section, offset) => Some((section, offset)),
        _ => None,
    }
}

/// What a name stands for by the index.
fn look_up(index: &IndexMap<&[u8], Definition, NameSeed>, name: &[u8]) -> Option<Definition>
    ensures { result ≡ looked_up name.now index.now }
{
    index.get(name).copied()
}

/// What the first of this name stands for, compared with each in turn.
fn first_definition(names: &[Name], name: &[u8]) -> Option<Definition>
    ensures { result ≡ first_definition names.now name.now }
{
    names.iter().find(|n| n.is(name)).map(|n| n.definition())
}

/// Adds a name to the index, unless it is long or is there.
fn note<'a>(
    index: &mut IndexMap<&'a [u8], Definition, NameSeed>,
    name: &Name<'a>,
) -> Result<(), NoMemory>
    ensures { OnOk result ((called : List ℕ) → length called ≤ 256 → looked_up called index.new ≡ noted name.now (looked_up called index.old) called) }
{
    let Some(bytes) = name.within(MOST_INDEXED) else {
        return Ok(());
    };
    if look_up(index, bytes).is_some() {
        return Ok(());
    }
    index.insert(bytes, name.definition())?;
    Ok(())
}

/// What each name of at most 256 bytes stands for.
fn index_of<'a>(
    alloc: Global,
    names: &[Name<'a>],
    tables: &[&[u8]],
) -> Result<IndexMap<&'a [u8], Definition, NameSeed>, NoMemory>
    ensures { IfOk result (λ index. IsIndexed names.now index) }
{
    let mut index = IndexMap::with_hasher(alloc, NameSeed::of(names, tables));
    for name in names {
        note(&mut index, name)?;
    }
    Ok(index)
}
