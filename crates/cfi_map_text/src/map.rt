ghost use Rattle.std.specs.Prelude.{◌≡◌, ◌<◌, ◌==◌, ◌++◌, ◌∷◌, [], length, slice_get, Ok, OnErr, OnOk, Some};
ghost use Rattle.cfi_map_text.specs.Map.{IsMap, is_gate, map_line_below, map_line_in_range, place_below};

use rv_image::Form;
use rv_image::memory_map::{CODE_SIZE, CODE_START};
use rv_word::NoMemory;
use std::alloc::Global;
use std::marker::Model;

/// A line of a map: a place of a program, which is a section's number and an offset, and its gate.
#[derive(Clone, Copy)]
pub struct MapLine {
    /// The address that pointers to the place have.
    pub gate: u64,
    /// The number of the place's section.
    pub section: u32,
    /// The place's offset in its section, in bytes.
    pub offset: u64,
}

fn is_gate(form: Form, gate: u64) -> bool
    ensures { result ≡ is_gate form gate }
{
    gate % 4 == 0 && form.units_from() <= gate && gate < CODE_START + CODE_SIZE
}

impl MapLine {
    /// Whether each number is one that a map of this form may have.
    pub(crate) fn in_range(&self, form: Form) -> bool
        ensures { result ≡ map_line_in_range form self.now }
    {
        is_gate(form, self.gate)
            && self.offset % 4 == 0
            && self.section < 0x1_0000
            && self.offset < 0x1_0000_0000
    }

    fn has_place_below(&self, next: &MapLine) -> bool
        ensures { result ≡ place_below self.now next.now }
    {
        self.section < next.section || (self.section == next.section && self.offset < next.offset)
    }

    /// Whether the line may stand just before another one.
    pub(crate) fn is_below(&self, next: &MapLine) -> bool
        ensures { result ≡ map_line_below self.now next.now }
    {
        self.has_place_below(next) && self.gate < next.gate
    }
}

/// A list of a map's lines that owns its memory.
#[derive(Drop)]
pub struct MapLines {
    items: Vec<MapLine>,
}

impl Model for MapLines {
    ghost use Rattle.std.specs.Prelude.{List};
    ghost use Rattle.cfi_map_text.specs.declared.map.MapLine.{MapLine};

    ghost Value = { List MapLine };

    ghost view = { λ l. l.items.items };
}

impl MapLines {
    /// The list with these lines, in their order.
    pub fn of(items: Vec<MapLine>) -> Self
        ensures { result ≡ items.items }
    {
        MapLines { items }
    }

    /// Puts a line at the end; a refusal leaves the list as it was.
    pub(crate) fn push(&mut self, line: MapLine) -> Result<(), NoMemory>
        ensures grown { OnOk result (self.new ≡ self.old ++ line ∷ []) }
        ensures refused { OnErr result (self.new ≡ self.old) }
    {
        self.items.push(line)?;
        Ok(())
    }

    /// The lines, as a slice.
    pub fn as_slice(&self) -> &[MapLine]
        ensures { result.now ≡ self.now }
    {
        self.items.as_slice()
    }

    /// How many lines there are.
    pub fn len(&self) -> usize
        ensures { result ≡ length self.now }
    {
        self.items.len()
    }

    /// Whether there is no line.
    pub fn is_empty(&self) -> bool
        ensures { result ≡ (length self.now == 0) }
    {
        self.items.is_empty()
    }
}

/// A map: the form in which a program is hardened, and the gates of its places, in order.
#[derive(Drop)]
pub struct Map {
    pub(crate) form: Form,
    pub(crate) lines: MapLines,
}

impl Model for Map {
    ghost use Rattle.cfi_map_text.specs.Map.{IsMap, MapParts};

    ghost Value = { MapParts };

    ghost view = { λ m. record { form = m.form; lines = m.lines } };

    ghost invariant = { λ m. IsMap (record { form = m.form; lines = m.lines }) };
}

impl Map {
    /// The map of a form with these lines, which are those that a map may have. It takes no memory.
    pub fn of(_alloc: Global, form: Form, lines: MapLines) -> Result<Map, NoMemory>
        requires { IsMap (record { form = form; lines = lines }) }
        ensures { result ≡ Ok (record { form = form; lines = lines }) }
    {
        Ok(Map { form, lines })
    }

    /// The form in which the program is hardened.
    pub fn form(&self) -> Form
        ensures { result ≡ self.now.form }
    {
        self.form
    }

    /// The lines.
    pub fn as_slice(&self) -> &[MapLine]
        ensures value { result.now ≡ self.now.lines }
        ensures allowed { IsMap self.now }
    {
        self.lines.as_slice()
    }

    /// The number of lines.
    pub fn lines(&self) -> u64
        ensures { result ≡ length self.now.lines }
    {
        self.lines.len() as u64
    }

    /// The line with the index `k`, from 0.
    pub fn line(&self, k: u64) -> &MapLine
        requires { k < length self.now.lines }
        ensures { slice_get self.now.lines k ≡ Some result.now }
    {
        &self.lines.as_slice()[k as usize]
    }
}
