ghost use Rattle.std.specs.Prelude.{◌≡◌, ◌++◌, ◌∷◌, [], IfOk, OnOk, Ok, option_map};
ghost use Rattle.std.specs.List.{flat_map};
ghost use Rattle.text_lines.specs.Answers.{Answers};
ghost use Rattle.text_lines.specs.Lines.{spaced, words_of};
ghost use Rattle.cfi_map_text.specs.Map.{IsMap, MapParts};
ghost use Rattle.cfi_map_text.specs.MapText.{form_at, in_map_order, map_line_of, map_name, map_of, map_rules, map_text, map_words};

use crate::map::{Map, MapLine, MapLines};
use rv_image::Form;
use rv_word::{End, NoMemory};
use std::alloc::Global;
use text_lines::{
    LineFault, LineForm, after_one_of, cut, hex_of, is_word, push_number, read_lines,
};

/// The line of a map that these bytes spell, if they have the form of one.
fn map_line_of(line: &[u8]) -> Option<MapLine>
    ensures { result ≡ map_line_of (words_of line.now) }
{
    let (name, rest) = cut(line, b' ');
    let (gate, rest) = cut(rest?, b' ');
    let (section, rest) = cut(rest?, b' ');
    let (offset, rest) = cut(rest?, b' ');
    if let Some(_more) = rest {
        return None;
    }
    if !is_word(name, b"at") {
        return None;
    }
    let gate = u64::from(hex_of(gate, 8)?);
    let section = hex_of(section, 4)?;
    let offset = u64::from(hex_of(offset, 8)?);
    Some(MapLine {
        gate,
        section,
        offset,
    })
}

/// The form of the lines of a map of some form: the line before, and the lines so far.
#[derive(Drop)]
struct MapForm {
    form: Form,
    before: Option<MapLine>,
    lines: MapLines,
}

impl LineForm for MapForm {
    type Line = MapLine;

    type Before = Option<MapLine>;

    type Item = MapLine;

    ghost rules = { λ form. map_rules form.form };

    ghost before = { λ form. form.before };

    ghost items = { λ form. form.lines };

    fn line_of(&self, _alloc: Global, line: &[u8]) -> Result<Option<MapLine>, NoMemory> {
        Ok(map_line_of(line))
    }

    fn in_range(&self, line: &MapLine) -> bool {
        line.in_range(self.form)
    }

    fn in_order(&self, line: &MapLine) -> bool {
        match &self.before {
            None => true,
            Some(before) => before.is_below(line),
        }
    }

    fn add(&mut self, line: MapLine) -> Result<(), NoMemory> {
        self.lines.push(line)?;
        self.before = Some(line);
        Ok(())
    }
}

/// The first lines that a map may have.
const NAMES: [&[u8]; 6] = [
    b"rvcfi-map 1",
    b"rvcfi-map 2 harts",
    b"rvcfi-map 2 split",
    b"rvcfi-map 2 harts-split",
    b"rvcfi-map 2 lean",
    b"rvcfi-map 2 harts-lean",
];

/// The form that the first line tells, by its place among these.
fn form_at(which: usize) -> Form
    ensures { result ≡ form_at which }
{
    match which {
        0 => Form::Plain,
        1 => Form::Harts,
        2 => Form::Split,
        3 => Form::HartsSplit,
        4 => Form::Lean,
        _ => Form::HartsLean,
    }
}

/// The first line of a form's maps.
fn name_of(form: Form) -> &'static [u8]
    ensures { result.now ≡ map_name form }
{
    match form {
        Form::Plain => NAMES[0],
        Form::Harts => NAMES[1],
        Form::Split => NAMES[2],
        Form::HartsSplit => NAMES[3],
        Form::Lean => NAMES[4],
        Form::HartsLean => NAMES[5],
    }
}

/// Reads the text of a map, of which it keeps no copy. The lines of a text count from 1.
pub fn read_map(alloc: Global, text: &[u8]) -> Result<Map, End<LineFault>>
    // The right answer, but for want of memory.
    ensures exact { Answers result (map_of text.now) }

    // What is read is a map, and the text is its one spelling.
    ensures allowed { IfOk result IsMap }
    ensures spelled { IfOk result (λ m. text.now ≡ map_text m) }

    // The text of each map is read as that map.
    ensures only { (m : MapParts) → IsMap m → text.now ≡ map_text m → Answers result (Ok m) }
{
    let (which, rest) = after_one_of(text, &NAMES)?;
    let form = form_at(which);
    let mut read = MapForm {
        form,
        before: None,
        lines: MapLines::of(Vec::new(alloc)),
    };
    read_lines(alloc, &mut read, 2, rest)?;
    Ok(Map {
        form,
        lines: read.lines,
    })
}

/// Adds the words of a line, with a space between each two, and a newline.
fn push_line(out: &mut Vec<u8>, line: &MapLine) -> Result<(), NoMemory>
    ensures { OnOk result (out.new.items ≡ out.old.items ++ (spaced (map_words line.now) ++ 10 ∷ [])) }
{
    out.extend_from_slice(b"at")?;
    push_number(out, line.gate, 8)?;
    push_number(out, u64::from(line.section), 4)?;
    push_number(out, line.offset, 8)?;
    out.push(b'\n')?;
    Ok(())
}

fn push_lines(out: &mut Vec<u8>, lines: &[MapLine]) -> Result<(), NoMemory>
    ensures { OnOk result (out.new.items
        ≡ out.old.items ++ flat_map (λ l. spaced (map_words l) ++ 10 ∷ []) lines.now) }
{
    for line in lines {
        push_line(out, line)?;
    }
    Ok(())
}

/// The text of a map.
pub fn write_map(alloc: Global, map: &Map) -> Result<Vec<u8>, NoMemory>
    ensures text { IfOk result (λ v. v.items ≡ map_text map.now) }
    ensures read_back { IfOk result (λ v. map_of v.items ≡ Ok map.now) }
{
    let mut out = Vec::new(alloc);
    out.extend_from_slice(name_of(map.form))?;
    out.push(b'\n')?;
    push_lines(&mut out, map.lines.as_slice())?;
    out.extend_from_slice(b"end\n")?;
    Ok(out)
}
