use crate::given::{Given, put};
use rv_image::Form;
use sample_programs::{PROLOGUE, PROLOGUE_OF_HARTS, add_words};
use std::alloc::{AllocError, Global};

/// An object; what it becomes for one hart where calls and jumps share labels; and what where each has labels of its own, if that
/// is more than another first line of its graph and its map.
pub struct Program(pub Given, pub Units, pub Option<Units>);

/// What an object becomes for one hart: the words of its units, and that of the prologue which calls the entry; its data, which are
/// addresses of code or a text; how many classes and sites its graph has, and the graph's lines behind the second; and its map, as
/// `map` reads it.
pub struct Units(
    pub &'static [u32],
    pub u32,
    pub &'static [u32],
    pub &'static [u8],
    pub u32,
    pub u32,
    pub &'static str,
    pub &'static [u8],
);

/// The units of a program for one hart, with the labels of a form.
fn units_in(form: Form, program: &Program) -> &Units {
    match (form, &program.2) {
        (Form::Split | Form::HartsSplit, Some(apart)) => apart,
        _ => &program.1,
    }
}

/// How many bytes later than for one hart units stand.
fn later(form: Form) -> u32 {
    match form {
        Form::Harts | Form::HartsSplit => 16,
        _ => 0,
    }
}

/// Whether a word behind another one tells a distance to what stands where it did: it jumps back by less than 2 KiB, as to a handler,
/// or is behind an AUIPC that no call has, and so finds data.
fn is_distance(before: u32, word: u32) -> bool {
    word & 0x801f_ffff == 0x801f_f06f || before & 0x7f == 0x17 && before != 0x0000_0f17
}

/// Adds units that stand so many bytes later: a distance is less by these, which are bits 20 and higher of its word.
fn add_units(bytes: &mut Vec<u8>, words: &[u32], later: u32) -> Result<(), AllocError> {
    let mut before = 0;
    for word in words {
        let less = if is_distance(before, *word) {
            later.wrapping_mul(0x0010_0000)
        } else {
            0
        };
        bytes.extend_from_slice(&word.wrapping_sub(less).to_le_bytes())?;
        before = *word;
    }
    Ok(())
}

/// How many bytes before the units the prologue's call of the entry is a word.
const CALL: usize = 12;

/// The prologue of a form, with this word for its call of the entry.
fn prologue(alloc: Global, form: Form, call: u32) -> Result<Vec<u8>, AllocError> {
    let mut bytes = Vec::new(alloc);
    match form {
        Form::Harts | Form::HartsSplit => add_words(&mut bytes, &PROLOGUE_OF_HARTS)?,
        _ => add_words(&mut bytes, &PROLOGUE)?,
    }
    let at = bytes.len().saturating_sub(CALL);
    put(&mut bytes, at, &call.to_le_bytes());
    Ok(bytes)
}

/// The code of a program in a form.
pub fn code_in(alloc: Global, form: Form, program: &Program) -> Result<Vec<u8>, AllocError> {
    let units = units_in(form, program);
    let mut bytes = prologue(alloc, form, units.1)?;
    add_units(&mut bytes, units.0, later(form))?;
    Ok(bytes)
}

/// The data of a program in a form.
pub fn data_in(alloc: Global, form: Form, program: &Program) -> Result<Vec<u8>, AllocError> {
    let units = units_in(form, program);
    let mut bytes = Vec::from_slice(alloc, units.3)?;
    for address in units.2 {
        let address = u64::from(address.saturating_add(later(form)));
        bytes.extend_from_slice(&address.to_le_bytes())?;
    }
    Ok(bytes)
}

/// How many bytes of code a program has in a form.
fn code_size(form: Form, units: &Units) -> usize {
    let prologue = match form {
        Form::Harts | Form::HartsSplit => 80,
        _ => 64,
    };
    units.0.len().saturating_mul(4).saturating_add(prologue)
}

/// How many bytes of data a program has.
pub fn data_size(form: Form, program: &Program) -> usize {
    let units = units_in(form, program);
    let addresses = units.2.len().saturating_mul(8);
    units.3.len().saturating_add(addresses)
}

/// What `harden` puts of a program in a form.
pub fn told_in(alloc: Global, form: Form, program: &Program) -> Result<String, AllocError> {
    let units = units_in(form, program);
    let (code, data) = (code_size(form, units), data_size(form, program));
    format!(in alloc;
        "rewritten code {code} data {data} classes {} sites {}\n",
        units.4, units.5
    )
}

/// Adds a word of a graph; of an address of units the one so many bytes later.
fn add_word(text: &mut String, word: &str, later: u32) -> Result<(), AllocError> {
    match u32::from_str_radix(word, 16) {
        Ok(address) if address >= 0x4000_0040 => {
            write!(text, "{:08x}", address.saturating_add(later))
        }
        _ => text.push_str(word),
    }
}

/// Adds a line of a graph of units that stand so many bytes later.
fn add_line(text: &mut String, line: &str, later: u32) -> Result<(), AllocError> {
    for (k, word) in line.split(' ').enumerate() {
        if k > 0 {
            text.push(' ')?;
        }
        add_word(text, word, later)?;
    }
    text.push('\n')
}

/// The first lines of a graph.
fn head(alloc: Global, form: Form, size: usize) -> Result<String, AllocError> {
    let version = match form {
        Form::Split | Form::HartsSplit => 2,
        _ => 1,
    };
    format!(in alloc; "rvcfi-graph {version}\ncode 40000000 {size:08x}\n")
}

/// The graph of a program in a form.
pub fn graph_in(alloc: Global, form: Form, program: &Program) -> Result<String, AllocError> {
    let units = units_in(form, program);
    let mut text = head(alloc, form, code_size(form, units))?;
    for line in units.6.lines() {
        add_line(&mut text, line, later(form))?;
    }
    Ok(text)
}

/// The value of a digit.
fn value(digit: u8) -> u32 {
    match digit {
        b'0'..=b'9' => u32::from(digit - b'0'),
        b'a'..=b'z' => u32::from(digit - b'a') + 10,
        _ => 0,
    }
}

/// The text of a map whose first line and first gate these are, and which is told by how many words stand from the gate of each place to
/// the next one's, each a digit of base 36. A place has four bytes of the object, and with a `.` behind its digit eight.
pub fn map(alloc: Global, head: &str, first: u32, digits: &[u8]) -> Result<String, AllocError> {
    let mut text = format!(in alloc; "{head}\n")?;
    let (mut gate, mut offset) = (first, 0u32);
    for digit in digits {
        if *digit != b'.' {
            write!(text, "at {gate:08x} 0001 {offset:08x}\n")?;
        }
        gate = gate.saturating_add(value(*digit).saturating_mul(4));
        offset = offset.saturating_add(4);
    }
    write!(text, "at {gate:08x} 0001 {offset:08x}\nend\n")?;
    Ok(text)
}

/// The first line of a form's maps.
fn map_head(form: Form) -> &'static str {
    match form {
        Form::Harts => "rvcfi-map 2 harts",
        Form::Split => "rvcfi-map 2 split",
        Form::HartsSplit => "rvcfi-map 2 harts-split",
        _ => "rvcfi-map 1",
    }
}

/// The map of a program in a form.
pub fn map_in(alloc: Global, form: Form, program: &Program) -> Result<String, AllocError> {
    let first = later(form).saturating_add(0x4000_0040);
    map(alloc, map_head(form), first, units_in(form, program).7)
}
