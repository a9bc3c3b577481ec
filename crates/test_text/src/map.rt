ghost use Rattle.std.specs.Prelude.{◌≡◌, ◌∷◌, [], IfOk};
ghost use Rattle.test_text.specs.declared.map.TheConstants as constants;

use cfi_map_text::{Map, MapLine, MapLines, read_map, write_map};
use rv_image::Form;
use rv_word::NoMemory;
use sample_programs::{is_told_as, rows};
use std::alloc::{AllocError, Global};

/// A text after its first line, with `/` for each newline, and what it is read as.
const TEXTS: &[u8] = b"\
    end/|a map\n\
    |line 2: Form\n\
    end|line 2: Form\n\
    end//|line 3: Form\n\
    at 40000040 0001 00000000/end/|a map\n\
    at 400ffffc ffff fffffffc/end/|a map\n\
    at 40000040 0001 00000000/at 40000044 0001 00000004/end/|a map\n\
    at 40000040 0001 00000008/at 40000044 0002 00000000/end/|a map\n\
    at 40000040 0001 00000000/|line 3: Form\n\
    at 40000040 1 00000000/end/|line 2: Form\n\
    at 40000040 0001 0/end/|line 2: Form\n\
    at 4000004C 0001 00000000/end/|line 2: Form\n\
    at 40000040 0001/end/|line 2: Form\n\
    at 40000040 0001 00000000 /end/|line 2: Form\n\
    At 40000040 0001 00000000/end/|line 2: Form\n\
    at 4000003c 0001 00000000/end/|line 2: Range\n\
    at 40100000 0001 00000000/end/|line 2: Range\n\
    at 40000042 0001 00000000/end/|line 2: Range\n\
    at 40000040 0001 00000002/end/|line 2: Range\n\
    at 40000040 0001 00000004/at 40000044 0001 00000004/end/|line 3: Order\n\
    at 40000040 0001 00000004/at 40000044 0001 00000000/end/|line 3: Order\n\
    at 40000040 0002 00000000/at 40000044 0001 00000004/end/|line 3: Order\n\
    at 40000040 0001 00000000/at 40000040 0001 00000004/end/|line 3: Order\n\
    at 40000040 0001 00000004/at 40000042 0001 00000000/end/|line 3: Range\n\
    at 40000040 0001 00000004/at 40000044 0001 00000000/x/|line 3: Order\n\
    at 40000040 0001 00000000/end|line 3: Form\n\
    at 40000040 0001 00000000/end/x|line 4: Form\n\
    at 40000040 0001 00000000/end/ /|line 4: Form\n\
    at 40000040 0001 00000000//end/|line 3: Form\n\
    \x20at 40000040 0001 00000000/end/|line 2: Form\n\
    at  40000040 0001 00000000/end/|line 2: Form\n\
    at 40000040 0001 00000000 0/end/|line 2: Form\n\
    at 400000040 0001 00000000/end/|line 2: Form\n\
    at 4000040 0001 00000000/end/|line 2: Form\n\
    at 40000040 00001 00000000/end/|line 2: Form\n\
    at 40000040 001 00000000/end/|line 2: Form\n\
    at 40000040 0001 000000000/end/|line 2: Form\n\
    at 40000040 000g 00000000/end/|line 2: Form\n\
    at 40000040 000A 00000000/end/|line 2: Form\n\
    at 40000040 0001 0000000C/end/|line 2: Form\n\
    at 0x000040 0001 00000000/end/|line 2: Form\n\
    at +0000040 0001 00000000/end/|line 2: Form\n\
    at 40000040 0001 -0000004/end/|line 2: Form\n\
    at 40000040 00000000 0001/end/|line 2: Form\n\
    at/end/|line 2: Form\n\
    /end/|line 2: Form\n\
    end /|line 2: Form\n\
    \x20end/|line 2: Form\n\
    END/|line 2: Form\n\
    at 40000040 0001 00000000|line 2: Form\n\
    site main+0/end/|line 2: Form\n\
    rvcfi-map 1/end/|line 2: Form\n\
    at 00000000 0001 00000000/end/|line 2: Range\n\
    at ffffffff 0001 00000000/end/|line 2: Range\n\
    at fffffffc 0001 00000000/end/|line 2: Range\n\
    at 40000041 0001 00000000/end/|line 2: Range\n\
    at 40000043 0001 00000000/end/|line 2: Range\n\
    at 40000000 0001 00000000/end/|line 2: Range\n\
    at 40000040 0001 00000001/end/|line 2: Range\n\
    at 40000040 0001 ffffffff/end/|line 2: Range\n\
    at 400ffffe 0001 00000000/end/|line 2: Range\n\
    at 40000040 0000 00000000/end/|a map\n\
    at 40000044 0001 00000000/end/|a map\n\
    at 40000040 0001 00000000/at 400ffffc 0001 fffffffc/end/|a map\n\
    at 40000040 0001 fffffffc/at 40000044 0002 00000000/at 40000048 0002 00000004/end/|a map\n\
    at 40000040 00ff 00000000/at 40000044 0100 00000000/end/|a map\n\
    at 40000044 0001 00000000/at 40000040 0001 00000004/end/|line 3: Order\n\
    at 40000040 0001 00000000/at 40000044 0001 00000004/at 40000044 0001 00000008/end/|line 4: Order\n\
    at 40000040 0002 00000004/at 40000044 0001 00000008/end/|line 3: Order\n\
    at 40000040 0001 00000000/at 40000040 0001 00000000/end/|line 3: Order\n\
    at 40000040 0001 00000000/at 3ffffffc 0000 00000000/end/|line 3: Range\n\
    at 40000040 0001 00000000/at 40000044 0001 00000004/at 40000048 0001 00000004/x/end/|line 4: Order\n\
";

/// The same of the forms for several harts, whose gates begin 16 bytes later.
const TEXTS_OF_HARTS: &[u8] = b"\
    end/|a map\n\
    |line 2: Form\n\
    end|line 2: Form\n\
    end//|line 3: Form\n\
    at 40000050 0001 00000000/end/|a map\n\
    at 400ffffc ffff fffffffc/end/|a map\n\
    at 40000050 0001 00000000/at 40000054 0001 00000004/end/|a map\n\
    at 40000050 0001 00000008/at 40000054 0002 00000000/end/|a map\n\
    at 40000040 0001 00000000/end/|line 2: Range\n\
    at 40000044 0001 00000000/end/|line 2: Range\n\
    at 40000048 0001 00000000/end/|line 2: Range\n\
    at 4000004c 0001 00000000/end/|line 2: Range\n\
    at 4000004e 0001 00000000/end/|line 2: Range\n\
    at 40000051 0001 00000000/end/|line 2: Range\n\
    at 40000052 0001 00000000/end/|line 2: Range\n\
    at 40100000 0001 00000000/end/|line 2: Range\n\
    at 40000050 0001 00000002/end/|line 2: Range\n\
    at 40000050 0001 00000000/at 4000004c 0001 00000004/end/|line 3: Range\n\
    at 40000054 0001 00000000/at 40000050 0001 00000004/end/|line 3: Order\n\
    at 40000050 0001 00000000/at 40000050 0001 00000004/end/|line 3: Order\n\
    at 40000050 0002 00000000/at 40000054 0001 00000004/end/|line 3: Order\n\
    at 40000050 1 00000000/end/|line 2: Form\n\
    at 40000050 0001 00000000/|line 3: Form\n\
    at 40000050 0001 00000000/end/x|line 4: Form\n\
    harts/end/|line 2: Form\n\
    rvcfi-map 2 harts/end/|line 2: Form\n\
";

/// First lines that no map has.
const FIRST_LINES: &[u8] = b"\
    rvcfi-map 2\n\
    rvcfi-map 2 plain\n\
    rvcfi-map 1 harts\n\
    rvcfi-map 1 plain\n\
    rvcfi-map 2 hart\n\
    rvcfi-map 2 hartss\n\
    rvcfi-map 2 Harts\n\
    rvcfi-map 2 harts \n\
    rvcfi-map 2  harts\n\
    rvcfi-map 3 harts\n\
    rvcfi-map 1 split\n\
    rvcfi-map 2 splits\n\
    rvcfi-map 2 split \n\
    rvcfi-map 3 split\n\
    rvcfi-map 2 harts split\n\
    rvcfi-map 2 split harts\n\
    rvcfi-map 2 split-harts\n\
    rvcfi-map 2 harts_split\n\
    rvcfi-map 2 harts-\n\
    rvcfi-map 1 harts-split\n\
    rvcfi-map harts\n\
    rvcfi-map\n\
    rvcfi-graph 1\n\
    rvcfi-graph 2\n\
    rvcfi-script 2\n\
    rvcfi-policy 1\n\
    end\n\
";

/// Whether a text is read as a map of a form, or as these words say. A map that is read is written as the same text.
fn is_read_as(alloc: Global, form: Form, text: &[u8], expected: &str) -> bool {
    match read_map(alloc, text) {
        Ok(map) => { expected == "a map" && map.form() == form && is_written_as(alloc, &map, text) }
        Err(end) => is_told_as(alloc, &end, expected),
    }
}

/// Whether a text is that of a map.
fn is_written_as(alloc: Global, map: &Map, text: &[u8]) -> bool {
    match write_map(alloc, map) {
        Ok(written) => written.as_slice() == text,
        Err(_) => false,
    }
}

/// The text of a row, with the first line of a form's maps.
fn text_of(alloc: Global, form: Form, rest: &str) -> Result<Vec<u8>, AllocError> {
    match form {
        Form::Plain => [b"rvcfi-map 1\n", rest.as_bytes()].concat(alloc),
        Form::Harts => [b"rvcfi-map 2 harts\n", rest.as_bytes()].concat(alloc),
        Form::Split => [b"rvcfi-map 2 split\n", rest.as_bytes()].concat(alloc),
        Form::HartsSplit => [b"rvcfi-map 2 harts-split\n", rest.as_bytes()].concat(alloc),
        Form::Lean => [b"rvcfi-map 2 lean\n", rest.as_bytes()].concat(alloc),
        Form::HartsLean => [b"rvcfi-map 2 harts-lean\n", rest.as_bytes()].concat(alloc),
    }
}

/// Whether a row says what its text is read as, behind a form's first line.
fn is_right(alloc: Global, form: Form, row: &str) -> bool {
    let Some((rest, expected)) = row.split_once('|') else {
        return false;
    };
    match text_of(alloc, form, rest) {
        Ok(mut text) => {
            crate::graph::break_lines(&mut text);
            is_read_as(alloc, form, &text, expected)
        }
        Err(_) => false,
    }
}

#[test]
fn map_texts(rt: HostRuntime) {
    for row in rows(TEXTS, 72).lines() {
        assert!(rt; is_right(rt.alloc(), Form::Plain, row), "{row}");
        assert!(rt; is_right(rt.alloc(), Form::Split, row), "{row}");
    }
}

#[test]
fn map_texts_of_harts(rt: HostRuntime) {
    for row in rows(TEXTS_OF_HARTS, 26).lines() {
        assert!(rt; is_right(rt.alloc(), Form::Harts, row), "{row}");
        assert!(rt; is_right(rt.alloc(), Form::HartsSplit, row), "{row}");
    }
}

/// Whether a first line is refused before a line that may stand in the maps of all forms.
fn is_no_first_line(alloc: Global, line: &str) -> bool {
    match [line.as_bytes(), b"\nat 40000050 0001 00000000\nend\n"].concat(alloc) {
        Ok(text) => is_read_as(alloc, Form::Plain, &text, "line 1: Form"),
        Err(_) => false,
    }
}

#[test]
fn other_first_lines(rt: HostRuntime) {
    for line in rows(FIRST_LINES, 27).lines() {
        assert!(rt; is_no_first_line(rt.alloc(), line), "{line}");
    }
}

/// Texts whose first line is wrong or does not end.
const NO_MAPS: [&[u8]; 5] = [
    b"",
    b"rvcfi-map 1",
    b"rvcfi-map 2 harts",
    b"rvcfi-map 2\nend\n",
    b"\nend\n",
];

#[test]
fn no_map(rt: HostRuntime) {
    for text in NO_MAPS {
        assert!(rt; is_read_as(rt.alloc(), Form::Plain, text, "line 1: Form"));
    }
}

/// A line.
const LINE: MapLine = MapLine {
    gate: 0x4000_0054,
    section: 1,
    offset: 8,
};

/// That line alone.
fn one_line(alloc: Global) -> Result<MapLines, NoMemory>
    ensures { IfOk result (λ lines. lines ≡ constants.LINE ∷ []) }
{
    let mut lines = Vec::new(alloc);
    lines.push(LINE)?;
    Ok(MapLines::of(lines))
}

/// A map of a form that is made of its parts.
fn made(alloc: Global, form: Form) -> Result<Map, NoMemory> {
    let lines = one_line(alloc)?;
    match form {
        Form::Plain => Map::of(alloc, Form::Plain, lines),
        Form::Harts => Map::of(alloc, Form::Harts, lines),
        Form::Split => Map::of(alloc, Form::Split, lines),
        Form::HartsSplit => Map::of(alloc, Form::HartsSplit, lines),
        Form::Lean => Map::of(alloc, Form::Lean, lines),
        Form::HartsLean => Map::of(alloc, Form::HartsLean, lines),
    }
}

/// Whether a map has the one line of the map above.
fn has_the_line(map: &Map) -> bool {
    if map.lines() != 1 {
        return false;
    }
    let line = map.line(0);
    line.gate == 0x4000_0054 && line.section == 1 && line.offset == 8
}

/// Whether that map has its parts, and is written as its text.
fn is_made_and_written(alloc: Global, form: Form, text: &[u8]) -> bool {
    match made(alloc, form) {
        Ok(map) => { map.form() == form && has_the_line(&map) && is_written_as(alloc, &map, text) }
        Err(_) => false,
    }
}

/// The text of that map, by form.
const MADE: [(Form, &[u8]); 6] = [
    (
        Form::Plain,
        b"rvcfi-map 1\nat 40000054 0001 00000008\nend\n",
    ),
    (
        Form::Harts,
        b"rvcfi-map 2 harts\nat 40000054 0001 00000008\nend\n",
    ),
    (
        Form::Split,
        b"rvcfi-map 2 split\nat 40000054 0001 00000008\nend\n",
    ),
    (
        Form::HartsSplit,
        b"rvcfi-map 2 harts-split\nat 40000054 0001 00000008\nend\n",
    ),
    (
        Form::Lean,
        b"rvcfi-map 2 lean\nat 40000054 0001 00000008\nend\n",
    ),
    (
        Form::HartsLean,
        b"rvcfi-map 2 harts-lean\nat 40000054 0001 00000008\nend\n",
    ),
];

#[test]
fn made_of_parts(rt: HostRuntime) {
    for (form, text) in MADE {
        assert!(rt; is_made_and_written(rt.alloc(), form, text));
    }
}
