//! Objects as one program in each form of hardening: image, graph, map and runs, of what is hardened and of the program itself.

use crate::told::joined;
use cfi_graph::write_graph;
use cfi_map_text::write_map;
use cfi_rewrite::{Hardened, rewrite_joined};
use cfi_script::Script;
use cfi_step::{RunEnd, RunReport};
use cfi_verify::verify;
use elf_image::read_image;
use obj_program::Items;
use rv_image::{Form, Image};
use rv_word::NoMemory;
use sample_hardened::put;
use sample_links::{Objects, Run, SUMS, Sum, Sums, WORKED, Worked, files};
use sample_programs::{code, code_of_harts, code_of_harts_lean, code_of_lean};
use sample_runs::run_of;
use sample_source::{Asked, is_told};
use std::alloc::{AllocError, Global};

/// What objects become in a form, which is entered at `main`.
fn hardened(alloc: Global, form: Form, objects: Objects) -> Option<Hardened> {
    let files = files(alloc, objects)?;
    match joined(alloc, &files) {
        Ok(items) => rewrite_joined(alloc, form, &items, "main", None).ok(),
        Err(_) => None,
    }
}

/// The code of a form's prologue and some units.
fn code_in(alloc: Global, form: Form, units: &[u32]) -> Result<Vec<u8>, AllocError> {
    match form {
        Form::Plain | Form::Split => code(alloc, units),
        Form::Harts | Form::HartsSplit => code_of_harts(alloc, units),
        Form::Lean => code_of_lean(alloc, units),
        Form::HartsLean => code_of_harts_lean(alloc, units),
    }
}

/// How many bytes before the units the prologue's call of the entry is a word.
const CALL: usize = 12;

/// Whether a code is that of a row.
fn is_code(alloc: Global, found: &[u8], row: &Worked) -> bool {
    let Ok(mut bytes) = code_in(alloc, row.0, row.2) else {
        return false;
    };
    let units = row.2.len().saturating_mul(4);
    let at = bytes.len().saturating_sub(units).saturating_sub(CALL);
    put(&mut bytes, at, &row.3.to_le_bytes()) && bytes.as_slice() == found
}

/// Whether an image is that of a row.
fn is_image(alloc: Global, image: &Image<'_>, row: &Worked) -> bool {
    image.version() == row.0.image_version()
        && is_code(alloc, image.code(), row)
        && image.init() == row.4
}

/// Whether a text is this one.
fn is_text(written: Result<Vec<u8>, NoMemory>, text: &[u8]) -> bool {
    match written {
        Ok(written) => written.as_slice() == text,
        Err(_) => false,
    }
}

/// Whether a run ended so, with the one hart's walk.
fn has_ended(report: &RunReport, run: Run) -> bool {
    let walks = report.walks.as_slice();
    report.steps == run.0
        && walks.len() == 1
        && walks.first().is_some_and(|walk| walk.walk == run.1)
        && report.end == RunEnd::Exit(run.2)
        && report.output.is_empty()
}

/// Whether an image is accepted, and runs so by one hart.
fn runs_so(alloc: Global, hardened: &Hardened, image: &Image<'_>, run: Run) -> bool {
    let Ok(checked) = verify(alloc, image, &hardened.graph) else {
        return false;
    };
    match run_of(alloc, &checked, b"", 1, &mut Script::none(alloc), 1_000_000) {
        Some(report) => has_ended(&report, run),
        None => false,
    }
}

/// Whether a hardened program is that of a row.
fn is_worked(alloc: Global, hardened: &Hardened, row: &Worked) -> bool {
    let Ok(image) = read_image(hardened.image.as_slice()) else {
        return false;
    };
    is_image(alloc, &image, row)
        && hardened.map.form() == row.0
        && is_text(write_graph(alloc, &hardened.graph), row.5)
        && is_text(write_map(alloc, &hardened.map), row.6)
        && runs_so(alloc, hardened, &image, row.7)
}

/// Whether a program becomes what a row says, and runs so at the row's map before it is hardened.
fn becomes(alloc: Global, items: &Items, row: &Worked, told: &str) -> bool {
    let asked = Asked {
        entry: b"main",
        policy: b"",
        map: row.6,
        input: b"",
        output: b"",
        told,
    };
    match rewrite_joined(alloc, row.0, items, "main", None) {
        Ok(hardened) => is_worked(alloc, &hardened, row) && is_told(alloc, items, &asked),
        Err(_) => false,
    }
}

/// Whether it becomes what each row says.
fn becomes_each(alloc: Global, items: &Items, rows: &[Worked], told: &str) -> bool {
    for row in rows {
        if !becomes(alloc, items, row, told) {
            return false;
        }
    }
    true
}

/// Whether these objects, which are joined once, are a program of which this holds.
fn become_each(alloc: Global, objects: Objects, rows: &[Worked], told: &str) -> bool {
    let Some(files) = files(alloc, objects) else {
        return false;
    };
    match joined(alloc, &files) {
        Ok(items) => becomes_each(alloc, &items, rows, told),
        Err(_) => false,
    }
}

/// The source machine's steps are the instructions of the objects in the order in which they run, and that of the closing.
#[test]
fn hardens_one_program_in_each_form(rt: HostRuntime) {
    assert!(rt; become_each(rt.alloc(), Objects::Pair, &WORKED[..4], "exit 3 after 9"));
    assert!(rt; become_each(rt.alloc(), Objects::Table, &WORKED[4..], "exit 4 after 6"));
}

/// The FNV-1a hash of bytes, with 64 bits.
fn hash(bytes: &[u8]) -> u64 {
    let mut hash: u64 = 0xcbf2_9ce4_8422_2325;
    for byte in bytes {
        hash = (hash ^ u64::from(*byte)).wrapping_mul(0x0000_0100_0000_01b3);
    }
    hash
}

/// Whether bytes are so many and have this hash.
fn has_sum(bytes: &[u8], sum: Sum) -> bool {
    bytes.len() == sum.0 && hash(bytes) == sum.1
}

/// Whether a text is so long and has this hash.
fn text_has_sum(written: Result<Vec<u8>, NoMemory>, sum: Sum) -> bool {
    match written {
        Ok(written) => has_sum(&written, sum),
        Err(_) => false,
    }
}

/// Whether the image of a hardened program is accepted, and runs as a row says.
fn runs_as(alloc: Global, hardened: &Hardened, row: &Sums) -> bool {
    match read_image(hardened.image.as_slice()) {
        Ok(image) => runs_so(alloc, hardened, &image, row.5),
        Err(_) => false,
    }
}

/// Whether a hardened program has the sums of a row, and runs as it says.
fn is_summed(alloc: Global, hardened: &Hardened, row: &Sums) -> bool {
    has_sum(hardened.image.as_slice(), row.2)
        && text_has_sum(write_graph(alloc, &hardened.graph), row.3)
        && text_has_sum(write_map(alloc, &hardened.map), row.4)
        && runs_as(alloc, hardened, row)
}

/// Whether objects of a compiler become what a row says.
fn become_summed(alloc: Global, row: &Sums) -> bool {
    match hardened(alloc, row.0, row.1) {
        Some(hardened) => is_summed(alloc, &hardened, row),
        None => false,
    }
}

#[test]
fn hardens_objects_of_compilers(rt: HostRuntime) {
    for (k, row) in SUMS.iter().enumerate() {
        assert!(rt; become_summed(rt.alloc(), row), "{}, {k}", row.0.name());
    }
}
