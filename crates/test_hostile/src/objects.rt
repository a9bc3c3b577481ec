//! Objects that are hardened, or refused: the one that returns 7, with one change.

use sample_calls::{Source, answers, bytes_of, decoded, put};
use std::alloc::Global;
use tool_io::MemFiles;

/// How long the object's file is made, with zeros at its end or by a cut; the bytes from an offset on, in hexadecimal; and the
/// line that is put.
struct Case(usize, &'static str, &'static str);

/// The object has 384 bytes. Its code is at 64, the symbol `main`, number 1, at 96, and the header of its code at 192. Where it
/// gets a table of relocations, the header of that is its last; at the end are a relocation, and data or symbols.
#[rattlefmt::skip]
static CASES: [Case; 21] = [
    Case(63, "", "refused 1 NotElf\n"),
    Case(384, "4=01", "refused 1 NotElf\n"),
    Case(384, "16=02", "refused 2 NotRelocatable 2\n"),
    Case(384, "18=3e 48=01", "refused 3 NotRiscv 62\n"),
    Case(384, "48=01", "refused 4 Flags 1\n"),
    // The flag of total store ordering (RISC-V ELF psABI, "File Header") is taken.
    Case(384, "48=10", "rewritten code 92 data 0 classes 0 sites 0\n"),
    Case(384, "58=3f", "refused 6 BadTable 0\n"),
    // Writable code, an alignment of three, a group, and code without bytes in the file.
    Case(384, "200=07", "refused 7 SectionKind 1\n"),
    Case(384, "240=03", "refused 7 SectionKind 1\n"),
    Case(384, "196=11", "refused 7 SectionKind 1\n"),
    Case(384, "196=08", "refused 7 SectionKind 1\n"),
    // A function that is found at a run's beginning, a section that is none, and a value past the code's end.
    Case(384, "100=1a", "refused 8 BadSymbol 1\n"),
    Case(384, "102=f3ff", "refused 8 BadSymbol 1\n"),
    Case(384, "104=09", "refused 8 BadSymbol 1\n"),
    // A computed call that links to x5, and an AUIPC alone.
    Case(384, "64=e7820200", "refused 11 BadTransfer 1 0\n"),
    Case(384, "64=17050000", "refused 12 BadPair 1 0\n"),
    // Relocations of the first instruction: of a pointer, of a branch, and of a low part to a symbol that is nowhere.
    Case(
        472,
        "60=05 384=000000000400000000000000000000000000000000000000c0010000000000001800000000000000\
        020000000100000008000000000000001800000000000000 448=000000000000000002000000010000000000000000000000",
        "refused 13 RelocKind 1 0 2\n",
    ),
    Case(
        472,
        "60=05 384=000000000400000000000000000000000000000000000000c0010000000000001800000000000000\
        020000000100000008000000000000001800000000000000 448=000000000000000010000000010000000000000000000000",
        "refused 14 RelocPlace 1 0\n",
    ),
    Case(
        544,
        "60=05 280=d801 288=48 384=000000000400000000000000000000000000000000000000c0010000000000001800000000000000\
        020000000100000008000000000000001800000000000000 448=00000000000000001b000000020000000000000000000000 \
        496=010000001000010000000000000000000000000000000000 524=10",
        "refused 15 Undefined 2\n",
    ),
    // Data, the second section, with a pointer between two instructions; the other headers come after it.
    Case(
        544,
        "60=06 62=04 256=0000000001000000030000000000000000000000000000000002000000000000\
        0800000000000000000000000000000008000000000000000000000000000000\
        0000000002000000000000000000000000000000000000004800000000000000\
        3000000000000000040000000100000008000000000000001800000000000000\
        0000000003000000000000000000000000000000000000007800000000000000\
        0600000000000000000000000000000001000000000000000000000000000000\
        0000000004000000400000000000000000000000000000000802000000000000\
        1800000000000000030000000200000008000000000000001800000000000000 \
        520=000000000000000002000000010000000200000000000000",
        "refused 16 BadCodePointer 2 0\n",
    ),
    Case(384, "", "rewritten code 92 data 0 classes 0 sites 0\n"),
];

/// Makes one change, as `16=02` puts a 2 at offset 16. It is false where the text is not understood, or the change lies past the
/// file's end.
fn change(alloc: Global, file: &mut [u8], text: &str) -> bool {
    let Some((offset, digits)) = text.split_once('=') else {
        return false;
    };
    match (offset.parse::<usize>(), decoded(alloc, digits.as_bytes())) {
        (Ok(at), Ok(bytes)) => put(file, at, &bytes),
        _ => false,
    }
}

/// Makes the changes of a row. It is false where one of them can't be made.
fn change_all(alloc: Global, file: &mut [u8], changes: &str) -> bool {
    for text in changes.split_whitespace() {
        if !change(alloc, file, text) {
            return false;
        }
    }
    true
}

/// The object of its length.
fn resized(alloc: Global, len: usize) -> Option<Vec<u8>> {
    let Ok(mut file) = bytes_of(alloc, Source::Returning) else {
        return None;
    };
    let Ok(()) = file.resize(len, 0) else {
        return None;
    };
    Some(file)
}

/// The object of a row.
fn object(alloc: Global, case: &Case) -> Option<Vec<u8>> {
    let mut file = resized(alloc, case.0)?;
    if change_all(alloc, &mut file, case.1) {
        Some(file)
    } else {
        None
    }
}

/// Whether the tool puts a line of an object, and ends with its status.
fn is_answered(alloc: Global, object: &[u8], text: &str) -> bool {
    let mut files = MemFiles::new(alloc, Vec::new(alloc));
    files.insert("object", object).is_ok()
        && answers(
            alloc,
            "rvcfi,rewrite,object,main,none,image,graph,map",
            &mut files,
            u8::from(text.starts_with("refused")),
            text,
        )
}

/// Whether the line of a row is put.
fn is_right(alloc: Global, case: &Case) -> bool {
    match object(alloc, case) {
        Some(object) => is_answered(alloc, &object, case.2),
        None => false,
    }
}

#[test]
fn objects(rt: HostRuntime) {
    for case in &CASES {
        assert!(rt; is_right(rt.alloc(), case), "{} {}", case.1, case.2);
    }
}
