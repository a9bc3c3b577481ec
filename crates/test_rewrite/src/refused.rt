use crate::given::{FORMS, answer};
use rv_image::Form;
use rv_word::End;
use sample_hardened::{Given, Source, file};
use sample_programs::is_told_as;
use std::alloc::Global;

/// What is refused, and in which words.
struct Refused(Given, &'static str);

const POLICY_PLACE: &[u8] = b"rvcfi-policy 1\nsite main+14 f+0\nend\n";

#[rattlefmt::skip]
static REFUSED: [Refused; 33] = [
    Refused(Given(Source::Empty, 0, b"", "main", None), "NotElf"),
    Refused(Given(Source::Returning, 4, b"01", "main", None), "NotElf"),
    Refused(Given(Source::Returning, 16, b"0200", "main", None), "NotRelocatable 2"),
    Refused(Given(Source::Returning, 18, b"3e00", "main", None), "NotRiscv 62"),
    Refused(Given(Source::Returning, 48, b"01000000", "main", None), "Flags 1"),
    // Ten sections from an offset after the file's end.
    Refused(
        Given(Source::Returning, 40, b"000200000000000000000000400000000000\
            40000a00", "main", None),
        "Truncated 512",
    ),
    Refused(Given(Source::Returning, 64, b"130f100067800000", "main", None), "ReservedRegister 1 0"),
    Refused(Given(Source::Returning, 64, b"130f100000000000", "main", None), "Undecodable 1 4 0"),
    Refused(Given(Source::Returning, 64, b"130f100067800000", "nain", None), "ReservedRegister 1 0"),
    Refused(Given(Source::Returning, 0, b"", "nain", None), "NoEntry"),
    Refused(Given(Source::Returning, 0, b"", "mai", None), "NoEntry"),
    Refused(Given(Source::Returning, 0, b"", "", None), "NoEntry"),
    Refused(Given(Source::Calling, 0, b"", "ptr", None), "NoEntry"),
    Refused(Given(Source::Recursive, 0, b"", "limit", None), "NoEntry"),
    Refused(Given(Source::Calling, 0, b"", "nain", Some(POLICY_PLACE)), "NoEntry"),
    Refused(Given(Source::Calling, 0, b"", "main", Some(POLICY_PLACE)), "Policy 2"),
    Refused(Given(Source::Calling, 0, b"", "main", Some(b"")), "Policy 1"),
    Refused(Given(Source::Calling, 0, b"", "main", Some(b"rvcfi-policy 1\n")), "Policy 2"),
    Refused(
        Given(Source::Calling, 0, b"", "main", Some(b"rvcfi-policy 1\nsite main+10 h+0\nend\n")),
        "Policy 2",
    ),
    Refused(
        Given(Source::Calling, 0, b"", "main", Some(b"rvcfi-policy 1\nsite main+10 f+2\nend\n")),
        "Policy 2",
    ),
    Refused(
        Given(Source::Calling, 0, b"", "main", Some(b"rvcfi-policy 1\nsite main+10 f+0\nsite main+10 g+0\nend\n")),
        "Policy 3",
    ),
    // Lists of system calls: none where one has to stand, one where none may, too large, falling, twice; and a wrong line behind one.
    Refused(Given(Source::Calling, 0, b"", "main", Some(b"rvcfi-policy 2\nend\n")), "Policy 2"),
    Refused(Given(Source::Calling, 0, b"", "main", Some(b"rvcfi-policy 2\n")), "Policy 2"),
    Refused(Given(Source::Calling, 0, b"", "main", Some(b"rvcfi-policy 1\ncalls 64\nend\n")), "Policy 2"),
    Refused(Given(Source::Calling, 0, b"", "main", Some(b"rvcfi-policy 2\ncalls 2048\nend\n")), "Policy 2"),
    Refused(Given(Source::Calling, 0, b"", "main", Some(b"rvcfi-policy 2\ncalls 64 63\nend\n")), "Policy 2"),
    Refused(Given(Source::Calling, 0, b"", "main", Some(b"rvcfi-policy 2\ncalls 64\ncalls 64\nend\n")), "Policy 3"),
    Refused(
        Given(Source::Calling, 0, b"", "main", Some(b"rvcfi-policy 2\ncalls 64\nsite main+14 f+0\nend\n")),
        "Policy 3",
    ),
    // Data without bytes in the file that end one byte, and much, too far.
    Refused(
        Given(
            Source::Writing,
            556,
            b"08000000020000000000000000000000000000008000000000000000\
            0100ef0f00000000",
            "main",
            None,
        ),
        "DataTooLarge 0 267386881",
    ),
    Refused(
        Given(
            Source::Writing,
            556,
            b"08000000020000000000000000000000000000008000000000000000\
            0000f00f00000000",
            "main",
            None,
        ),
        "DataTooLarge 0 267452416",
    ),
    // 600 sections of data that are the same 56,000 bytes, and as many that leave no room for all data.
    Refused(Given(Source::Shared(600), 0, b"", "main", None), "DataTooLarge 33600000 33665536"),
    Refused(Given(Source::Shared(65_000), 0, b"", "main", None), "DataTooLarge 3640000000 3640065536"),
    // An AUIPC that is to reach four gigabytes further.
    Refused(Given(Source::Writing, 200, b"0000000001000000", "main", None), "RelocRange 1 32"),
];

/// One instruction more than the region of code has room for, by form; in those where two words lead each of two targets also
/// where one word would not be too many; and stores of which there would be room for many more behind masks that they share.
#[rattlefmt::skip]
static TOO_MANY: [(Form, Refused); 11] = [
    (Form::Plain, Refused(Given(Source::Idle(262_128), 0, b"", "main", None), "CodeTooLarge 1048580")),
    (Form::Harts, Refused(Given(Source::Idle(262_124), 0, b"", "main", None), "CodeTooLarge 1048580")),
    (Form::Split, Refused(Given(Source::Idle(262_128), 0, b"", "main", None), "CodeTooLarge 1048580")),
    (Form::HartsSplit, Refused(Given(Source::Idle(262_124), 0, b"", "main", None), "CodeTooLarge 1048580")),
    (Form::Plain, Refused(Given(Source::Padded(262_074), 0, b"", "main", None), "CodeTooLarge 1048580")),
    (Form::Split, Refused(Given(Source::Padded(262_072), 0, b"", "main", None), "CodeTooLarge 1048580")),
    (Form::HartsSplit, Refused(Given(Source::Padded(262_068), 0, b"", "main", None), "CodeTooLarge 1048580")),
    (Form::Plain, Refused(Given(Source::Storing(0x0000_0013, 65_531), 0, b"", "main", None), "CodeTooLarge 1048588")),
    (Form::Harts, Refused(Given(Source::Storing(0x0000_0013, 65_530), 0, b"", "main", None), "CodeTooLarge 1048588")),
    (Form::Split, Refused(Given(Source::Storing(0x0000_0013, 65_531), 0, b"", "main", None), "CodeTooLarge 1048588")),
    (Form::HartsSplit, Refused(Given(Source::Storing(0x0000_0013, 65_530), 0, b"", "main", None), "CodeTooLarge 1048588")),
];

/// Whether a file is refused in a form in these words.
fn is_refused(alloc: Global, form: Form, file: &[u8], given: &Given, words: &str) -> bool {
    match answer(alloc, form, file, given) {
        Ok(_) | Err(End::NoMemory) => false,
        Err(End::Fault(refusal)) => is_told_as(alloc, &refusal, words),
    }
}

/// Whether an object is refused in a form as its row says.
fn is_right(alloc: Global, form: Form, row: &Refused) -> bool {
    match file(alloc, &row.0) {
        Some(file) => is_refused(alloc, form, &file, &row.0, row.1),
        None => false,
    }
}

/// In each form the same is refused in the same words.
#[test]
fn refuses(rt: HostRuntime) {
    for form in FORMS {
        for (k, row) in REFUSED.iter().enumerate() {
            assert!(rt;
                is_right(rt.alloc(), form, row),
                "{}, {k}: {}",
                form.name(),
                row.1
            );
        }
    }
}

#[test]
fn one_too_many(rt: HostRuntime) {
    for (k, row) in TOO_MANY.iter().enumerate() {
        assert!(rt;
            is_right(rt.alloc(), row.0, &row.1),
            "{}, {k}",
            row.0.name()
        );
    }
}
