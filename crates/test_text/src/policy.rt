use crate::graph::is_list;
use cfi_policy::{PlaceName, Policy, read_policy, read_policy_part};
use sample_programs::{is_told_as, rows};
use std::alloc::{AllocError, Global};

/// A text after its first line, with `/` for each newline, how many lines are right, and as what the text
/// is refused, if it is.
const TEXTS: &[u8] = b"\
    end/|0|\n\
    |0|line 2: Form\n\
    end//|0|line 3: Form\n\
    site main+1c f+0/end/|1|\n\
    site main+1C/site b+FFFFFFFF a+b+7 c+4/end/|2|\n\
    site main+1c f+0/site g+4 h+00/end/|1|line 3: Form\n\
    site main+1c f+0/site g+4 h/end/|1|line 3: Form\n\
    site main+1c f+0/site g+4 +4/end/|1|line 3: Form\n\
    site main+1c f+0/site g+4 h+/end/|1|line 3: Form\n\
    site main+1c f+0/site g+4 h+100000000/end/|1|line 3: Form\n\
    site main+1c f+0/site g+4  h+4/end/|1|line 3: Form\n\
    site main+1c f+0/site/end/|1|line 3: Form\n\
    site main+1c f+0/sites g+4/end/|1|line 3: Form\n\
    site main+1c f+0/site g+4 h+0|1|line 3: Form\n\
    site main+1c f+0/site g+4 h+0/|2|line 4: Form\n\
    site main+0/end/|1|\n\
    site main+0 main+0 main+0/end/|1|\n\
    site main+0/site main+0/end/|2|\n\
    site a+1/site a+12/site a+123/site a+1234/site a+12345/site a+123456/site a+1234567/site a+12345678/end/|8|\n\
    site a+123456789/end/|0|line 2: Form\n\
    site a+01/end/|0|line 2: Form\n\
    site a+00/end/|0|line 2: Form\n\
    site a+ffffffff/end/|1|\n\
    site a+aBcDeF/end/|1|\n\
    site a+g/end/|0|line 2: Form\n\
    site a+0x4/end/|0|line 2: Form\n\
    site a+-4/end/|0|line 2: Form\n\
    site a++4/end/|1|\n\
    site ++4/end/|1|\n\
    site +4/end/|0|line 2: Form\n\
    site +/end/|0|line 2: Form\n\
    site a/end/|0|line 2: Form\n\
    site a+/end/|0|line 2: Form\n\
    site a+4+/end/|0|line 2: Form\n\
    site a+b+c/end/|1|\n\
    site a+4 b/end/|0|line 2: Form\n\
    site a+4 b+/end/|0|line 2: Form\n\
    site a+4  b+4/end/|0|line 2: Form\n\
    site a+4 /end/|0|line 2: Form\n\
    \x20site a+4/end/|0|line 2: Form\n\
    site  a+4/end/|0|line 2: Form\n\
    Site a+4/end/|0|line 2: Form\n\
    site/end/|0|line 2: Form\n\
    site /end/|0|line 2: Form\n\
    sitea+4/end/|0|line 2: Form\n\
    edge a+4 b+4/end/|0|line 2: Form\n\
    class 00001/end/|0|line 2: Form\n\
    calls 64 93/end/|0|line 2: Form\n\
    /end/|0|line 2: Form\n\
    site a+4//end/|1|line 3: Form\n\
    site a+4/end|1|line 3: Form\n\
    site a+4/end/x/|1|line 4: Form\n\
    site a+4/end//|1|line 4: Form\n\
    site a+4/END/|1|line 3: Form\n\
    site a+4/end /|1|line 3: Form\n\
    site a+4|0|line 2: Form\n\
    end|0|line 2: Form\n\
    end /|0|line 2: Form\n\
    site a+4 b+4 c+4 d+4 e+4/end/|1|\n\
    site a.b$c+4 __x+0/end/|1|\n\
    site 4+4/end/|1|\n\
    site a+4/site b+4 c+zz/site d+4/end/|1|line 3: Form\n\
    site a+4/site b+4/site c/end/|2|line 4: Form\n\
    site a+4 b+4/site c+4 d+04/end/|1|line 3: Form\n\
    site main+10 f+0/end/|1|\n\
    site main+14 f+0/end/|1|\n\
    site \xc3\xa9+4/end/|1|\n\
";

/// The same of version 2, whose second line is a list of system calls.
const TEXTS_OF_2: &[u8] = b"\
    calls 64 93/end/|0|\n\
    calls 0/site a+4/end/|1|\n\
    calls 2047/site a+4/site b+4/end/|2|\n\
    calls 1 2 3 4 5 6 7 8/end/|0|\n\
    calls 1 2 3 4 5 6 7 8 9/end/|0|line 2: Form\n\
    |0|line 2: Form\n\
    end/|0|line 2: Form\n\
    site a+4/end/|0|line 2: Form\n\
    site a+4/calls 64/end/|0|line 2: Form\n\
    calls/end/|0|line 2: Form\n\
    calls |0|line 2: Form\n\
    calls 64|0|line 2: Form\n\
    calls 64/|0|line 3: Form\n\
    calls 64/site a+4|0|line 3: Form\n\
    calls 64/site a+4/|1|line 4: Form\n\
    calls 064/end/|0|line 2: Form\n\
    calls 00/end/|0|line 2: Form\n\
    calls 64 /end/|0|line 2: Form\n\
    calls 2048/end/|0|line 2: Range\n\
    calls 64 99999999999999999999/end/|0|line 2: Range\n\
    calls 93 64/end/|0|line 2: Order\n\
    calls 64 64/end/|0|line 2: Order\n\
    calls 64/calls 64/end/|0|line 3: Form\n\
    calls 64/site a+4/calls 64/end/|1|line 4: Form\n\
    calls 64/site a/end/|0|line 3: Form\n\
    calls 64/edge a+4 b+4/end/|0|line 3: Form\n\
    calls 64/end/x|0|line 4: Form\n\
";

/// Whether a text is read as these words say, up to a fault and as a whole.
fn is_read_as(alloc: Global, text: &[u8], count: &str, expected: &str) -> bool {
    let (policy, end) = read_policy_part(alloc, text);
    match end {
        Ok(()) => expected.is_empty() && is_told_as(alloc, &policy.lines(), count),
        Err(end) => {
            is_told_as(alloc, &end, expected)
                && is_told_as(alloc, &policy.lines(), count)
                && is_refused_as(alloc, text, expected)
        }
    }
}

/// Whether a text is refused so.
fn is_refused_as(alloc: Global, text: &[u8], expected: &str) -> bool {
    match read_policy(alloc, text) {
        Ok(_) => false,
        Err(end) => is_told_as(alloc, &end, expected),
    }
}

/// The first line of version 1, and of version 2.
const FIRST: &[u8] = b"rvcfi-policy 1\n";

const FIRST_OF_2: &[u8] = b"rvcfi-policy 2\n";

/// The text of a row, with its first line.
fn text_of(alloc: Global, first: &[u8], rest: &str) -> Result<Vec<u8>, AllocError> {
    [first, rest.as_bytes()].concat(alloc)
}

/// Whether a row says what its text is read as.
fn is_right(alloc: Global, first: &[u8], row: &str) -> bool {
    let Some((rest, expected)) = row.split_once('|') else {
        return false;
    };
    let Some((count, expected)) = expected.split_once('|') else {
        return false;
    };
    match text_of(alloc, first, rest) {
        Ok(mut text) => {
            crate::graph::break_lines(&mut text);
            is_read_as(alloc, &text, count, expected)
        }
        Err(_) => false,
    }
}

#[test]
fn policy_texts(rt: HostRuntime) {
    for row in rows(TEXTS, 67).lines() {
        assert!(rt; is_right(rt.alloc(), FIRST, row), "{row}");
    }
}

#[test]
fn policy_texts_of_version_2(rt: HostRuntime) {
    for row in rows(TEXTS_OF_2, 27).lines() {
        assert!(rt; is_right(rt.alloc(), FIRST_OF_2, row), "{row}");
    }
}

/// Whether a policy has a list of system calls with these numbers, or none.
fn has_calls(alloc: Global, text: &[u8], expected: Option<&[u16]>) -> bool {
    match read_policy(alloc, text) {
        Ok(policy) => is_list(policy.calls(), expected),
        Err(_) => false,
    }
}

/// Whether what is read up to a fault has these numbers.
fn has_calls_before(alloc: Global, text: &[u8], expected: Option<&[u16]>) -> bool {
    let (policy, end) = read_policy_part(alloc, text);
    end.is_err() && is_list(policy.calls(), expected)
}

const LISTED: &[u8] = b"rvcfi-policy 2\ncalls 64 93\nsite a+4\nend\n";

#[test]
fn calls(rt: HostRuntime) {
    assert!(rt; has_calls(rt.alloc(), LISTED, Some(&[64, 93])));
    assert!(rt; has_calls(rt.alloc(), b"rvcfi-policy 1\nend\n", None));
    assert!(rt; has_calls_before(rt.alloc(), b"rvcfi-policy 2\ncalls 64\nsite\n", Some(&[64])));
    assert!(rt; has_calls_before(rt.alloc(), b"rvcfi-policy 2\ncalls 64 64\n", None));
}

/// Whether a place has this name.
fn is_place(place: &PlaceName, symbol: &[u8], offset: u32) -> bool {
    place.symbol.as_slice() == symbol && place.offset == offset
}

/// Whether a policy has the one line of the worked text.
fn has_the_line(policy: &Policy) -> bool {
    let Some(line) = policy.as_slice().first() else {
        return false;
    };
    let Some(target) = line.targets.as_slice().first() else {
        return false;
    };
    is_place(&line.site, b"a+b", 0x1c) && is_place(target, b"f", 4)
}

/// Whether the worked text is read as its line.
fn is_worked(alloc: Global) -> bool {
    match read_policy(alloc, b"rvcfi-policy 1\nsite a+b+1C f+4\nend\n") {
        Ok(policy) => has_the_line(&policy),
        Err(_) => false,
    }
}

#[test]
fn names(rt: HostRuntime) {
    assert!(rt; is_worked(rt.alloc()));
    assert!(rt; Policy::none(rt.alloc()).lines() == 0);
    assert!(rt; is_list(Policy::none(rt.alloc()).calls(), None));
}
