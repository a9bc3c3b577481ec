//! Command lines, with what each is read as.

use std::alloc::Global;
use tool_words::{Asked, WordsEnd, read_words};

/// Command lines, each with what it is read as: the name of a command and its words, a text, or that it is not taken. Words have a
/// comma between each two.
const ROWS: &[u8] = b"\
    rvcfi,rewrite,o,e,p,i,g,m = rewrite,o,e,p,i,g,m;\
    rvcfi,verify,i,g = verify,i,g;\
    rvcfi,run,i,g,none,in,100 = run,i,g,none,in,100;\
    rvcfi,compare,o,e,none,i,m,in,7 = compare,o,e,none,i,m,in,7;\
    rvcfi,demo,1 = demo,1;\
    rvcfi,harden,f,o,e,p,i,g,m = harden,f,o,e,p,i,g,m;\
    rvcfi,harden,plain,o,e,--,-p,i,g,--help = harden,plain,o,e,-p,i,g,--help;\
    rvcfi,harden,,o,e,p,i,i,i = harden,,o,e,p,i,i,i;\
    ,verify,i,g = verify,i,g;\
    ./bin/rvcfi,verify,i,i = verify,i,i;\
    rvcfi,verify,verify,help = verify,verify,help;\
    rvcfi,verify,,g = verify,,g;\
    rvcfi,verify,-,g = verify,-,g;\
    rvcfi,verify,--,-i,--help = verify,-i,--help;\
    rvcfi,verify,i,--,-g = verify,i,-g;\
    rvcfi,verify,i,g,-- = verify,i,g;\
    rvcfi,verify,--,-- = refused;\
    rvcfi,verify,i,--,-- = verify,i,--;\
    rvcfi,demo,x = demo,x;\
    rvcfi,rewrite,o,e,p,i,i,i = rewrite,o,e,p,i,i,i;\
    rvcfi,verify,i = refused;\
    rvcfi,verify,i,g,x = refused;\
    rvcfi,run,i,g,s,in = refused;\
    rvcfi,rewrite,o,e,p,i,g = refused;\
    rvcfi,compare,o,e,p,i,m,in,7,8 = refused;\
    rvcfi,demo = refused;\
    rvcfi,harden,o,e,p,i,g,m = refused;\
    rvcfi,harden,f,o,e,p,i,g,m,x = refused;\
    rvcfi,harden = refused;\
    rvcfi,harden,-f,o,e,p,i,g,m = refused;\
    rvcfi,Harden,f,o,e,p,i,g,m = refused;\
    rvcfi,rewrite,f,o,e,p,i,g,m = refused;\
    rvcfi,verify,-x,g = refused;\
    rvcfi,verify,i,--graph = refused;\
    rvcfi,verify,i,-- = refused;\
    rvcfi,verif,i,g = refused;\
    rvcfi,Verify,i,g = refused;\
    rvcfi,--,verify,i,g = refused;\
    rvcfi,-x,verify,i,g = refused;\
    rvcfi, = refused;\
    rvcfi = refused;\
    rvcfi,x = refused;\
    rvcfi,help = refused;\
    rvcfi,verify,--version = refused;\
    rvcfi,--help = help;\
    rvcfi,-h = help;\
    rvcfi,--help,verify = refused;\
    rvcfi,-h,-h = refused;\
    rvcfi,-hV = refused;\
    rvcfi,--help=1 = refused;\
    rvcfi,verify,--help = help;\
    rvcfi,rewrite,-h = help;\
    rvcfi,run,--help = help;\
    rvcfi,compare,-h = help;\
    ,demo,--help = help;\
    rvcfi,harden,-h = help;\
    rvcfi,harden,plain,-h = refused;\
    rvcfi,verif,-h = refused;\
    rvcfi,verify,-V = refused;\
    rvcfi,verify,-hh = refused;\
    rvcfi,verify,i,-h = refused;\
    rvcfi,verify,-h,g = refused;\
    rvcfi,verify,-h,-h = refused;\
    rvcfi,verify,-h,-- = refused;\
    rvcfi,verify,--,-h = refused;\
    rvcfi,verify,--,-h,-V = verify,-h,-V;\
    rvcfi,--,-h = refused;\
    rvcfi,verify,i,g,--help = refused;\
    rvcfi,verify,i,g,x,--help = refused;\
    rvcfi,link,f,e,p,i,g,m,o = link,f,e,p,i,g,m,o;\
    rvcfi,link,f,e,p,i,g,m,o,q,r = link,f,e,p,i,g,m,o,q,r;\
    rvcfi,link,,e,p,i,i,i,o,,o = link,,e,p,i,i,i,o,,o;\
    rvcfi,link,f,e,p,i,g,m,-,link,help = link,f,e,p,i,g,m,-,link,help;\
    rvcfi,link,--,-f,e,p,i,g,m,o,-q = link,-f,e,p,i,g,m,o,-q;\
    rvcfi,link,f,e,--,-p,i,g,--help,o,-q = link,f,e,-p,i,g,--help,o,-q;\
    rvcfi,link,f,e,p,i,g,m,--,-o,q,--help = link,f,e,p,i,g,m,-o,q,--help;\
    rvcfi,link,f,e,p,i,g,m,o,--,-q,r = link,f,e,p,i,g,m,o,-q,r;\
    rvcfi,link,f,e,p,i,g,m,o,q,--,-r = link,f,e,p,i,g,m,o,q,-r;\
    rvcfi,link,f,e,p,i,g,m,o,q,r,-- = link,f,e,p,i,g,m,o,q,r;\
    rvcfi,link,f,e,p,i,g,m,o,--,--,-- = link,f,e,p,i,g,m,o,--,--;\
    rvcfi,link,f,e,p,i,g,m = refused;\
    rvcfi,link,f,e,p,i,g,m,-- = refused;\
    rvcfi,link,f,e,p,i,g,--,m = refused;\
    rvcfi,link,f = refused;\
    rvcfi,link = refused;\
    rvcfi,link,-- = refused;\
    rvcfi,link,-f,e,p,i,g,m,o = refused;\
    rvcfi,link,f,e,p,i,g,-m,o = refused;\
    rvcfi,link,f,e,p,i,g,m,-o = refused;\
    rvcfi,link,f,e,p,i,g,m,o,-q,r = refused;\
    rvcfi,link,f,e,p,i,g,m,o,q,--object = refused;\
    rvcfi,link,f,e,p,i,g,m,o,q,--OBJECT=r = refused;\
    rvcfi,link,f,e,p,i,g,m,o,q,-h = refused;\
    rvcfi,link,f,e,p,i,g,m,o,--help,q = refused;\
    rvcfi,link,f,e,p,i,g,m,o,-V = refused;\
    rvcfi,--,link,f,e,p,i,g,m,o = refused;\
    rvcfi,Link,f,e,p,i,g,m,o = refused;\
    rvcfi,links,f,e,p,i,g,m,o = refused;\
    rvcfi,compare-link,e,p,i,m,in,7,o = compare-link,e,p,i,m,in,7,o;\
    rvcfi,compare-link,e,none,i,m,in,7,o,q,r = compare-link,e,none,i,m,in,7,o,q,r;\
    rvcfi,compare-link,e,p,i,i,i,x,,o,o = compare-link,e,p,i,i,i,x,,o,o;\
    rvcfi,compare-link,--,-e,p,i,m,in,7,o,-q = compare-link,-e,p,i,m,in,7,o,-q;\
    rvcfi,compare-link,e,p,--,-i,m,in,-7,--help = compare-link,e,p,-i,m,in,-7,--help;\
    rvcfi,compare-link,e,p,i,m,in,7,--,-o,q = compare-link,e,p,i,m,in,7,-o,q;\
    rvcfi,compare-link,e,p,i,m,in,7,o,--,-q,r = compare-link,e,p,i,m,in,7,o,-q,r;\
    rvcfi,compare-link,e,p,i,m,in,7,o,q,-- = compare-link,e,p,i,m,in,7,o,q;\
    rvcfi,compare-link,e,p,i,m,in,7,o,--,-- = compare-link,e,p,i,m,in,7,o,--;\
    rvcfi,compare-link,e,p,i,m,in,7 = refused;\
    rvcfi,compare-link,e,p,i,m,in,7,-- = refused;\
    rvcfi,compare-link = refused;\
    rvcfi,compare-link,-e,p,i,m,in,7,o = refused;\
    rvcfi,compare-link,e,p,i,m,in,-7,o = refused;\
    rvcfi,compare-link,e,p,i,m,in,7,-o = refused;\
    rvcfi,compare-link,e,p,i,m,in,7,o,q,--r = refused;\
    rvcfi,compare-link,e,p,i,m,in,7,o,-h = refused;\
    rvcfi,compare_link,e,p,i,m,in,7,o = refused;\
    rvcfi,-compare-link,e,p,i,m,in,7,o = refused;\
    rvcfi,compare,link,e,p,i,m,in,7,o = refused;\
    rvcfi,link,--help = help;\
    rvcfi,link,-h = help;\
    ,compare-link,--help = help;\
    rvcfi,compare-link,-h = help;\
    rvcfi,link,--,-h = refused;\
    rvcfi,link,-V = refused;\
    rvcfi,link,f,-h = refused;\
    rvcfi,compare-link,--version = refused;\
    rvcfi,compare-link,-h,e = refused;\
    rvcfi,--help,link = refused;\
    rvcfi,--version = version;\
    rvcfi,-V = version;\
    rvcfi,-V,x = refused;\
    rvcfi,-V,verify,i,g = refused;\
    rvcfi,-Vh = refused";

/// The words of a command line.
fn words(alloc: Global, line: &str) -> Option<Vec<String>> {
    let mut words = Vec::new(alloc);
    for word in line.split(',') {
        words.push(String::from_str(alloc, word).ok()?).ok()?;
    }
    Some(words)
}

/// Objects, each behind a comma.
fn objects(alloc: Global, names: &[&str]) -> Option<String> {
    let mut text = String::new(alloc);
    for name in names {
        text.push(',').ok()?;
        text.push_str(name).ok()?;
    }
    Some(text)
}

/// What is asked for, as text.
fn request(alloc: Global, asked: &Asked<'_>) -> Option<String> {
    match asked {
        Asked::Rewrite(w) => format!(in alloc;
            "rewrite,{},{},{},{},{},{}",
            w.object, w.entry, w.policy, w.image, w.graph, w.map
        ),
        Asked::Verify(w) => format!(in alloc; "verify,{},{}", w.image, w.graph),
        Asked::Run(w) => format!(in alloc;
            "run,{},{},{},{},{}",
            w.image, w.graph, w.script, w.input, w.steps
        ),
        Asked::Compare(w) => format!(in alloc;
            "compare,{},{},{},{},{},{},{}",
            w.object, w.entry, w.policy, w.image, w.map, w.input, w.steps
        ),
        Asked::Demo(w) => format!(in alloc; "demo,{}", w.number),
        Asked::Link(w) => format!(in alloc;
            "link,{},{},{},{},{},{}{}",
            w.form,
            w.entry,
            w.policy,
            w.image,
            w.graph,
            w.map,
            objects(alloc, &w.objects)?
        ),
        Asked::CompareLink(w) => format!(in alloc;
            "compare-link,{},{},{},{},{},{}{}",
            w.entry,
            w.policy,
            w.image,
            w.map,
            w.input,
            w.steps,
            objects(alloc, &w.objects)?
        ),
        Asked::Harden(w) => format!(in alloc;
            "harden,{},{},{},{},{},{},{}",
            w.form,
            w.rewrite.object,
            w.rewrite.entry,
            w.rewrite.policy,
            w.rewrite.image,
            w.rewrite.graph,
            w.rewrite.map
        ),
    }
    .ok()
}

/// What words are read as, as text.
fn told(alloc: Global, words: &[String]) -> Option<String> {
    match read_words(alloc, words) {
        Ok(asked) => request(alloc, &asked),
        Err(WordsEnd::Help(_)) => String::from_str(alloc, "help").ok(),
        Err(WordsEnd::Version(_)) => String::from_str(alloc, "version").ok(),
        Err(WordsEnd::Refused) => String::from_str(alloc, "refused").ok(),
        Err(WordsEnd::NoMemory) => None,
    }
}

/// Whether a row is a command line with what it is read as.
fn is_read(alloc: Global, row: &str) -> bool {
    let (line, expected) = row.split_once(" = ").unwrap_or((row, ""));
    let Some(words) = words(alloc, line) else {
        return false;
    };
    match told(alloc, &words) {
        Some(told) => told.as_str() == expected,
        None => false,
    }
}

#[test]
fn lines(rt: HostRuntime) {
    let rows = str::from_utf8(ROWS).unwrap_or("");
    assert!(rt; rows.split(';').count() == 133);
    for row in rows.split(';') {
        assert!(rt; is_read(rt.alloc(), row), "{row}");
    }
}

/// A command with six words and so many objects, each a number.
fn long_line(alloc: Global, command: &str, count: u64) -> Option<String> {
    let mut line = format!(in alloc; "{command},a,b,c,d,e,f").ok()?;
    for number in 0..count {
        let object = format!(in alloc; ",{number}").ok()?;
        line.push_str(object.as_str()).ok()?;
    }
    Some(line)
}

/// Whether a command takes so many objects, in their order.
fn takes(alloc: Global, command: &str, count: u64) -> bool {
    let Some(line) = long_line(alloc, command, count) else {
        return false;
    };
    let Ok(row) = format!(in alloc; "rvcfi,{line} = {line}") else {
        return false;
    };
    is_read(alloc, row.as_str())
}

#[test]
fn many_objects(rt: HostRuntime) {
    assert!(rt; takes(rt.alloc(), "link", 300));
    assert!(rt; takes(rt.alloc(), "compare-link", 300));
    assert!(rt; !takes(rt.alloc(), "link", 0));
    assert!(rt; !takes(rt.alloc(), "compare-link", 0));
}

/// No words at all are not taken.
#[test]
fn no_words(rt: HostRuntime) {
    let told = told(rt.alloc(), &[]);
    assert!(rt; told.is_some_and(|told| told.as_str() == "refused"));
}

const HELP: &str = "\
Control-flow integrity for RV64IM programs

Usage: rvcfi <COMMAND>

Commands:
  rewrite       Hardens an object: writes an image, its graph and its map
  verify        Tells whether an image keeps to its graph
  run           Runs an accepted image, and reports on the run
  compare       Compares the run of an object with that of its image
  demo          Makes an object from a number, hardens, runs and compares it
  harden        Does what rewrite does, in one of six forms
  link          Does what harden does, with objects joined to one program
  compare-link  Does what compare does, with objects joined to one program

Options:
  -h, --help     Print help
  -V, --version  Print version
";

const VERIFY_HELP: &str = "\
Tells whether an image keeps to its graph

Usage: rvcfi verify <IMAGE> <GRAPH>

Arguments:
  <IMAGE>  The image to read
  <GRAPH>  The graph to read

Options:
  -h, --help  Print help
";

const HARDEN_HELP: &str = "\
Does what rewrite does, in one of six forms

Usage: rvcfi harden <FORM> <OBJECT> <ENTRY> <POLICY> <IMAGE> <GRAPH> <MAP>

Arguments:
  <FORM>    The form of what is made: plain, harts, split, harts-split, lean or harts-lean
  <OBJECT>  The object to read
  <ENTRY>   The symbol at which the program begins
  <POLICY>  The policy to read, or none
  <IMAGE>   The image to write
  <GRAPH>   The graph to write
  <MAP>     The map to write

Options:
  -h, --help  Print help
";

const LINK_HELP: &str = "\
Does what harden does, with objects joined to one program

Usage: rvcfi link <FORM> <ENTRY> <POLICY> <IMAGE> <GRAPH> <MAP> <OBJECT>...

Arguments:
  <FORM>       The form of what is made: plain, harts, split, harts-split, lean or harts-lean
  <ENTRY>      The symbol at which the program begins
  <POLICY>     The policy to read, or none
  <IMAGE>      The image to write
  <GRAPH>      The graph to write
  <MAP>        The map to write
  <OBJECT>...  The objects to read, in their order

Options:
  -h, --help  Print help
";

const COMPARE_LINK_HELP: &str = "\
Does what compare does, with objects joined to one program

Usage: rvcfi compare-link <ENTRY> <POLICY> <IMAGE> <MAP> <INPUT> <STEPS> <OBJECT>...

Arguments:
  <ENTRY>      The symbol at which the program begins
  <POLICY>     The policy to read, or none
  <IMAGE>      The image to read
  <MAP>        The map to read
  <INPUT>      The program's input to read, or none
  <STEPS>      How many steps the program takes at most
  <OBJECT>...  The objects to read, in their order

Options:
  -h, --help  Print help
";

/// Whether a command line asks for this text.
fn shows(alloc: Global, line: &str, expected: &str) -> bool {
    let Some(words) = words(alloc, line) else {
        return false;
    };
    match read_words(alloc, &words) {
        Err(WordsEnd::Help(text)) => text.as_str() == expected,
        Err(WordsEnd::Version(text)) => text.as_str() == expected,
        _ => false,
    }
}

#[test]
fn texts(rt: HostRuntime) {
    assert!(rt; shows(rt.alloc(), "rvcfi,--help", HELP));
    assert!(rt; shows(rt.alloc(), "./rvcfi,verify,-h", VERIFY_HELP));
    assert!(rt; shows(rt.alloc(), "rvcfi,harden,--help", HARDEN_HELP));
    assert!(rt; shows(rt.alloc(), "rvcfi,link,--help", LINK_HELP));
    assert!(rt; shows(rt.alloc(), "rvcfi,compare-link,-h", COMPARE_LINK_HELP));
    assert!(rt; shows(rt.alloc(), "rvcfi,--version", "rvcfi 1.0.0\n"));
}
