//! What `rewrite` and `harden` put and write in each form, byte for byte, and that it is accepted: the objects and what they become
//! are those of `sample_hardened`.

use rv_image::Form;
use rv_word::NoMemory;
use sample_calls::{answers, image_as};
use sample_hardened::{
    Program, code_in, data_in, file, graph_in, hardened_programs, listed_programs, map_in,
    storing_programs, told_in,
};
use std::alloc::Global;
use std::process::Abort;
use tool_io::MemFiles;

/// The words by which a command line begins that hardens, and the form.
static COMMANDS: [(&str, Form); 5] = [
    ("rewrite", Form::Plain),
    ("harden,plain", Form::Plain),
    ("harden,harts", Form::Harts),
    ("harden,split", Form::Split),
    ("harden,harts-split", Form::HartsSplit),
];

/// Adds an object and its policy.
fn add_given(alloc: Global, files: &mut MemFiles, program: &Program) -> Result<(), NoMemory> {
    files.insert("policy", program.0.4.unwrap_or(b""))?;
    let object = file(alloc, &program.0).ok_or(NoMemory)?;
    Ok(files.insert("object", &object)?)
}

/// Adds the image that it should become.
fn add_image(
    alloc: Global,
    files: &mut MemFiles,
    form: Form,
    program: &Program,
) -> Result<(), NoMemory> {
    let code = code_in(alloc, form, program)?;
    let data = data_in(alloc, form, program)?;
    let image = image_as(alloc, form.image_version(), &code, &data)?;
    Ok(files.insert("wanted image", &image)?)
}

/// Adds the graph that it should become.
fn add_graph(
    alloc: Global,
    files: &mut MemFiles,
    form: Form,
    program: &Program,
) -> Result<(), NoMemory> {
    let graph = graph_in(alloc, form, program)?;
    Ok(files.insert("wanted graph", graph.as_bytes())?)
}

/// Adds the map that it should become.
fn add_map(
    alloc: Global,
    files: &mut MemFiles,
    form: Form,
    program: &Program,
) -> Result<(), NoMemory> {
    let map = map_in(alloc, form, program)?;
    Ok(files.insert("wanted map", map.as_bytes())?)
}

/// Adds all that is given and wanted.
fn add_all(
    alloc: Global,
    files: &mut MemFiles,
    form: Form,
    program: &Program,
) -> Result<(), NoMemory> {
    add_given(alloc, files, program)?;
    add_image(alloc, files, form, program)?;
    add_graph(alloc, files, form, program)?;
    add_map(alloc, files, form, program)
}

/// Whether the tool puts what it is to put when an object is hardened by a command.
fn is_put(
    alloc: Global,
    files: &mut MemFiles,
    command: &str,
    form: Form,
    program: &Program,
) -> bool {
    let entry = program.0.3;
    let policy = if program.0.4.is_some() {
        "policy"
    } else {
        "none"
    };
    let line = format!(in alloc; "rvcfi,{command},object,{entry},{policy},image,graph,map");
    match (line, told_in(alloc, form, program)) {
        (Ok(line), Ok(text)) => answers(alloc, line.as_str(), files, 0, text.as_str()),
        _ => false,
    }
}

/// Whether the files that are written are those that are wanted, and are accepted.
fn are_written(alloc: Global, files: &mut MemFiles) -> bool {
    files.get("image") == files.get("wanted image")
        && files.get("graph") == files.get("wanted graph")
        && files.get("map") == files.get("wanted map")
        && answers(alloc, "rvcfi,verify,image,graph", files, 0, "accepted\n")
}

/// Whether an object becomes its program by a command.
fn is_hardened(alloc: Global, command: &str, form: Form, program: &Program) -> bool {
    let mut files = MemFiles::new(alloc, Vec::new(alloc));
    add_all(alloc, &mut files, form, program).is_ok()
        && is_put(alloc, &mut files, command, form, program)
        && are_written(alloc, &mut files)
}

/// Checks that each object becomes its program by each command.
fn check(rt: &impl Abort, alloc: Global, programs: &[Program]) {
    for (command, form) in &COMMANDS {
        for (k, program) in programs.iter().enumerate() {
            assert!(rt;
                is_hardened(alloc, command, *form, program),
                "{command}, {k}"
            );
        }
    }
}

#[test]
fn hardened(rt: HostRuntime) {
    check(&rt, rt.alloc(), hardened_programs());
}

#[test]
fn joined_stores(rt: HostRuntime) {
    check(&rt, rt.alloc(), storing_programs());
}

#[test]
fn guarded_calls(rt: HostRuntime) {
    check(&rt, rt.alloc(), listed_programs());
}
