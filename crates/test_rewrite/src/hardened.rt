use crate::given::{FORMS, answer};
use crate::image::is_image_of;
use cfi_graph::{Graph, write_graph};
use cfi_map_text::{Map, write_map};
use cfi_rewrite::Hardened;
use cfi_verify::verify;
use elf_image::read_image;
use rv_image::{Form, Image};
use sample_hardened::{
    Program, file, graph_in, hardened_programs, listed_programs, map_in, storing_programs,
};
use std::alloc::Global;
use std::process::Abort;

/// Whether a graph is written as that of a program in a form.
fn is_graph(alloc: Global, graph: &Graph, form: Form, program: &Program) -> bool {
    match (write_graph(alloc, graph), graph_in(alloc, form, program)) {
        (Ok(written), Ok(text)) => written.as_slice() == text.as_bytes(),
        _ => false,
    }
}

/// Whether a map is written as that of a program in a form.
fn is_map(alloc: Global, map: &Map, form: Form, program: &Program) -> bool {
    match (write_map(alloc, map), map_in(alloc, form, program)) {
        (Ok(written), Ok(text)) => written.as_slice() == text.as_bytes(),
        _ => false,
    }
}

/// Whether the verifier accepts an image with a graph.
fn is_verified(alloc: Global, image: &Image<'_>, graph: &Graph) -> bool {
    match verify(alloc, image, graph) {
        Ok(_) => true,
        Err(_) => false,
    }
}

/// Whether the verifier accepts the image that a file is with a graph.
fn is_accepted(alloc: Global, file: &[u8], graph: &Graph) -> bool {
    match read_image(file) {
        Ok(image) => is_verified(alloc, &image, graph),
        Err(_) => false,
    }
}

/// Whether a hardened program is the one that is wanted in a form, and is accepted.
fn is_wanted(alloc: Global, form: Form, hardened: &Hardened, program: &Program) -> bool {
    is_image_of(alloc, form, hardened.image.as_slice(), program)
        && hardened.map.form() == form
        && is_graph(alloc, &hardened.graph, form, program)
        && is_map(alloc, &hardened.map, form, program)
        && is_accepted(alloc, hardened.image.as_slice(), &hardened.graph)
}

/// Whether a file becomes the program that is wanted in a form.
fn becomes(alloc: Global, form: Form, file: &[u8], program: &Program) -> bool {
    match answer(alloc, form, file, &program.0) {
        Ok(hardened) => is_wanted(alloc, form, &hardened, program),
        Err(_) => false,
    }
}

/// Whether an object becomes its program in a form, and the same again.
fn is_right(alloc: Global, form: Form, program: &Program) -> bool {
    match file(alloc, &program.0) {
        Some(file) => becomes(alloc, form, &file, program) && becomes(alloc, form, &file, program),
        None => false,
    }
}

/// Checks that each object becomes its program in each form.
fn check(rt: &impl Abort, alloc: Global, programs: &[Program]) {
    for form in &FORMS {
        for (k, program) in programs.iter().enumerate() {
            assert!(rt;
                is_right(alloc, *form, program),
                "{}, program {k}",
                form.name()
            );
        }
    }
}

#[test]
fn hardens(rt: HostRuntime) {
    check(&rt, rt.alloc(), hardened_programs());
}

/// The same of objects whose stores stand behind one mask, as many as may.
#[test]
fn joins_stores(rt: HostRuntime) {
    check(&rt, rt.alloc(), storing_programs());
}

/// The same of objects under lists of system calls.
#[test]
fn tests_numbers(rt: HostRuntime) {
    check(&rt, rt.alloc(), listed_programs());
}
