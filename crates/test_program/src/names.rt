use elf_object::Object;
use obj_items::items;
use obj_program::Items;
use std::alloc::Global;

/// Whether the first symbol of a name is found where it stands in a section, and none by another name.
fn are_found(items: &Items) -> bool {
    items.find(b"main") == Some((1, 0))
        && items.find(b"rec") == Some((1, 12))
        && items.find(b"").is_none()
        && items.find(b"re").is_none()
        && items.find(b"ain").is_none()
        && items.find(b"record").is_none()
        && items.find(b"limit").is_none()
}

/// Whether the names of an object's symbols are found.
fn has_found(alloc: Global, object: &Object) -> bool {
    match items(alloc, object) {
        Ok(items) => are_found(&items),
        Err(_) => false,
    }
}

/// Whether they are in a file.
fn is_found(alloc: Global, file: &[u8]) -> bool {
    match Object::read(alloc, file) {
        Ok(object) => has_found(alloc, &object),
        Err(_) => false,
    }
}

#[test]
fn finds_names(rt: HostRuntime) {
    let file = hex::decode(rt.alloc(), sample_objects::R);
    assert!(rt; matches!(&file, Ok(file) if is_found(rt.alloc(), file)));
}
