use obj_input::ItemKind;

/// The kinds of places and how they are told.
pub(crate) static KINDS: [(ItemKind, &str); 11] = [
    (ItemKind::Gate, "gate"),
    (ItemKind::Plain, "plain"),
    (ItemKind::Store, "store"),
    (ItemKind::System, "system"),
    (ItemKind::Branch, "branch"),
    (ItemKind::Jump, "jump"),
    (ItemKind::Call, "call"),
    (ItemKind::Return, "return"),
    (ItemKind::Ijump, "ijump"),
    (ItemKind::Icall, "icall"),
    (ItemKind::End, "end"),
];

/// How a kind is told.
pub(crate) fn in_words(kind: ItemKind) -> &'static str {
    for (known, words) in &KINDS {
        if *known == kind {
            return *words;
        }
    }
    "another kind"
}
