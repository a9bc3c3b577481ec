//! What holds of the files that commands write. A function states one law; nothing is computed.
ghost use Rattle.tool_objects.specs.Laws.{WrittenIsRead};

/// What `rewrite`, `harden` and `link` write is read: the image and the graph by `verify`, which they pass, and the map, which tells the
/// form, by `compare`, or `compare-link`, with the objects.
pub fn written_is_read()
    ensures { WrittenIsRead }
{}
