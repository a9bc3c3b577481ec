//! What holds of code that is written for an accepted choice. Each function states one law; nothing is computed.
ghost use Rattle.cfi_writer.specs.Laws.{WrittenEntry, WrittenIsGraph, WrittenIsSound, WrittenIsWellFormed, WrittenLines, WrittenUnits};
ghost use Rattle.cfi_writer.specs.SideLaws.{GatesListed, SitesServed, TargetsBear};

/// The units and classes of an accepted choice are sound.
pub fn written_is_sound()
    ensures { WrittenIsSound }
{}

/// The lines of the graph at the map are those of the units that are written, with those of the classes.
pub fn written_lines()
    ensures { WrittenLines }
{}

/// They are a graph's, of a code as long as the one that is written.
pub fn written_is_graph()
    ensures { WrittenIsGraph }
{}

/// An image with the code that is written meets the verifier's rules with that graph.
pub fn written_is_well_formed()
    ensures { WrittenIsWellFormed }
{}

/// In the code that is written each place's unit stands at its word, and from its gate on the words before that.
pub fn written_units()
    ensures { WrittenUnits }
{}

/// The opening calls the entry where calls arrive there.
pub fn written_entry()
    ensures { WrittenEntry }
{}

/// Each target of a class bears its label, at the word that the checks of its sort read.
pub fn targets_bear()
    ensures { TargetsBear }
{}

/// Each place that bears a class's label is one of its targets.
pub fn gates_listed()
    ensures { GatesListed }
{}

/// Each site is served by the class whose label it asks for.
pub fn sites_served()
    ensures { SitesServed }
{}
