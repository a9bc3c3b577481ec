//! What holds of the input of one object and of several. Nothing is computed.
ghost use Rattle.obj_join.specs.Finding.{NamesFindSymbols};
ghost use Rattle.obj_join.specs.Laws.{OneIsOwn};

/// One object whose names all differ is joined to the input that it is by itself, and no name of it is defined twice.
pub fn one_is_own()
    ensures { OneIsOwn }
{}

/// Among several objects a name stands where its definition does; where it has none, where the first symbol of it does that is not shared.
pub fn names_find_symbols()
    ensures { NamesFindSymbols }
{}
