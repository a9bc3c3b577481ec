//! What holds of the program of an input. Nothing is computed.
ghost use Rattle.obj_items.specs.Laws.{InitReachesEnd, ProgramsAreSound};

/// The program of an input without a fault is sound. Its last place is a section's end, and a map can name each place: its
/// section's index has 16 bits, and its offset in bytes is that of a word, and at most eight times the count of places
/// before it.
pub fn programs_are_sound()
    ensures { ProgramsAreSound }
{}

/// The initialised data of the program begin at `DATA_START` and end where the sections of data end that have bytes in the file.
pub fn init_reaches_end()
    ensures { InitReachesEnd }
{}
