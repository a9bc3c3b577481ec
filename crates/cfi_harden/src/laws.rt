//! What holds of hardened programs. Each function states one law; nothing is computed.
ghost use Rattle.cfi_harden.specs.HardenedLaws.{HardenedIsRight, WrittenIsAccepted};

/// What is written of a prepared request at a placement that fits is an accepted choice.
pub fn written_is_accepted()
    ensures { WrittenIsAccepted }
{}

/// Graph and map of what is written of a prepared request are ones that texts spell.
pub fn hardened_is_right()
    ensures { HardenedIsRight }
{}
