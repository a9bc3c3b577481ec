//! Each function states one law; nothing is computed.
ghost use Rattle.cfi_pending.specs.KindLaws.{KindsAgree, MayStandThere, SitesAreSaved};
ghost use Rattle.cfi_pending.specs.Laws.{PendingLaw};
ghost use Rattle.cfi_pending.specs.Opening.{OpeningLaw};
ghost use Rattle.cfi_pending.specs.StartLaw.{BodyBegins, StartLaw};

/// What a unit does to the shadow stack and to x1 is what it does to the pending sites: from a start at which it may stand, and where
/// it is left to the next one, or to a handler.
pub fn pending_law()
    ensures { PendingLaw }
{}

/// One step from any word of a unit, from a start at which the unit may stand, stays in the unit, leaves it where it leads, or ends as
/// it may end: with all pending sites, whether they stand on the shadow stack or in x1, and with the mask of stores in x4.
pub fn start_law()
    ensures { StartLaw }
{}

/// What a start has is what the law asks at the first word of a unit that may stand there.
pub fn body_begins()
    ensures { BodyBegins }
{}

/// Where units meet what their kinds ask, each may stand at its start.
pub fn may_stand_there()
    ensures { MayStandThere }
{}

/// And where it leads directly stands a start of the kind that it is to lead to.
pub fn kinds_agree()
    ensures { KindsAgree }
{}

/// What a call comes back to is a saved start.
pub fn sites_are_saved()
    ensures { SitesAreSaved }
{}

/// A step from any word of the opening stays in it, or calls the entry, which stands at a fresh start.
pub fn opening_law()
    ensures { OpeningLaw }
{}
