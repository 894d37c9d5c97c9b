//! Laws of the definitions. The functions do nothing; each contract is the law.

ghost use Rattle.mask_revisions.specs.Stamps.{StampsLookBack};

/// The stamp of a tile is the last revision at which one of its pixels changed, and 0 if none did.
pub fn stamps_look_back()
    ensures { StampsLookBack }
{}
