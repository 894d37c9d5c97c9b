//! Laws of snapshots. The functions do nothing; each contract is the law.

ghost use Rattle.surface_snapshots.specs.Verdicts.{PartsHaveOneVerdict};

/// What `Snapshot::build` says of parts that go together is determined by them.
pub fn verdict_is_unique()
    ensures { PartsHaveOneVerdict }
{}
