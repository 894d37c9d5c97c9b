ghost use Rattle.std.specs.Prelude.{◌≡◌};

use certificates::{SeamVerdict, TileVerdict};
use std::alloc::AllocError;
use surface_snapshots::BuildFault;

/// What became of an analyst's next command.
#[derive(Clone, Copy, Debug, PartialEq, Eq)]
pub enum Advance {
    /// The mask was changed. It carries the revision that the change made.
    Revised(u32),
    /// A settle command found the present revision published, and carries it.
    Settled(u32),
    /// A show command was told the newest published revision, or None if nothing is published.
    Shown(Option<u32>),
    /// The next command is a settle command, and the present revision, which it carries, is not published yet.
    NotYet(u32),
    /// The script is at its end, or there is no such analyst.
    Ended,
}

/// Why no tile is given to solve.
#[derive(Clone, Copy, Debug, PartialEq, Eq)]
pub enum ClaimFault {
    /// Every tile has a kept result.
    NoJob,
    /// A tile has no kept result, and there was no memory for its mask.
    Memory,
}

/// Why a result is not kept. If several apply, the first variant is returned.
#[derive(Clone, Copy, Debug, PartialEq, Eq)]
pub enum KeepFault {
    /// There is no tile of this number.
    Stranger(u32),
    /// The result is for another stamp. It carries the tile's.
    Stale(u32),
    /// The tile has a kept result.
    Double,
    /// The result certifies nothing. It carries the first break.
    Uncertified(TileVerdict),
    /// There was no memory for the entry.
    Memory,
}

/// Why the results of the tiles are not gathered.
#[derive(Clone, Copy, Debug, PartialEq, Eq)]
pub enum GatherFault {
    /// The lowest-numbered tile that has no kept result.
    Unready(u32),
    /// There was no memory for copies of the mask and the results.
    Memory,
}

/// Why no surface is published. If several apply, the first variant is returned; but `Memory` may be returned in place of
/// `Uncertified`.
#[derive(Clone, Copy, Debug, PartialEq, Eq)]
pub enum PublishFault {
    /// The analyst's next command is not a settle command.
    NotSettle,
    /// The offsets are for another revision. It carries the present one.
    Stale(u32),
    /// The present revision, which it carries, is published.
    Double(u32),
    /// The lowest-numbered tile that has no kept result.
    Unready(u32),
    /// The offsets and flows do not certify the surface. It carries the first break.
    Uncertified(SeamVerdict),
    /// There was no memory for the surface or the entry.
    Memory,
}

/// Why a command is not done.
#[derive(Clone, Copy, Debug, PartialEq, Eq)]
pub enum AdvanceFault {
    /// An entry may come next, and there was no memory for it or for the change.
    Memory,
}

impl From<AllocError> for ClaimFault {
    ghost use Rattle.tile_board.specs.declared.answers.ClaimFault.TheVariants.{Memory};

    ghost from_gives = { λ _ fault. fault ≡ Memory };

    fn from(_none: AllocError) -> ClaimFault {
        ClaimFault::Memory
    }
}

impl From<AllocError> for KeepFault {
    ghost use Rattle.tile_board.specs.declared.answers.KeepFault.TheVariants.{Memory};

    ghost from_gives = { λ _ fault. fault ≡ Memory };

    fn from(_none: AllocError) -> KeepFault {
        KeepFault::Memory
    }
}

impl From<AllocError> for GatherFault {
    ghost use Rattle.tile_board.specs.declared.answers.GatherFault.TheVariants.{Memory};

    ghost from_gives = { λ _ fault. fault ≡ Memory };

    fn from(_none: AllocError) -> GatherFault {
        GatherFault::Memory
    }
}

impl From<AllocError> for PublishFault {
    ghost use Rattle.tile_board.specs.declared.answers.PublishFault.TheVariants.{Memory};

    ghost from_gives = { λ _ fault. fault ≡ Memory };

    fn from(_none: AllocError) -> PublishFault {
        PublishFault::Memory
    }
}

impl From<AllocError> for AdvanceFault {
    ghost use Rattle.tile_board.specs.declared.answers.AdvanceFault.TheVariants.{Memory};

    ghost from_gives = { λ _ fault. fault ≡ Memory };

    fn from(_none: AllocError) -> AdvanceFault {
        AdvanceFault::Memory
    }
}

impl From<GatherFault> for PublishFault {
    ghost use Rattle.tile_board.specs.Causes.{gathering_cause};

    ghost from_gives = { λ cause fault. fault ≡ gathering_cause cause };

    fn from(cause: GatherFault) -> PublishFault {
        match cause {
            GatherFault::Unready(tile) => PublishFault::Unready(tile),
            GatherFault::Memory => PublishFault::Memory,
        }
    }
}

impl From<BuildFault> for PublishFault {
    ghost use Rattle.tile_board.specs.Causes.{building_cause};

    ghost from_gives = { λ cause fault. fault ≡ building_cause cause };

    fn from(cause: BuildFault) -> PublishFault {
        match cause {
            BuildFault::Uncertified(verdict) => PublishFault::Uncertified(verdict),
            BuildFault::Memory => PublishFault::Memory,
        }
    }
}
