use raster_model::Edit;

/// What happened: one entry of a history.
#[derive(Clone, Copy, Debug, PartialEq, Eq)]
pub enum Entry {
    /// An analyst changed the mask, which made the next revision.
    Revised { analyst: u32, edit: Edit },
    /// A certified result of a tile was kept; it is for the mask that has the tile's stamp.
    Kept { tile: u32, stamp: u32 },
    /// An analyst's settle command published a revision's surface.
    Published { analyst: u32, revision: u32 },
    /// An analyst's settle command found its revision published.
    Settled { analyst: u32, revision: u32 },
    /// An analyst looked at the newest published revision, or at None if nothing was published.
    Shown { analyst: u32, revision: Option<u32> },
}
