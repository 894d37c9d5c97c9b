ghost use Rattle.raster_model.specs.Limits.{is_tiled_size, IsTileSide};
ghost use Rattle.report_text.specs.Fitting.{ItemsFit};
ghost use Rattle.report_text.specs.Terms.{AreTermsIn};
ghost use Rattle.std.specs.Prelude.{◌≤◌, IsTrue};
ghost use Rattle.text_parts.specs.Terms.{terms_of};

use crate::items::Item;
use raster_model::{RuleKind, Terms};

/// A report that was read.
#[derive(Drop)]
pub struct Report {
    /// 1, or 2 if the text tells the terms.
    pub version: u32,
    /// Pixels in a row.
    pub width: u32,
    /// Rows.
    pub height: u32,
    /// Pixels along a side of a tile.
    pub side: u32,
    /// How the weights of two pixels give that of their edge.
    pub rule: RuleKind,
    /// On which terms the phase was unwrapped; the plain ones in version 1.
    pub terms: Terms,
    /// The history in order, and the surfaces after its publications.
    pub items: Vec<Item>,
    pub ghost versioned: { (1 ≤ version) × (version ≤ 2) },
    pub ghost terms_in: { AreTermsIn version (terms_of terms) },
    pub ghost sized: { IsTrue (is_tiled_size width height) },
    pub ghost sides: { IsTileSide side },
    pub ghost fitting: { ItemsFit width height side items.items },
}
