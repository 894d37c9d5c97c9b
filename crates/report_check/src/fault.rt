ghost use Rattle.report_check.specs.Shown.{IsGoodSurface, open_shown, raster_shown, told_shown};
ghost use Rattle.report_check.specs.Verdicts.{IsSurfaceVerdict, PassesSeams};
ghost use Rattle.std.specs.Prelude.{IfOk, MatchOption};

use crate::shown::ShownSurface;
use crate::verdict::CheckVerdict;
use certificates::SeamVerdict;
use std::alloc::{AllocError, Global};
use surface_snapshots::Costs;

impl ShownSurface<'_> {
    /// What is wrong with the surface, which is that of a revision: first its values are judged, then its tiles, then
    /// the seams, then the two costs.
    pub(crate) fn fault(
        &self,
        alloc: Global,
        revision: u32,
    ) -> Result<Option<CheckVerdict>, AllocError>
        ensures { IfOk result (λ fault. MatchOption fault (IsGoodSurface (raster_shown self.now) (open_shown self.now) (told_shown self.now)) (IsSurfaceVerdict (raster_shown self.now) (open_shown self.now) revision (told_shown self.now))) }
    {
        if let Some((x, y)) = self.first_unfit_value() {
            return Ok(Some(CheckVerdict::Value { revision, x, y }));
        }
        if let Some((tile, verdict)) = self.first_unfit_tile() {
            return Ok(Some(CheckVerdict::Tile {
                revision,
                tile,
                verdict,
            }));
        }
        match self.seams(alloc)? {
            SeamVerdict::Good => Ok(self.cost_fault(revision)),
            verdict => Ok(Some(CheckVerdict::Seams { revision, verdict })),
        }
    }

    /// What is wrong with the costs of a certified surface.
    fn cost_fault(&self, revision: u32) -> Option<CheckVerdict>
        requires { PassesSeams (raster_shown self.now) (open_shown self.now) (told_shown self.now) }
        ensures { MatchOption result (IsGoodSurface (raster_shown self.now) (open_shown self.now) (told_shown self.now)) (IsSurfaceVerdict (raster_shown self.now) (open_shown self.now) revision (told_shown self.now)) }
    {
        let costs = Costs::of(self.scene, self.mask, &self.values());
        if self.told.tile_cost != costs.tiles {
            return Some(CheckVerdict::TileCost {
                revision,
                written: self.told.tile_cost,
                counted: costs.tiles,
            });
        }
        if self.told.seam_cost != costs.seams {
            return Some(CheckVerdict::SeamCost {
                revision,
                written: self.told.seam_cost,
                counted: costs.seams,
            });
        }
        None
    }
}
