ghost use Rattle.raster_model.specs.Masks.{open_at};
ghost use Rattle.raster_model.specs.Scene.{raster_of};
ghost use Rattle.raster_model.specs.Tiles.{tiles_of};
ghost use Rattle.report_check.specs.Replays.{entries_in};
ghost use Rattle.report_check.specs.Shown.{AreCertifiedAfter, IsGoodAfter, IsGoodSurface, IsUnfitAfter};
ghost use Rattle.report_check.specs.Verdicts.{HasHeadOf, IsFirstUnfitSurface, IsSurfaceVerdict};
ghost use Rattle.report_text.specs.Contents.{report_told, told_after, told_surface};
ghost use Rattle.report_text.specs.Fitting.{MayFit, SurfaceFits};
ghost use Rattle.std.specs.Prelude.{◌≡◌, IfOk, MatchOption};
ghost use Rattle.tile_board.specs.Histories.{IsLegal};

use crate::replay::Replay;
use crate::shown::ShownSurface;
use crate::verdict::CheckVerdict;
use raster_model::{Mask, Scene, Session};
use report_text::{Item, Report, ReportSurface};
use std::alloc::{AllocError, Global};
use tile_board::Entry;

/// What is wrong with the first published surface that is not certified at the mask of its revision.
pub(crate) fn first_fault(
    alloc: Global,
    session: &Session,
    report: &Report,
) -> Result<Option<CheckVerdict>, AllocError>
    requires head { HasHeadOf session.now (report_told report.now) }
    requires legal { IsLegal session.now (entries_in report.now.items.items) }
    ensures { IfOk result (λ fault. MatchOption fault (AreCertifiedAfter session.now (report_told report.now)) (IsFirstUnfitSurface session.now (report_told report.now))) }
{
    let mut replay = Replay::new(alloc, session)?;
    for item in &report.items {
        if let Some(verdict) = fault_after(alloc, &session.scene, replay.mask(), item)? {
            return Ok(Some(verdict));
        }
        replay.take(alloc, item.entry)?;
    }
    Ok(None)
}

/// What is wrong with the surface after an entry, which is judged at a mask.
fn fault_after(
    alloc: Global,
    scene: &Scene,
    mask: &Mask,
    item: &Item,
) -> Result<Option<CheckVerdict>, AllocError>
    requires size { (mask.now.width ≡ scene.now.phase.width) × (mask.now.height ≡ scene.now.phase.height) }
    requires fits { MayFit scene.now.phase.width scene.now.phase.height (tiles_of scene.now.tiling) item.now.surface }
    ensures { IfOk result (λ fault. MatchOption fault (IsGoodAfter (raster_of scene.now) (open_at mask.now) item.now.entry (told_after item.now.surface)) (IsUnfitAfter (raster_of scene.now) (open_at mask.now) item.now.entry (told_after item.now.surface))) }
{
    match (item.entry, &item.surface) {
        (Entry::Published { revision, .. }, Some(told)) => surface_fault(
            alloc, scene, mask, revision, told,
        ),
        _ => Ok(None),
    }
}

/// What is wrong with the surface of a revision, which is judged at a mask.
fn surface_fault(
    alloc: Global,
    scene: &Scene,
    mask: &Mask,
    revision: u32,
    told: &ReportSurface,
) -> Result<Option<CheckVerdict>, AllocError>
    requires size { (mask.now.width ≡ scene.now.phase.width) × (mask.now.height ≡ scene.now.phase.height) }
    requires fits { SurfaceFits scene.now.phase.width scene.now.phase.height (tiles_of scene.now.tiling) told.now }
    ensures { IfOk result (λ fault. MatchOption fault (IsGoodSurface (raster_of scene.now) (open_at mask.now) (told_surface told.now)) (IsSurfaceVerdict (raster_of scene.now) (open_at mask.now) revision (told_surface told.now))) }
{
    let sheet = scene.sheet();
    let shown = ShownSurface {
        scene,
        sheet: &sheet,
        mask,
        told,
    };
    shown.fault(alloc, revision)
}
