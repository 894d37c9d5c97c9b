ghost use Rattle.edge_weights.specs.Sessions.{HasSettings};
ghost use Rattle.raster_model.specs.Limits.{is_tiled_size as fits_limits, IsTileSide};
ghost use Rattle.std.specs.Prelude.{◌≡◌, ◌≤◌, Err, IfErr, IfOk, IsTrue, false};
ghost use Rattle.trial_maker.specs.Trials.{AreTrialScripts, IsTrial, IsTrialOf};
ghost use Rattle.trial_maker.specs.declared.fault.TrialFault.TheVariants as faults;

use crate::fault::TrialFault;
use crate::planes::{Planes, draw_planes};
use edge_weights::{SceneSettings, SessionParts, weigh};
use raster_model::{Command, Mask, RuleKind, Script, Session, Tiling, is_tiled_size};
use std::alloc::{AllocError, Global};

/// The test session that a seed gives: a raster of this width and height in pixels, tiles of this side, edges by
/// this rule, the plain terms, and one analyst who settles and shows. `Size` comes exactly if the raster breaks a limit.
pub fn make_session(
    alloc: Global,
    seed: u64,
    width: u32,
    height: u32,
    side: u32,
    kind: RuleKind,
) -> Result<Session, TrialFault>
    requires sides { IsTileSide side }
    ensures made { IfOk result (IsTrial seed width height side kind) }
    ensures size { result ≡ Err faults.Size → fits_limits width height ≡ false }
    ensures fits { fits_limits width height ≡ false → result ≡ Err faults.Size }
{
    make_session_on(alloc, seed, width, height, SceneSettings::plain(side, kind))
}

/// The same on any settings.
pub fn make_session_on(
    alloc: Global,
    seed: u64,
    width: u32,
    height: u32,
    settings: SceneSettings,
) -> Result<Session, TrialFault>
    ensures made { IfOk result (IsTrialOf seed width height) }
    ensures settings { IfOk result (λ session. HasSettings settings session.scene) }
    ensures size { result ≡ Err faults.Size → fits_limits width height ≡ false }
    ensures fits { fits_limits width height ≡ false → result ≡ Err faults.Size }
{
    if !is_tiled_size(width, height) {
        return Err(TrialFault::Size);
    }
    make_fitting(
        alloc,
        seed,
        Tiling::new(width, height, settings.side),
        settings,
    )
}

/// The test session of a raster that is within the limits.
fn make_fitting(
    alloc: Global,
    seed: u64,
    tiling: Tiling,
    settings: SceneSettings,
) -> Result<Session, TrialFault>
    requires { tiling.side ≡ settings.side }
    ensures made { IfOk result (IsTrialOf seed tiling.width tiling.height) }
    ensures settings { IfOk result (λ session. HasSettings settings session.scene) }
    ensures starved { IfErr result (λ fault. fault ≡ faults.Memory) }
{
    let Planes {
        phase,
        weights,
        mask,
    } = draw_planes(alloc, seed, tiling.width, tiling.height)?;
    let edges = weigh(alloc, settings.rule, &weights)?;
    let first_mask = Mask::of_plane(alloc, &mask)?;
    let parts = SessionParts {
        phase,
        weights,
        mask,
        tiling,
        scripts: trial_scripts(alloc)?,
    };
    Ok(parts.put_together(settings, edges, first_mask))
}

/// The script of the one analyst.
fn trial_scripts(alloc: Global) -> Result<Vec<Script>, AllocError>
    ensures { IfOk result (λ scripts. AreTrialScripts scripts.items) }
{
    let commands = vec![in alloc; Command::Settle, Command::Show]?;
    Ok(vec![in alloc; Script { commands }]?)
}
