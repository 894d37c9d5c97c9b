ghost use Rattle.clap.specs.Words.{first_of, found_of, rows_of};
ghost use Rattle.insar_words.specs.Asked.{number_asked, slope_asked, slope_for as slope_by};
ghost use Rattle.insar_words.specs.Forms.{rule_name};
ghost use Rattle.insar_words.specs.Limits.{IsWorkers};
ghost use Rattle.raster_model.specs.Limits.{IsSlope, IsTileSide};
ghost use Rattle.insar_words.specs.Requests.{HasWordsCause, IsRequest, NamesNoRule, TellsDisplacing, TellsNothing, TellsParting, TellsRefusal, TellsRequest, TellsScreening, TellsSettings, TellsTerms, TellsTooMany, TellsTrial, TellsWatching, TellsWhole};
ghost use Rattle.insar_words.specs.Values.{HasChecking, HasDisplacing, HasNumber, HasParting, HasRaster, HasScreening, HasSolving, HasTerms, HasText, HasWatching, HasWholeSolving, ReadsAs};
ghost use Rattle.std.specs.Prelude.{◌≡◌, ◌≤◌, ◌⊎◌, IfErr, IfNone, IfOk, IfSome, Some, codes};

use crate::displacing::Displacing;
use crate::fault::WordsFault;
use crate::parting::Parting;
use crate::request::Request;
use crate::screening::Screening;
use crate::settings::Settings;
use crate::stated::stated_command;
use crate::trial::Trial;
use crate::watching::Watching;
use clap::ArgMatches;
use raster_model::{DEFAULT_TILE_SIDE, DEFAULT_WORKERS, MAX_TILED_PIXELS, RuleKind, Terms};
use std::alloc::Global;

/// The greatest number that stands for a slope.
const MAX_SLOPE_NUMBER: u32 = 65_535;

/// What words ask for, as the stated command reads them. Words are refused if that command refuses them, a call for
/// help too, if they name a rule that there is not, and if they ask for a test session with too many pixels.
pub fn read_words(alloc: Global, words: &[&str]) -> Result<Request, WordsFault>
    ensures asked { IfOk result (IsRequest words.now) }
    ensures refused { IfErr result (HasWordsCause words.now) }
{
    let matches = stated_command(alloc)?.try_get_matches_from(words)?;
    match matches.subcommand() {
        Some((name, found)) => request_or_fault(name, found),
        None => unreachable!(),
    }
}

/// What a subcommand asks for by its matches, or that they are refused.
fn request_or_fault(name: &str, found: &ArgMatches<'_>) -> Result<Request, WordsFault>
    requires named { ReadsAs name.now (rows_of (found_of found.now)) }
    ensures asked { IfOk result (TellsRequest name.now (rows_of (found_of found.now))) }
    ensures refused { IfErr result (TellsRefusal name.now (rows_of (found_of found.now))) }
{
    match request_of(name, found) {
        Some(request) => Ok(request),
        None => Err(WordsFault::Refused),
    }
}

/// What a subcommand asks for by its matches, if they name a rule and do not ask for too many pixels.
fn request_of(name: &str, found: &ArgMatches<'_>) -> Option<Request>
    requires named { ReadsAs name.now (rows_of (found_of found.now)) }
    ensures asked { IfSome result (TellsRequest name.now (rows_of (found_of found.now))) }
    ensures refused { IfNone result (TellsNothing name.now (rows_of (found_of found.now))) }
{
    match name {
        "unwrap" => Some(Request::Unwrap(solving_settings(found)?)),
        "grid" => Some(Request::Grid(solving_settings(found)?)),
        "check" => Some(Request::Check(checking_settings(found)?)),
        "trial" => Some(Request::Trial(trial_of(found)?)),
        "screen" => Some(Request::Screen(screening_of(found))),
        "closure" => Some(Request::Closure),
        "displacement" => Some(Request::Displacement(displacing_of(found))),
        "whole" => Some(Request::Whole(whole_settings(found)?)),
        "check-whole" => Some(Request::CheckWhole(settings_with(
            found,
            DEFAULT_TILE_SIDE,
            DEFAULT_WORKERS,
        )?)),
        "watch" => Some(Request::Watch(watching_of(found)?)),
        "nearest" => Some(Request::Nearest),
        "parts" => Some(Request::Parts(parting_of(found)?)),
        _ => unreachable!(),
    }
}

/// The test session that matches ask for, if its raster has no more pixels than a session may have.
fn trial_of(found: &ArgMatches<'_>) -> Option<Trial>
    requires raster { HasRaster (rows_of (found_of found.now)) }
    requires options { HasSolving (rows_of (found_of found.now)) }
    ensures told { IfSome result (TellsTrial (rows_of (found_of found.now))) }
    ensures refused { IfNone result (NamesNoRule (rows_of (found_of found.now)) ⊎ TellsTooMany (rows_of (found_of found.now))) }
{
    let settings = solving_settings(found)?;
    let width = number_told(found, "width");
    let height = number_told(found, "height");
    if width * height > MAX_TILED_PIXELS {
        return None;
    }
    Some(Trial {
        seed: seed_told(found),
        width,
        height,
        settings,
    })
}

/// The run beside readers that matches ask for.
fn watching_of(found: &ArgMatches<'_>) -> Option<Watching>
    requires { HasWatching (rows_of (found_of found.now)) }
    ensures told { IfSome result (TellsWatching (rows_of (found_of found.now))) }
    ensures refused { IfNone result (NamesNoRule (rows_of (found_of found.now))) }
{
    let settings = solving_settings(found)?;
    let readers = number_told(found, "readers");
    let reads = number_told(found, "reads");
    Some(Watching {
        settings,
        readers,
        reads,
    })
}

/// The parts that matches ask for.
fn parting_of(found: &ArgMatches<'_>) -> Option<Parting>
    requires { HasParting (rows_of (found_of found.now)) }
    ensures told { IfSome result (TellsParting (rows_of (found_of found.now))) }
    ensures refused { IfNone result (NamesNoRule (rows_of (found_of found.now))) }
{
    let settings = settings_with(found, DEFAULT_TILE_SIDE, DEFAULT_WORKERS)?;
    let margin = number_told(found, "margin");
    let least = number_told(found, "least");
    Some(Parting {
        settings,
        margin,
        least,
    })
}

/// The screen that matches ask for.
fn screening_of(found: &ArgMatches<'_>) -> Screening
    requires { HasScreening (rows_of (found_of found.now)) }
    ensures { TellsScreening (rows_of (found_of found.now)) result }
{
    Screening {
        weight: number_told(found, "weight") as u16,
        radius: number_told(found, "radius"),
        count: number_told(found, "count"),
        patch: number_told(found, "patch"),
        side: number_told(found, "tile"),
    }
}

/// The displacements that matches ask for.
fn displacing_of(found: &ArgMatches<'_>) -> Displacing
    requires { HasDisplacing (rows_of (found_of found.now)) }
    ensures { TellsDisplacing (rows_of (found_of found.now)) result }
{
    Displacing {
        wavelength: number_told(found, "wavelength"),
        x: number_told(found, "x"),
        y: number_told(found, "y"),
        block: number_told(found, "block"),
    }
}

/// The settings that matches give, with the workers.
fn solving_settings(found: &ArgMatches<'_>) -> Option<Settings>
    requires options { HasSolving (rows_of (found_of found.now)) }
    ensures told { IfSome result (TellsSettings (rows_of (found_of found.now))) }
    ensures workers { IfSome result (λ settings. number_asked (codes "workers") (rows_of (found_of found.now)) ≡ Some settings.workers) }
    ensures refused { IfNone result (NamesNoRule (rows_of (found_of found.now))) }
{
    let side = number_told(found, "tile");
    settings_with(found, side, number_told(found, "workers"))
}

/// The settings that matches give, with the default of workers.
fn checking_settings(found: &ArgMatches<'_>) -> Option<Settings>
    requires options { HasChecking (rows_of (found_of found.now)) }
    ensures told { IfSome result (TellsSettings (rows_of (found_of found.now))) }
    ensures workers { IfSome result (λ settings. settings.workers ≡ 2) }
    ensures refused { IfNone result (NamesNoRule (rows_of (found_of found.now))) }
{
    settings_with(found, number_told(found, "tile"), DEFAULT_WORKERS)
}

/// The settings that matches give, with the workers and the default of the side of tiles.
fn whole_settings(found: &ArgMatches<'_>) -> Option<Settings>
    requires options { HasWholeSolving (rows_of (found_of found.now)) }
    ensures told { IfSome result (TellsWhole (rows_of (found_of found.now))) }
    ensures workers { IfSome result (λ settings. number_asked (codes "workers") (rows_of (found_of found.now)) ≡ Some settings.workers) }
    ensures refused { IfNone result (NamesNoRule (rows_of (found_of found.now))) }
{
    settings_with(found, DEFAULT_TILE_SIDE, number_told(found, "workers"))
}

/// The settings that matches give, with this side of tiles and this number of workers.
fn settings_with(found: &ArgMatches<'_>, side: u32, workers: u32) -> Option<Settings>
    requires options { HasTerms (rows_of (found_of found.now)) }
    requires sides { IsTileSide side }
    requires crew { IsWorkers workers }
    ensures told { IfSome result (TellsTerms (rows_of (found_of found.now))) }
    ensures side { IfSome result (λ settings. settings.side ≡ side) }
    ensures workers { IfSome result (λ settings. settings.workers ≡ workers) }
    ensures refused { IfNone result (NamesNoRule (rows_of (found_of found.now))) }
{
    Some(Settings {
        rule: rule_told(found)?,
        side,
        terms: terms_told(found),
        workers,
    })
}

/// The terms that matches give: a ramp, and the steepness of costs.
fn terms_told(found: &ArgMatches<'_>) -> Terms
    requires { HasTerms (rows_of (found_of found.now)) }
    ensures across { slope_asked (codes "ramp-x") (rows_of (found_of found.now)) ≡ Some result.ramp_x }
    ensures along { slope_asked (codes "ramp-y") (rows_of (found_of found.now)) ≡ Some result.ramp_y }
    ensures steep { number_asked (codes "steep") (rows_of (found_of found.now)) ≡ Some result.steep }
{
    Terms {
        ramp_x: slope_told(found, "ramp-x"),
        ramp_y: slope_told(found, "ramp-y"),
        steep: number_told(found, "steep"),
    }
}

/// The slope that matches give for a name.
fn slope_told(found: &ArgMatches<'_>, name: &str) -> i32
    requires { HasNumber name.now 0 MAX_SLOPE_NUMBER (rows_of (found_of found.now)) }
    ensures told { slope_asked name.now (rows_of (found_of found.now)) ≡ Some result }
    ensures slope { IsSlope result }
{
    slope_for(number_told(found, name))
}

/// The slope for which a number from 0 to 65535 stands: itself, or from 32768 on itself less 65536.
fn slope_for(number: u32) -> i32
    requires { number ≤ MAX_SLOPE_NUMBER }
    ensures told { result ≡ slope_by number }
    ensures slope { IsSlope result }
{
    let slope = number as i32;
    if number < 32768 { slope } else { slope - 65536 }
}

/// The rule that matches name.
#[tactic(auto, using(crate::proofs::RequestLemmas::texts_read))]
fn rule_told(found: &ArgMatches<'_>) -> Option<RuleKind>
    requires { HasText (codes "rule") (rows_of (found_of found.now)) }
    ensures told { IfSome result (λ rule. first_of (codes "rule") (rows_of (found_of found.now)) ≡ Some (rule_name rule)) }
    ensures refused { IfNone result (NamesNoRule (rows_of (found_of found.now))) }
{
    match found.get_str("rule").unwrap() {
        "least" => Some(RuleKind::Least),
        "mean" => Some(RuleKind::Mean),
        "product" => Some(RuleKind::Product),
        _ => None,
    }
}

/// The number that matches give for a name.
fn number_told(found: &ArgMatches<'_>, name: &str) -> u32
    requires { HasNumber name.now 0 4294967295 (rows_of (found_of found.now)) }
    ensures { number_asked name.now (rows_of (found_of found.now)) ≡ Some result }
{
    found.get_one::<u32>(name).unwrap()
}

/// The seed that matches give.
fn seed_told(found: &ArgMatches<'_>) -> u64
    requires { HasNumber (codes "seed") 0 18446744073709551615 (rows_of (found_of found.now)) }
    ensures { number_asked (codes "seed") (rows_of (found_of found.now)) ≡ Some result }
{
    found.get_one::<u64>("seed").unwrap()
}
