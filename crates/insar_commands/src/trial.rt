ghost use Rattle.insar_commands.specs.Ends.{IsRequestEnd};
ghost use Rattle.insar_commands.specs.Run.{run_beside};
ghost use Rattle.insar_words.specs.declared.request.Request.TheVariants as requests;
ghost use Rattle.std.specs.Prelude.{ℕ, List, Option};

use crate::board::finished;
use crate::ends::end_of;
use crate::session::scene_of;
use answer_lines::{Refusal, put_summary, summary_of};
use insar_ports::Sink;
use insar_words::Trial;
use std::alloc::Global;
use std::sync::Wait;
use std::thread::Threads;
use tile_workers::Gate;
use trial_maker::make_session_on;

/// Makes the session that the words name, runs its script, writes four lines, and answers the status 0. The lines say how many
/// pixels there are, how many cells of the whole raster have a residue, how many pixels are open, and what the tiles of the
/// published surface cost.
pub fn run_trial<R: Threads + Wait + Sync, K: Sink, G: Gate>(
    rt: &R,
    alloc: Global,
    trial: Trial,
    sink: &mut K,
    gate: &G,
) -> Result<u8, Refusal>
    ensures { (told : Option (List ℕ)) (faults : ℕ) → IsRequestEnd (requests.Trial trial) (run_beside told faults K.held K.faults sink.old sink.new) result }
{
    let settings = trial.settings;
    let scene = scene_of(settings);
    let session = make_session_on(alloc, trial.seed, trial.width, trial.height, scene)?;
    let board = finished(rt, alloc, session, settings.workers, gate)?;
    end_of(put_summary(sink, summary_of(&board)), 0)
}
