ghost use Rattle.std.specs.Prelude.{◌≡◌, ◌≤◌, ◌⊎◌, ℕ, List, Err, IfSome};
ghost use Rattle.insar_ports.specs.Bytes.{HasRisen, with_end};
ghost use Rattle.insar_commands.specs.Answers.{HasAnswered, HasCutShort, IsDoneStatus, IsInputTo, IsWithinInput, input_of};
ghost use Rattle.insar_commands.specs.Causes.{HasRefusalCause};
ghost use Rattle.insar_commands.specs.Check.{IsJudged, IsVerdictTold};
ghost use Rattle.insar_commands.specs.CheckWhole.{IsWholeJudged, IsWholeVerdictTold};
ghost use Rattle.insar_commands.specs.Ends.{IsLineAt, IsRequestEnd, end_status, line_of_end};
ghost use Rattle.answer_lines.specs.RefusalLines.{refusal_line};
ghost use Rattle.answer_lines.specs.Refusals.{status_of};
ghost use Rattle.insar_commands.specs.Run.{IsUnread, run_of};
ghost use Rattle.insar_commands.specs.Unwrap.{IsDone};
ghost use Rattle.insar_commands.specs.Watch.{IsWatchDone};
ghost use Rattle.insar_commands.specs.Whole.{IsLeastDone};
ghost use Rattle.answer_lines.specs.declared.refusal.Refusal.{Refusal as AnyRefusal};
ghost use Rattle.answer_lines.specs.declared.refusal.Refusal.TheVariants as refusals;
ghost use Rattle.insar_words.specs.Asked.{IsCheck, IsCheckWhole, IsCommand, IsRefused, IsWatch, IsWhole, Options};
ghost use Rattle.insar_words.specs.Requests.{AskSomething, IsRequest};
ghost use Rattle.insar_words.specs.declared.request.Request.{Request as Asked};
ghost use Rattle.report_check.specs.declared.verdict.CheckVerdict.{CheckVerdict as AnyVerdict};
ghost use Rattle.whole_check.specs.declared.verdict.WholeVerdict.{WholeVerdict as AnyWholeVerdict};

use crate::screen::run_screen;
use answer_lines::{Refusal, put_refusal};
use insar_commands::{
    run_check, run_check_whole, run_closure, run_displacement, run_grid, run_nearest, run_parts,
    run_trial, run_unwrap, run_watch, run_whole,
};
use insar_ports::{Sink, Source};
use insar_words::{Request, read_words};
use std::alloc::Global;
use std::sync::Wait;
use std::thread::Threads;
use tile_workers::Gate;

/// Runs the program: `words` are those after its name. It reads the source, writes the result to the sink and, if it
/// refuses, one line to `diag`, and answers the exit status.
///
/// `unwrap` reads a session: PGM planes of phase, of weights and of a mask, the last two if they are there, and the analysts'
/// scripts. It runs the scripts at once and writes the report: the whole history, and each published surface with its costs
/// and certificates. `grid` does the same and writes only the last published surface, as a grid of values in units of
/// 1/65536 cycle, or nothing if none was published.
///
/// `check` reads a session and then a report, solves nothing, and writes one line: `accepted`, or the first reason why
/// the report is not certified for the session.
///
/// `trial SEED WIDTH HEIGHT` reads nothing from the source. It makes the test session of the number `SEED`, below 2^64, of
/// `WIDTH` times `HEIGHT` pixels, each from 1 to 4096 and together at most 4,194,304, runs it as `unwrap` does, and writes
/// four lines: how many pixels it has, how many cells of the whole raster have a residue, how many pixels are open, and what
/// the tiles cost.
///
/// `screen` reads a session that stands alone and writes it again with a first mask that keeps fewer pixels open. A pixel is
/// strong if it is open and its weight is at least `--weight`. A strong pixel passes if at least `--count` strong pixels,
/// itself included, are no more than `--radius` columns and rows away. It stays open if its patch, which are the passing
/// pixels that a walk over right, left, upper and lower neighbours joins it to, has at least `--patch` pixels. The weight is
/// from 0 to 65535, the radius from 0 to 64, the count from 0 to 16641, the patch from 0 to 4194304, and each 0 by default.
///
/// `closure` has no options. It reads three grids of one size, one after the other: phase 12, 23 and 13 of three acquisitions.
/// It writes how many pixels have a closure, how many are misclosed and in how many patches, a line for each patch, the grid
/// of closures and the grid of the whole cycles in them.
///
/// `displacement` reads one grid and writes another: how far the pixels moved along the line of sight in nanometres, averaged
/// over blocks, relative to a pixel that did not move. `--wavelength`, from 1 to 1000000000 nanometres, has to be given. `--x`
/// and `--y` are the column and the row of that pixel, from 0 to 4095, and 0 by default. `--block` is the side of the blocks
/// in pixels, from 1 to 64, and 1 by default.
///
/// `whole` reads a session as `unwrap` does, does not run its scripts, and solves the whole raster under its first mask. It
/// writes the surface that costs least of all congruent surfaces, whatever the tiles, with its cost and the faces that certify
/// it. `check-whole` reads a session and then such a text, solves nothing, and writes one line: `accepted`, or the first reason
/// why the surface is not certified for the session. Both have the words of `unwrap` and `check` but for `--tile`.
///
/// `watch` reads a session and runs its scripts as `unwrap` does, beside readers that look at the newest published surface and
/// wait for nobody. It writes a line `published R` for each published revision, in their order, and then for each reader a line
/// `reader I`, from 1, followed by those of these revisions that the reader saw or was told of when the scripts had ended.
/// `--readers N` is how many readers there are, from 1 to 8, and 1 by default; `--reads K` is how often each looks, from 1 to
/// 4096, and 16 by default.
///
/// `nearest` has no options. It reads a session, as `check` does, and then a grid of its size, and writes the grid that differs
/// from the session's phase by whole cycles at each open pixel of the first mask and is nearest to the one that was read: at
/// most half a cycle away, and of two that are half a cycle away the lower. Scripts are not run.
///
/// `parts` reads what `check-whole` reads, with its words, and where that would accept the surface, writes its parts: those in
/// which each surface that costs at most `--margin` more has the same cycles, up to one constant, and which have at least
/// `--least` pixels. It writes how many they are, the first pixel and the size of each, and a grid of their numbers. The margin
/// is from 0 to 4,294,967,295, and 0 by default; the least number of pixels is from 1 to 4,194,304, and 1 by default. Where
/// `check-whole` would refuse the surface, it answers as that does.
///
/// `--tile N` is the side of the square tiles in pixels, from 2 to 128, and 64 if the words do not give it; `screen` has it
/// for the limit of a session's edits alone. `--rule R` names how the weights of two pixels give that of their edge: `least`,
/// which is the default, `mean` or `product`. `--workers N` is how many workers solve the tiles of an analyst at once, from 1
/// to 8, and 2 by default, each of which passes the gate before it solves; `whole` solves and writes with as many threads at
/// most, with no gate, and `check`, `check-whole` and `parts` have none. `--ramp-x N` and
/// `--ramp-y N` are what the phase is expected to rise from a pixel to its right and to its lower neighbour, in units of
/// 1/65536 cycle: N from 0 to 65535, of which those from 32768 on stand for N - 65536, and 0 by default. Differences are
/// wrapped around it. `--steep N`, from 1 to 16, is how many times as much as the first cycle of a departure each further one
/// costs, and 1 by default.
///
/// Words are checked before the source is read, as `clap` reads them, and a call for help is refused like others. A fault of
/// `diag` changes nothing.
pub fn insar<R: Threads + Wait + Sync, S: Source, K: Sink, D: Sink, G: Gate>(
    rt: &R,
    alloc: Global,
    words: &[&str],
    source: &mut S,
    sink: &mut K,
    diag: &mut D,
    gate: &G,
) -> u8
    ensures status { result ≤ 6 }
    // 0 of `unwrap`: the bytes were the text of one session, nothing is left, and the sink gained exactly the text of its
    // report: each surface in it is certified and the best at its revision's mask.
    ensures headline { (options : Options) → IsCommand words.now options → result ≡ 0 → IsDone options (run_of S.left S.faults source.old source.new K.held K.faults sink.old sink.new) }
    // 0 of `whole`: the bytes were the text of one session, nothing is left, and the sink gained exactly the text of a surface
    // that no congruent surface for the first mask costs less than, with its certificate and its cost.
    ensures least { (options : Options) → IsWhole words.now options → result ≡ 0 → IsLeastDone options (run_of S.left S.faults source.old source.new K.held K.faults sink.old sink.new) }
    // 0 of `watch`: the bytes were the text of one session, nothing is left, and the sink gained exactly a line for each
    // publication of a complete legal history of it, and then a line for each reader: of the published revisions some that
    // rise, and the last.
    ensures watched { (options : Options) → IsWatch words.now options → result ≡ 0 → IsWatchDone options (run_of S.left S.faults source.old source.new K.held K.faults sink.old sink.new) }
    // 0, and 1 of `check`, `check-whole` and `parts`: the bytes were what the request reads, nothing is left, and the sink gained exactly the text that
    // answers it.
    ensures done { (asked : Asked) → IsRequest words.now asked → result ≤ 1 → HasAnswered asked (run_of S.left S.faults source.old source.new K.held K.faults sink.old sink.new) result }
    // 2 to 6: a refusal with its cause, and its line.
    ensures refused { (asked : Asked) → IsRequest words.now asked → 2 ≤ result → (refusal : AnyRefusal) × ((result ≡ status_of refusal) × (HasRefusalCause asked (run_of S.left S.faults source.old source.new K.held K.faults sink.old sink.new) refusal × ((HasRisen (D.faults diag.old) (D.faults diag.new) → ⊥) → D.held diag.new ≡ with_end (D.held diag.old) (refusal_line refusal)))) }
    // 6: the sink gained a part of a text that would have answered the request.
    ensures cut { (asked : Asked) → IsRequest words.now asked → result ≡ 6 → HasCutShort asked (run_of S.left S.faults source.old source.new K.held K.faults sink.old sink.new) }
    // What is not of the request's form is refused for that, or for what came first.
    ensures taken { (asked : Asked) → IsRequest words.now asked → IfSome (input_of asked (run_of S.left S.faults source.old source.new K.held K.faults sink.old sink.new)) (λ bytes. (IsInputTo asked bytes → ⊥) → (result ≡ 3) ⊎ ((result ≡ 4) ⊎ (result ≡ 5))) }
    // What is of the form is never refused but for want of memory, if no fault is counted.
    ensures complete { (asked : Asked) → IsRequest words.now asked → IfSome (input_of asked (run_of S.left S.faults source.old source.new K.held K.faults sink.old sink.new)) (λ bytes. IsInputTo asked bytes →
        (HasRisen (S.faults source.old) (S.faults source.new) → ⊥) → (HasRisen (K.faults sink.old) (K.faults sink.new) → ⊥) → IsDoneStatus asked result ⊎ (result ≡ 4)) }
    // A trial takes nothing from the source, and no fault of it is counted.
    ensures alone { (asked : Asked) → IsRequest words.now asked → IsWithinInput asked (run_of S.left S.faults source.old source.new K.held K.faults sink.old sink.new) }
    // Whatever session and report the bytes of a check are the text of: at 0 the verdict on them is Accepted and at 1 it is
    // not, and the line is its own.
    ensures judged { (options : Options) → IsCheck words.now options → IfSome (S.left source.old) (λ bytes. (verdict : AnyVerdict) → IsJudged options bytes verdict → IsVerdictTold result (run_of S.left S.faults source.old source.new K.held K.faults sink.old sink.new) verdict) }
    // So it is of a check of a whole surface.
    ensures judged_whole { (options : Options) → IsCheckWhole words.now options → IfSome (S.left source.old) (λ bytes. (verdict : AnyWholeVerdict) → IsWholeJudged options bytes verdict → IsWholeVerdictTold result (run_of S.left S.faults source.old source.new K.held K.faults sink.old sink.new) verdict) }
    // 2: the words are refused. Reading them may want memory, but the source is not read, whatever is answered.
    ensures words_refused { result ≡ 2 → IsRefused words.now }
    ensures unread { result ≡ 2 → IsUnread (run_of S.left S.faults source.old source.new K.held K.faults sink.old sink.new) }
    ensures words_taken { IsRefused words.now → (result ≡ 2) ⊎ (result ≡ 4) }
    ensures refused_unread { IsRefused words.now → IsUnread (run_of S.left S.faults source.old source.new K.held K.faults sink.old sink.new) }
    ensures named { (result ≡ 2 → ⊥) → (result ≡ 4 → ⊥) → AskSomething words.now }
    // 5 and 6: a fault was counted.
    ensures read_fault { result ≡ 5 → HasRisen (S.faults source.old) (S.faults source.new) }
    ensures write_fault { result ≡ 6 → HasRisen (K.faults sink.old) (K.faults sink.new) }
    ensures untouched { 2 ≤ result → result ≤ 5 → K.held sink.new ≡ K.held sink.old }
    ensures told { (HasRisen (D.faults diag.old) (D.faults diag.new) → ⊥) → (line : List ℕ) × (IsLineAt result line × (D.held diag.new ≡ with_end (D.held diag.old) line)) }
{
    let ended = match read_words(alloc, words) {
        Ok(request) => do_request(rt, alloc, request, source, sink, gate),
        Err(fault) => Err(Refusal::from(fault)),
    };
    status_told(diag, ended)
}

/// If there is no memory for the words: puts the line that says so, and answers the exit status.
pub fn starved<D: Sink>(diag: &mut D) -> u8
    ensures status { result ≡ 4 }
    ensures told { (HasRisen (D.faults diag.old) (D.faults diag.new) → ⊥) → D.held diag.new ≡ with_end (D.held diag.old) (refusal_line refusals.Memory) }
{
    status_told(diag, Err(Refusal::Memory))
}

/// Does what is asked for. The status is 1 if what is checked is not accepted, and otherwise 0.
fn do_request<R: Threads + Wait + Sync, S: Source, K: Sink, G: Gate>(
    rt: &R,
    alloc: Global,
    request: Request,
    source: &mut S,
    sink: &mut K,
    gate: &G,
) -> Result<u8, Refusal>
    ensures { IsRequestEnd request (run_of S.left S.faults source.old source.new K.held K.faults sink.old sink.new) result }
{
    match request {
        Request::Unwrap(settings) => run_unwrap(rt, alloc, settings, source, sink, gate),
        Request::Grid(settings) => run_grid(rt, alloc, settings, source, sink, gate),
        Request::Check(settings) => run_check(alloc, settings, source, sink),
        Request::Trial(trial) => run_trial(rt, alloc, trial, sink, gate),
        Request::Screen(screening) => run_screen(rt, alloc, screening, source, sink),
        Request::Closure => run_closure(alloc, source, sink),
        Request::Displacement(displacing) => run_displacement(alloc, displacing, source, sink),
        Request::Whole(settings) => run_whole(rt, alloc, settings, source, sink),
        Request::CheckWhole(settings) => run_check_whole(rt, alloc, settings, source, sink),
        Request::Watch(watching) => run_watch(rt, alloc, watching, source, sink, gate),
        Request::Nearest => run_nearest(alloc, source, sink),
        Request::Parts(parting) => run_parts(rt, alloc, parting, source, sink),
    }
}

/// The exit status of an end; the line of a refusal is put. Nothing is done if it cannot be put.
fn status_told<D: Sink>(diag: &mut D, ended: Result<u8, Refusal>) -> u8
    ensures status { result ≡ end_status ended }
    ensures told { (HasRisen (D.faults diag.old) (D.faults diag.new) → ⊥) → D.held diag.new ≡ with_end (D.held diag.old) (line_of_end ended) }
{
    match ended {
        Ok(status) => status,
        Err(refusal) => {
            let _put = put_refusal(diag, refusal);
            refusal.status()
        }
    }
}
