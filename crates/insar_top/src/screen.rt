ghost use Rattle.auto_masks.specs.Screened.{AreScreenTerms, IsScreened};
ghost use Rattle.insar_commands.specs.Ends.{IsRequestEnd};
ghost use Rattle.insar_commands.specs.Run.{run_of};
ghost use Rattle.insar_commands.specs.Screen.{HasScreenedMask, screen_terms};
ghost use Rattle.insar_words.specs.declared.request.Request.TheVariants as requests;
ghost use Rattle.raster_model.specs.Masks.{open_at};
ghost use Rattle.std.specs.Prelude.{◌≡◌, IfOk};

use answer_lines::Refusal;
use auto_masks::{Screen, ScreenTerms};
use insar_commands::{end_of, read_given};
use insar_ports::{Sink, Source};
use insar_words::{Screening, Settings};
use raster_model::{Mask, Plane, RuleKind, Session, Terms};
use session_script::write_session;
use std::alloc::{AllocError, Global};
use std::thread::Threads;

/// Reads a session, screens its first mask as the words set it, writes the session with the mask that this makes, and answers
/// the status 0.
pub fn run_screen<R: Threads + Sync, S: Source, K: Sink>(
    rt: &R,
    alloc: Global,
    screening: Screening,
    source: &mut S,
    sink: &mut K,
) -> Result<u8, Refusal>
    ensures { IsRequestEnd (requests.Screen screening) (run_of S.left S.faults source.old source.new K.held K.faults sink.old sink.new) result }
{
    let session = read_given(rt, alloc, source, settings_of(screening))?;
    let screened = screen_session(alloc, terms_of(screening), session)?;
    end_of(write_session(&screened, sink), 0)
}

/// The settings on which the session is read, by one thread.
fn settings_of(screening: Screening) -> Settings
    ensures { result.side ≡ screening.side }
{
    Settings {
        rule: RuleKind::Least,
        side: screening.side,
        terms: Terms::plain(),
        workers: 1,
    }
}

/// The terms of the screen that the words ask for.
fn terms_of(screening: Screening) -> ScreenTerms
    ensures terms { result ≡ screen_terms screening }
    ensures ranged { AreScreenTerms result }
{
    ScreenTerms {
        weight: screening.weight,
        radius: screening.radius,
        count: screening.count,
        patch: screening.patch,
    }
}

/// The session with the mask that a screen makes of its first mask.
fn screen_session(
    alloc: Global,
    terms: ScreenTerms,
    session: Session,
) -> Result<Session, AllocError>
    requires { AreScreenTerms terms }
    ensures { IfOk result (λ screened. HasScreenedMask terms session screened) }
{
    let Session {
        scene,
        first_mask,
        scripts,
    } = session;
    let first_mask = screen_mask(alloc, terms, &scene.weights, &first_mask)?;
    Ok(Session {
        scene,
        first_mask,
        scripts,
    })
}

/// What a screen makes of a mask.
fn screen_mask(
    alloc: Global,
    terms: ScreenTerms,
    weights: &Plane,
    mask: &Mask,
) -> Result<Mask, AllocError>
    requires ranged { AreScreenTerms terms }
    requires across { mask.now.width ≡ weights.now.width }
    requires along { mask.now.height ≡ weights.now.height }
    ensures { IfOk result (λ made. IsScreened terms weights.now (open_at mask.now) made) }
{
    let is_enough = Box::new(alloc, move |weight: u16, count: u32| {
        terms.weight <= weight && terms.count <= count
    })?;
    Screen::new(terms, is_enough).apply(alloc, weights, mask)
}
