ghost use Rattle.report_check.specs.Replays.{entries_in};
ghost use Rattle.report_check.specs.Verdicts.{BreaksHistoryAt};
ghost use Rattle.std.specs.Prelude.{IfOk, MatchOption};
ghost use Rattle.tile_board.specs.Histories.{IsComplete, IsLegal};

use crate::replay::Replay;
use raster_model::Session;
use report_text::Item;
use std::alloc::{AllocError, Global};

/// The number, from 1, of the first entry that may not come after those before it; or, if all may and the history
/// is not complete, one more than their number.
pub(crate) fn first_break(
    alloc: Global,
    session: &Session,
    items: &[Item],
) -> Result<Option<u64>, AllocError>
    ensures { IfOk result (λ found. MatchOption found (IsLegal session.now (entries_in items.now) × IsComplete session.now (entries_in items.now)) (BreaksHistoryAt session.now (entries_in items.now))) }
{
    let mut replay = Replay::new(alloc, session)?;
    for (place, item) in items.iter().enumerate() {
        if !replay.may_take(session, item.entry) {
            return Ok(Some(place as u64 + 1));
        }
        replay.take(alloc, item.entry)?;
    }
    if replay.is_complete(session) {
        return Ok(None);
    }
    Ok(Some(items.len() as u64 + 1))
}
