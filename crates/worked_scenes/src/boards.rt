//! Sessions and boards of a text, which meet every limit that a board requires.
ghost use Rattle.std.specs.Prelude.{◌≡◌, ◌≤◌, [], IfOk};

use insar_ports::{Feed, MemorySource};
use raster_model::{MAX_TILE_SIDE, MIN_TILE_SIDE, RuleKind, Session, Terms};
use session_script::{SessionFault, SessionUse, read_session};
use std::alloc::{AllocError, Global};
use std::sync::Arc;
use tile_board::Board;

/// The session of a text, by the rule least, with tiles of a side.
pub fn session(alloc: Global, text: &str, side: u32) -> Result<Session, SessionFault>
    requires { (MIN_TILE_SIDE ≤ side) × (side ≤ MAX_TILE_SIDE) }
{
    let bytes = Vec::from_slice(alloc, text.as_bytes())?;
    let mut source = MemorySource::new(bytes, 4096, Vec::new(alloc));
    let mut feed = Feed::new(alloc, &mut source, 268_435_456)?;
    read_session(alloc, &mut feed, SessionUse::Alone, side, RuleKind::Least)
}

/// The board of a session.
fn begun(alloc: Global, session: Session) -> Result<Board, AllocError>
    ensures { IfOk result (λ board. board.entries ≡ []) }
{
    let session = Arc::new(alloc, session)?;
    Board::new(alloc, session)
}

/// The board of a session's text, with tiles of a side.
pub fn board(alloc: Global, text: &str, side: u32) -> Result<Board, SessionFault>
    requires { (MIN_TILE_SIDE ≤ side) × (side ≤ MAX_TILE_SIDE) }
    ensures { IfOk result (λ board. board.entries ≡ []) }
{
    board_on(alloc, Terms::plain(), text, side)
}

/// The same on these terms.
pub fn board_on(alloc: Global, terms: Terms, text: &str, side: u32) -> Result<Board, SessionFault>
    requires { (MIN_TILE_SIDE ≤ side) × (side ≤ MAX_TILE_SIDE) }
    ensures { IfOk result (λ board. board.entries ≡ []) }
{
    let session = session(alloc, text, side)?;
    Ok(begun(alloc, session.with_terms(terms))?)
}
