ghost use Rattle.board_desk.specs.Mine.{mine_of};
ghost use Rattle.std.specs.Prelude.{◌≡◌, length};
ghost use Rattle.tile_board.specs.Boards.{IsBoard};
ghost use Rattle.tile_board.specs.Histories.{newest_of};

use crate::lock::Place;
use std::marker::Model;
use tile_board::Board;

/// With a pass an analyst or a worker asks the desk. It records how much of the history was seen through it, and what
/// was added through it in the analyst's name.
#[derive(Drop)]
pub struct Pass {
    pub(crate) seat: Place,
    pub(crate) analyst: Option<u32>,
    pub(crate) heard: Heard,
    pub(crate) ended: bool,
}

impl Model for Pass {
    ghost use Rattle.board_desk.specs.Passes.{IsSound, PassView};
    ghost use Rattle.board_desk.specs.Seats.{IsHeard, pass_view};
    ghost use Rattle.std.specs.Prelude.{◌≡◌, [], false};

    ghost Value = { PassView };

    ghost view = { λ p. pass_view p.seat.table_id p.seat.me p.ended };

    ghost invariant = { λ p. (p.seat.me.1 ≡ []) × (p.seat.me.0.holds ≡ false) × (p.seat.me.0.own.analyst ≡ p.analyst) × IsHeard (pass_view p.seat.table_id p.seat.me p.ended) p.heard × IsSound (pass_view p.seat.table_id p.seat.me p.ended) };
}

/// What a pass remembers of the history that was seen through it.
#[derive(Clone, Copy)]
pub(crate) struct Heard {
    /// The length of that history.
    pub(crate) front: u64,
    /// The newest published revision in it; None if it has none.
    pub(crate) newest: Option<u32>,
    /// How many entries in it name the analyst.
    pub(crate) done: u32,
}

impl Heard {
    /// What a pass of this analyst remembers of a board's history.
    pub(crate) fn of(board: &Board, analyst: Option<u32>) -> Heard
        ensures front { result.front ≡ length board.now.entries }
        ensures newest { result.newest ≡ newest_of board.now.entries }
        ensures done { result.done ≡ length (mine_of analyst board.now.entries) }
        ensures board { IsBoard board.now }
    {
        Heard {
            front: board.entries().len() as u64,
            newest: board.newest(),
            done: own_count(board, analyst),
        }
    }
}

/// How many entries of a board's history name an analyst.
fn own_count(board: &Board, analyst: Option<u32>) -> u32
    ensures { result ≡ length (mine_of analyst board.now.entries) }
{
    match analyst {
        Some(number) => board.done(number),
        None => 0,
    }
}

impl Pass {
    ghost use Rattle.board_desk.specs.Passes.{IsSound};
    ghost use Rattle.std.specs.Prelude.{◌≡◌, length};
    ghost use Rattle.tile_board.specs.Histories.{newest_of};

    /// The analyst, numbered from 1; None for a worker.
    pub fn analyst(&self) -> Option<u32>
        ensures { result ≡ self.now.analyst }
    {
        self.analyst
    }

    /// The length of the longest history that was seen, in entries.
    pub fn front(&self) -> u64
        ensures { result ≡ length self.now.seen }
    {
        self.heard.front
    }

    /// The newest published revision of that history; None if it has none.
    pub fn newest_seen(&self) -> Option<u32>
        ensures { result ≡ newest_of self.now.seen }
    {
        self.heard.newest
    }

    /// How many commands of the analyst's script are done; 0 for a worker.
    pub fn done(&self) -> u32
        ensures { result ≡ length self.now.mine }
    {
        self.heard.done
    }

    /// Whether the desk has answered that the analyst's script is at its end.
    pub fn ended(&self) -> bool
        ensures value { result ≡ self.now.ended }
        ensures sound { IsSound self.now }
    {
        self.ended
    }
}
