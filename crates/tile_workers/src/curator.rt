ghost use Rattle.board_desk.specs.Passes.{IsPassOf};
ghost use Rattle.reader_desk.specs.Fronts.{HasAllOf};
ghost use Rattle.std.specs.Prelude.{◌≡◌, ◌<◌, IfOk, OnOk};
ghost use Rattle.surface_snapshots.specs.Views.{parts_of};
ghost use Rattle.tile_board.specs.Surfaces.{IsNewestIn};
ghost use Rattle.tile_workers.specs.Scripts.{HasSeenMore};
ghost use Rattle.tile_workers.specs.Watching.{HasCurated, HasPlaced, PlacesAbove, curator_view};

use crate::rising::is_above;
use board_desk::{Desk, Pass};
use reader_desk::ShelfWriter;
use std::alloc::AllocError;
use std::marker::Model;
use std::sync::Wait;
use std::thread::yield_now;
use surface_snapshots::Snapshot;

/// Asks a desk for its newest surface, with a worker's pass, and places it on a shelf. It is not `Drop`: end it by
/// `into_parts`.
pub struct Curator {
    pass: Pass,
    writer: ShelfWriter,
}

impl Model for Curator {
    ghost use Rattle.tile_workers.specs.Watching.{CuratorView, curator_view};

    ghost Value = { CuratorView };

    ghost view = { λ c. curator_view c.pass c.writer };
}

impl Curator {
    /// A curator with a worker's pass and the writer of a shelf.
    pub fn new(pass: Pass, writer: ShelfWriter) -> Curator
        ensures { result ≡ curator_view pass writer }
    {
        Curator { pass, writer }
    }

    /// The pass and the writer.
    pub fn into_parts(self) -> (Pass, ShelfWriter)
        ensures { curator_view result.0 result.1 ≡ self }
    {
        let Curator { pass, writer } = self;
        (pass, writer)
    }

    /// Asks so many times for the newest surface, and places each whose revision is above the last one that was placed. It
    /// lets other threads go first between two questions. It fails only for lack of memory.
    pub(crate) fn curate<R: Wait>(
        &mut self,
        rt: &R,
        desk: &Desk,
        reads: u32,
    ) -> Result<(), AllocError>
        requires { IsPassOf desk.now self.old.pass }
        ensures curated { HasCurated self.old self.new }
        ensures placed { OnOk result (0 < reads → HasPlaced self.new) }
    {
        for _read in 0..reads {
            self.look(rt, desk)?;
            yield_now();
        }
        Ok(())
    }

    /// Asks once.
    fn look<R: Wait>(&mut self, rt: &R, desk: &Desk) -> Result<(), AllocError>
        requires { IsPassOf desk.now self.old.pass }
        ensures curated { HasCurated self.old self.new }
        ensures placed { OnOk result (HasPlaced self.new) }
    {
        match newest(rt, desk, &mut self.pass)? {
            Some(surface) => place(rt, &mut self.writer, surface),
            None => Ok(()),
        }
    }
}

/// The newest surface of a desk.
pub(crate) fn newest<R: Wait>(
    rt: &R,
    desk: &Desk,
    pass: &mut Pass,
) -> Result<Option<Snapshot>, AllocError>
    requires { IsPassOf desk.now pass.old }
    ensures more { HasSeenMore pass.old pass.new }
    ensures newest { IfOk result (IsNewestIn desk.now.session pass.new.seen) }
{
    desk.newest(rt, pass).answer
}

/// Places a surface whose revision is above the last one that was placed.
fn place<R: Wait>(rt: &R, writer: &mut ShelfWriter, surface: Snapshot) -> Result<(), AllocError>
    ensures all { HasAllOf writer.old writer.new }
    ensures placed { OnOk result (PlacesAbove writer.old writer.new (parts_of surface)) }
{
    if is_above(surface.revision(), writer.last_placed()) {
        writer.place(rt, surface)?;
    }
    Ok(())
}
