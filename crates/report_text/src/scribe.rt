ghost use denote.Param.Send.{IsSync};
ghost use Rattle.grid_writer.specs.Grids.{IsGrid, text_of_grid};
ghost use Rattle.grid_writer.specs.Shown.{shown_grid};
ghost use Rattle.report_text.specs.Text.{all_faces_text};
ghost use Rattle.std.specs.Prelude.{◌<◌, ℕ, ⊤};
ghost use Rattle.surface_snapshots.specs.Parts.{faces_in};
ghost use Rattle.surface_snapshots.specs.Views.{parts_of};
ghost use Rattle.text_lines.specs.Adding.{Adds};
ghost use Rattle.text_lines.specs.Numbers.{AreLongs};
ghost use Rattle.text_lines.specs.Views.{view_of};

use crate::faces::FaceLines;
use grid_writer::{add_grid, add_grid_side_by_side};
use insar_ports::Sink;
use std::thread::Threads;
use surface_snapshots::Snapshot;
use text_lines::TextWriter;
use text_pages::{Pages, add_all, add_side_by_side};

/// Who makes the lines of a surface: one thread, or several side by side.
pub(crate) trait Scribe {
    /// What its calls need: that its threads can be started.
    ghost ready: { Self → Type 0 };

    /// Adds the grid of a surface.
    fn add_grid<K: Sink>(&mut self, text: &mut TextWriter<K>, snapshot: &Snapshot)
        requires { ready self.old }
        ensures ready { ready self.new }
        ensures added { Adds (view_of K.held K.faults text.old) (view_of K.held K.faults text.new) (text_of_grid (shown_grid (parts_of snapshot.now))) }
        ensures ranges { IsGrid (shown_grid (parts_of snapshot.now)) };

    /// Adds the lines of faces of a surface.
    fn add_faces<K: Sink>(&mut self, text: &mut TextWriter<K>, faces: &FaceLines<'_>)
        requires { ready self.old }
        ensures ready { ready self.new }
        ensures added { Adds (view_of K.held K.faults text.old) (view_of K.held K.faults text.new) (all_faces_text faces.now.tiles (faces_in (parts_of faces.now.snapshot.now))) }
        ensures longs { (t : ℕ) → t < faces.now.tiles → AreLongs (faces_in (parts_of faces.now.snapshot.now) t) };
}

/// One thread.
#[derive(Drop)]
pub(crate) struct OneThread;

impl Scribe for OneThread {
    ghost ready = { λ s. ⊤ };

    fn add_grid<K: Sink>(&mut self, text: &mut TextWriter<K>, snapshot: &Snapshot) {
        add_grid(text, snapshot);
    }

    fn add_faces<K: Sink>(&mut self, text: &mut TextWriter<K>, faces: &FaceLines<'_>) {
        add_all(text, faces);
    }
}

/// Several threads, each on a page of its own.
#[derive(Drop)]
pub(crate) struct SideBySide<'a, R> {
    pub(crate) rt: &'a R,
    pub(crate) pages: Pages,
}

impl<R: Threads + Sync> Scribe for SideBySide<'_, R> {
    ghost ready = { λ s. IsSync R.row };

    fn add_grid<K: Sink>(&mut self, text: &mut TextWriter<K>, snapshot: &Snapshot) {
        add_grid_side_by_side(self.rt, &mut self.pages, text, snapshot);
    }

    fn add_faces<K: Sink>(&mut self, text: &mut TextWriter<K>, faces: &FaceLines<'_>) {
        add_side_by_side(self.rt, &mut self.pages, text, faces);
    }
}
