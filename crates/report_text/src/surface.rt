ghost use Rattle.text_lines.specs.Numbers.{AreLongs};
ghost use Rattle.report_text.specs.Contents.{IsSurfaceInRange};
ghost use Rattle.text_lines.specs.Parsing.{IsWide};
ghost use Rattle.report_text.specs.Reports.{surface_of};
ghost use Rattle.report_text.specs.Text.{costs_line, flows_line, surface_block_text};
ghost use Rattle.text_parts.specs.Text.{ended_line};
ghost use Rattle.raster_model.specs.Tiles.{tiles_of};
ghost use Rattle.std.specs.Prelude.{◌≡◌};
ghost use Rattle.surface_snapshots.specs.Views.{parts_of};
ghost use Rattle.text_lines.specs.Adding.{Adds};
ghost use Rattle.text_lines.specs.Views.{view_of};

use crate::faces::FaceLines;
use crate::scribe::Scribe;
use insar_ports::Sink;
use surface_snapshots::Snapshot;
use text_lines::{TextWriter, add_numbers, add_wide_field};

/// Adds the lines of a published surface: costs, grid, the faces of each of `tiles` tiles, flows.
pub(crate) fn add_surface<K: Sink, C: Scribe>(
    text: &mut TextWriter<K>,
    scribe: &mut C,
    tiles: u32,
    snapshot: &Snapshot,
)
    requires ready { C.ready scribe.old }
    requires tiles { tiles ≡ tiles_of (parts_of snapshot.now).session.scene.tiling }
    ensures ready { C.ready scribe.new }
    ensures text { Adds (view_of K.held K.faults text.old) (view_of K.held K.faults text.new) (surface_block_text (parts_of snapshot.now).session.scene.phase.width (parts_of snapshot.now).session.scene.phase.height tiles (surface_of (parts_of snapshot.now))) }
    ensures ranges { IsSurfaceInRange (parts_of snapshot.now).session.scene.phase.width (parts_of snapshot.now).session.scene.phase.height tiles (surface_of (parts_of snapshot.now)) }
{
    add_costs(text, snapshot.tile_cost(), snapshot.seam_cost());
    scribe.add_grid(text, snapshot);
    scribe.add_faces(text, &FaceLines { snapshot, tiles });
    add_flows(text, snapshot.flows());
}

fn add_costs<K: Sink>(text: &mut TextWriter<K>, tiles: u128, seams: u128)
    ensures text { Adds (view_of K.held K.faults text.old) (view_of K.held K.faults text.new) (ended_line costs_line (tiles, seams)) }
    ensures costs { IsWide tiles × IsWide seams }
{
    text.bytes(b"costs");
    add_wide_field(text, tiles);
    add_wide_field(text, seams);
    text.end_line();
}

fn add_flows<K: Sink>(text: &mut TextWriter<K>, flows: &[i64])
    ensures text { Adds (view_of K.held K.faults text.old) (view_of K.held K.faults text.new) (ended_line flows_line flows.now) }
    ensures longs { AreLongs flows.now }
{
    text.bytes(b"flows");
    add_numbers(text, flows);
    text.end_line();
}
