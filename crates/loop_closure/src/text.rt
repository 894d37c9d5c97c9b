ghost use Rattle.auto_masks.specs.Patches.{patch_size};
ghost use Rattle.grid_writer.specs.Values.{is_value};
ghost use Rattle.loop_closure.specs.Closure.{is_misclosed};
ghost use Rattle.loop_closure.specs.LoopText.{closed_count, counts_line, loops_text, misclosed_count, patch_line};
ghost use Rattle.std.specs.List.{count_by};
ghost use Rattle.std.specs.Prelude.{◌≡◌, ◌<◌, ◌≤◌, length};
ghost use Rattle.text_lines.specs.Adding.{Adds, Puts};
ghost use Rattle.text_lines.specs.Text.{texts_below};
ghost use Rattle.text_lines.specs.Views.{view_of};

use crate::cycles::key;
use crate::loops::Loops;
use grid_writer::{NO_DATA, add_values};
use insar_ports::{Sink, WriteFault};
use text_lines::{TextWriter, add_field, add_long_field, add_signed_field};

/// Writes closures: the line `closure P M K` with the number of pixels that have a closure, of those that are misclosed and of
/// their patches, then for each patch a line `patch X Y SIZE N` with its first pixel, its size and its cycles, then the grid
/// of closures and the grid of cycles. It takes no memory. After a fault the sink has a part of the text.
pub fn write_loops<K: Sink>(loops: &Loops, sink: &mut K) -> Result<(), WriteFault>
    ensures { Puts (K.held sink.old) (K.faults sink.old) (K.held sink.new) (K.faults sink.new) (loops_text loops.now) result }
{
    let mut text = TextWriter::new(sink);
    add_counts(&mut text, loops);
    add_patches(&mut text, loops);
    add_values(&mut text, &loops.closures);
    add_values(&mut text, &loops.cycles);
    text.finish()
}

/// Adds the line of counts.
fn add_counts<K: Sink>(text: &mut TextWriter<K>, loops: &Loops)
    ensures { Adds (view_of K.held K.faults text.old) (view_of K.held K.faults text.new) (counts_line loops.now) }
{
    text.bytes(b"closure");
    add_long_field(text, closed(&loops.closures.values) as u64);
    add_long_field(text, misclosed(&loops.cycles.values) as u64);
    add_field(text, loops.patches.count());
    text.end_line();
}

/// Adds the lines of the patches.
fn add_patches<K: Sink>(text: &mut TextWriter<K>, loops: &Loops)
    ensures { Adds (view_of K.held K.faults text.old) (view_of K.held K.faults text.new) (texts_below loops.now.patches.count (patch_line loops.now)) }
{
    for patch in 0..loops.patches.count() {
        add_patch(text, loops, patch);
    }
}

/// Adds the line of a patch.
fn add_patch<K: Sink>(text: &mut TextWriter<K>, loops: &Loops, patch: u32)
    requires { patch < loops.now.patches.count }
    ensures { Adds (view_of K.held K.faults text.old) (view_of K.held K.faults text.new) (patch_line loops.now patch) }
{
    let (x, y) = loops.patches.first(patch);
    let place = y as usize * loops.cycles.width as usize + x as usize;
    text.bytes(b"patch");
    add_field(text, x);
    add_field(text, y);
    add_field(text, loops.patches.size(patch));
    add_signed_field(text, loops.cycles.values.get(place).copied().unwrap_or(0));
    text.end_line();
}

/// How many values are there.
fn closed(closures: &[i64]) -> usize
    ensures { result ≡ count_by is_value closures.now }
{
    let mut count = 0;
    for closure in closures {
        if *closure != NO_DATA {
            count += 1;
        }
    }
    count
}

/// How many of the cycles are not 0.
fn misclosed(cycles: &[i64]) -> usize
    ensures { result ≡ count_by is_misclosed cycles.now }
{
    let mut count = 0;
    for cycles in cycles {
        if key(*cycles) != 0 {
            count += 1;
        }
    }
    count
}
