ghost use Rattle.insar_commands.specs.Ends.{IsRequestEnd};
ghost use Rattle.insar_commands.specs.Run.{run_of};
ghost use Rattle.insar_commands.specs.Watch.{all_seen};
ghost use Rattle.insar_words.specs.declared.request.Request.TheVariants as requests;
ghost use Rattle.std.specs.Prelude.{◌+◌, ◌≤◌, [], length, slice_index_or};
ghost use Rattle.text_lines.specs.Adding.{Adds, Puts};
ghost use Rattle.text_lines.specs.Text.{texts_below};
ghost use Rattle.text_lines.specs.Views.{view_of};
ghost use Rattle.answer_lines.specs.WatchLines.{reader_line, watch_text};

use crate::ends::end_of;
use crate::session::read_given;
use crate::watching::watch_session;
use answer_lines::{Refusal, add_published, add_reader};
use insar_ports::{Sink, Source, WriteFault};
use insar_words::Watching;
use std::alloc::Global;
use std::sync::Wait;
use std::thread::Threads;
use text_lines::TextWriter;
use tile_workers::{Gate, Watcher};

/// Reads a session, runs its scripts beside readers as the words set it, writes what was published and what each reader saw of
/// it, and answers the status 0.
pub fn run_watch<R: Threads + Wait + Sync, S: Source, K: Sink, G: Gate>(
    rt: &R,
    alloc: Global,
    watching: Watching,
    source: &mut S,
    sink: &mut K,
    gate: &G,
) -> Result<u8, Refusal>
    ensures { IsRequestEnd (requests.Watch watching) (run_of S.left S.faults source.old source.new K.held K.faults sink.old sink.new) result }
{
    let session = read_given(rt, alloc, source, watching.settings)?;
    let (published, watchers) = watch_session(rt, alloc, session, watching, gate)?;
    end_of(put_lines(sink, &published, &watchers), 0)
}

/// Puts what was published, and what each watcher saw of it.
fn put_lines<K: Sink>(
    sink: &mut K,
    published: &[u32],
    watchers: &[Watcher],
) -> Result<(), WriteFault>
    requires { length watchers.now ≤ 8 }
    ensures { Puts (K.held sink.old) (K.faults sink.old) (K.held sink.new) (K.faults sink.new) (watch_text published.now (all_seen published.now watchers.now)) result }
{
    let mut text = TextWriter::new(sink);
    add_published(&mut text, published);
    add_readers(&mut text, published, watchers);
    text.finish()
}

/// Adds the line of each watcher, numbered from 1.
fn add_readers<K: Sink>(text: &mut TextWriter<K>, published: &[u32], watchers: &[Watcher])
    requires { length watchers.now ≤ 8 }
    ensures { Adds (view_of K.held K.faults text.old) (view_of K.held K.faults text.new) (texts_below (length (all_seen published.now watchers.now)) (λ reader. reader_line (reader + 1) (slice_index_or (all_seen published.now watchers.now) reader []))) }
{
    let mut number = 0;
    for watcher in watchers {
        number += 1;
        add_reader(text, number, published, watcher.revisions());
    }
}
