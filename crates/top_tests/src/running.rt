ghost use Rattle.std.specs.Prelude.{◌≤◌};

use insar_ports::{MemorySink, MemorySource};
use insar_top::insar;
use std::alloc::{AllocError, Global};
use std::process::Abort;
use std::sync::Wait;
use std::thread::Threads;
use tile_workers::Gate;

/// Which calls of the source, of the sink and of `diag` fail, by their numbers from 1, and for how many pieces the sink has
/// room.
#[derive(Drop)]
pub struct Failing<'a> {
    pub takes: &'a [u32],
    pub puts: &'a [u32],
    pub lines: &'a [u32],
    pub room: usize,
}

/// No call fails.
pub const NOTHING: Failing<'static> = Failing {
    takes: &[],
    puts: &[],
    lines: &[],
    room: 512,
};

/// How a run ended: its status, what the sink gained and what `diag` gained.
#[derive(Drop)]
pub struct Ended {
    pub status: u8,
    pub text: String,
    pub line: String,
}

/// A copy of bytes as text.
fn text_of(rt: &impl Abort, alloc: Global, bytes: &[u8]) -> String {
    let bytes = bytes.to_vec(alloc).expect(rt, "memory");
    String::from_utf8(bytes).expect(rt, "text")
}

/// A sink that takes `piece` bytes a call and has room for so many, with the numbered calls failing.
fn sink(rt: &impl Abort, alloc: Global, room: usize, piece: usize, failing: &[u32]) -> MemorySink
    requires { (1 ≤ piece) × (piece ≤ 65536) }
{
    let failing = failing.to_vec(alloc).expect(rt, "memory");
    MemorySink::new(alloc, room, piece, failing).expect(rt, "memory")
}

/// A source that gives `piece` bytes a call, with the numbered calls failing.
fn source(
    rt: &impl Abort,
    alloc: Global,
    bytes: &[u8],
    piece: usize,
    failing: &[u32],
) -> MemorySource
    requires { (1 ≤ piece) × (piece ≤ 65536) }
{
    let failing = failing.to_vec(alloc).expect(rt, "memory");
    let bytes = bytes.to_vec(alloc).expect(rt, "memory");
    MemorySource::new(bytes, piece, failing)
}

/// The words, separated by spaces, over the bytes. The source and the sink take `piece` bytes a call.
pub fn run<R: Alloc<A = Global> + Threads + Wait + Sync + Abort, G: Gate>(
    rt: &R,
    words: &str,
    bytes: &[u8],
    piece: usize,
    failing: &Failing,
    gate: &G,
) -> Ended
    requires { (1 ≤ piece) × (piece ≤ 65536) }
{
    let alloc = rt.alloc();
    let words: Result<Vec<&str>, AllocError> = words.split_whitespace().collect(alloc);
    let words = words.expect(rt, "memory");
    let mut source = source(rt, alloc, bytes, piece, failing.takes);
    let room = piece.saturating_mul(failing.room);
    let mut diag = sink(rt, alloc, 99, 1, failing.lines);
    let mut sink = sink(rt, alloc, room, piece, failing.puts);
    let status = insar(rt, alloc, &words, &mut source, &mut sink, &mut diag, gate);
    Ended {
        status,
        text: text_of(rt, alloc, sink.bytes()),
        line: text_of(rt, alloc, diag.bytes()),
    }
}

/// How many lines begin so.
pub fn lines_of(text: &str, start: &str) -> usize {
    text.lines().filter(|line| line.starts_with(start)).count()
}
