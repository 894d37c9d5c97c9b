ghost use Rattle.std.specs.Prelude.{◌≤◌};

use crate::outcomes::same;
use grid_writer::{Grid, read_grids, write_values};
use insar_ports::{Feed, MemorySink, MemorySource};
use loop_closure::{close_loop, write_loops};
use std::alloc::Global;
use std::process::Abort;
use std::str::Split;
use worked_scenes::{field, number};

/// What follows the size in the header of each grid.
const FRAME: &str = "xllcorner 0\nyllcorner 0\ncellsize 1\nNODATA_value -9223372036854775808\n";

/// How many grids are read, and the limit; the grids, `F` in place of the frame and `#` of NODATA; what is written of them, or
/// the fault. Counted by hand.
const LOOPS: &str = "\
    3|9999|ncols 4\nnrows 1\nF0 10 20 30\nncols 4\nnrows 1\nF0 0 0 0\nncols 4\nnrows 1\nF0 10 -65516 -65506\n|closure 4 2 1\npatch 2 0 2 1\nncols 4\nnrows 1\nF0 0 65536 65536\nncols 4\nnrows 1\nF0 0 1 1\n;\
    3|9999|ncols 2\nnrows 1\nF32768 -32768\nncols 2\nnrows 1\nF0 0\nncols 2\nnrows 1\nF0 0\n|closure 2 1 1\npatch 0 0 1 1\nncols 2\nnrows 1\nF32768 -32768\nncols 2\nnrows 1\nF1 0\n;\
    3|9999|ncols 2\nnrows 1\nF32768 -32768\nncols 2\nnrows 1\nF0 0\nncols 2\nnrows 1\nF# #\n|closure 0 0 0\nncols 2\nnrows 1\nF# #\nncols 2\nnrows 1\nF# #\n;\
    3|9999|ncols 2\nnrows 1\nF9223372036854775807 0\nncols 2\nnrows 1\nF1 0\nncols 2\nnrows 1\nF0 0\n|Wide { x: 0, y: 0 };\
    3|9999|ncols 2\nnrows 1\nF0 0\nncols 2\nnrows 1\nF0 0\nncols 1\nnrows 1\nF0\n|Sizes(3);\
    1|9999|ncols 2\nnrows 1\nF0 #\n|ncols 2\nnrows 1\nF0 #\n;\
    1|9999|ncols 2\nnrows 1\nF0 #\nx|After(108);\
    1|5|ncols 2\nnrows 1\nF0 #\n|Long(1);\
    2|9999|ncols 2\nnrows 1\nF0 #\nncols 2\nnrows 1\nF0 -0\n|Line { grid: 2, line: 7 };";

/// A text of grids with the frame and the NODATA value in place of the letters that stand for them.
fn spelled(rt: &impl Abort, alloc: Global, text: &str) -> String {
    let framed = text.replace(alloc, "F", FRAME).expect(rt, "memory");
    framed
        .replace(alloc, "#", "-9223372036854775808")
        .expect(rt, "memory")
}

/// Writes one grid, or the loop that three of a size make; or tells the fault in words.
fn close(rt: &impl Abort, alloc: Global, grids: &[Grid], sink: &mut MemorySink) -> String {
    match grids {
        [grid] => write_values(grid, sink).expect(rt, "room"),
        [a, b, c]
            if a.width == b.width
                && a.height == b.height
                && a.width == c.width
                && a.height == c.height => {
            match close_loop(alloc, a, b, c) {
                Ok(loops) => write_loops(&loops, sink).expect(rt, "room"),
                Err(fault) => return format!(in alloc; "{fault:?}").expect(rt, "memory"),
            }
        }
        _ => {}
    }
    String::new(alloc)
}

/// What is written of grids, or the fault.
fn written(rt: &impl Abort, alloc: Global, grids: &[Grid]) -> String {
    let mut sink = MemorySink::new(alloc, 1000, 5, Vec::new(alloc)).expect(rt, "memory");
    let fault = close(rt, alloc, grids, &mut sink);
    let bytes = sink.bytes().to_vec(alloc).expect(rt, "memory");
    let mut text = String::from_utf8(bytes).expect(rt, "text");
    text.push_str(&fault).expect(rt, "memory");
    text
}

/// What is written of so many grids of a text, or the fault, in words.
fn told(rt: &impl Abort, alloc: Global, count: u32, limit: u64, text: String) -> String
    requires { 1 ≤ count }
{
    let mut source = MemorySource::new(text.into_bytes(), 7, Vec::new(alloc));
    let mut feed = Feed::new(alloc, &mut source, limit).expect(rt, "memory");
    match read_grids(alloc, &mut feed, count) {
        Ok(grids) => written(rt, alloc, &grids),
        Err(fault) => format!(in alloc; "{fault:?}").expect(rt, "memory"),
    }
}

/// What is told of a case, whose fields are how many grids there are, the limit and the text.
fn case_told(rt: &impl Abort, alloc: Global, fields: &mut Split<'_, char>) -> String {
    let (count, limit) = (number(fields).clamp(1, 9), number(fields));
    let text = spelled(rt, alloc, field(fields));
    told(rt, alloc, count, u64::from(limit), text)
}

#[test]
fn loops_are_closed_or_the_fault_is_told(rt: HostRuntime) {
    let alloc = rt.alloc();
    for case in LOOPS.split_terminator(';') {
        let mut fields = case.split('|');
        let found = case_told(&rt, alloc, &mut fields);
        let wanted = spelled(&rt, alloc, field(&mut fields));
        same(&rt, case, &found, &wanted);
    }
}
