use crate::running::{Ended, Failing, run};
use crate::top_rows::{is_one_of, spelled};
use std::alloc::Global;
use std::process::Abort;
use std::str::Split;
use std::sync::Wait;
use std::thread::Threads;
use tile_workers::OpenGate;
use worked_scenes::field;

/// The session for which `$` stands in a row.
const SESSION: &str = "P2;2 2;65535;0 16384;49152 32768;analyst;mask 0 0 0 0;settle;show;end;";

/// Its report, for which `&` stands.
const REPORT: &str =
    "!2 2;tile 64;rule least;revised 1 mask 0 0 0 0;kept 0 1;published 1 1;costs 0 0;ncols 2;nrows 2;%~ 16384;49152 32768;faces 0 0;flows;shown 1 1;end;";

/// A row has seven fields: what is disturbed, the first and the last number for it, words, bytes, status, and what is written.
/// `take` and `put` number the call that fails, of the source and of the sink; `room` is how many bytes the sink has room for.
/// Bytes and what is written are spelled as in the table of `top_rows`, and `@` is the samples of the line 0 20000 40000 60000
/// in two bytes each. What is written is the line to `diag` at the statuses 3 and 5, or else the whole text of an undisturbed
/// run, of which the sink gains a part at status 6.
const READS: &str = "\
take|1|22|unwrap|P5;4 1;65535;@|5|read fault;
take|1|71|unwrap|$|5|read fault;
take|72|72|unwrap|$|0|&
take|2|2|unwrap|XY|5|read fault;
take|3|3|unwrap|XY|3|input fault 1 magic phase;
take|28|28|check|P5;4 1;65535;@end;xy;|5|read fault;
take|29|29|check|P5;4 1;65535;@end;xy;|3|report fault line 1;
take|1|1|check|$&|5|read fault;
take|71|71|check|$&|5|read fault;
take|324|324|check|$&|5|read fault;
take|1|1|grid|$|5|read fault;
take|71|71|grid|$|5|read fault;
take|1|1|screen|$|5|read fault;
take|71|71|screen|$|5|read fault;
take|1|1|whole|$|5|read fault;
take|71|71|whole|$|5|read fault;
take|28|28|check-whole|P5;4 1;65535;@end;xy;|5|read fault;
take|29|29|check-whole|P5;4 1;65535;@end;xy;|3|report fault line 1;
take|1|1|closure|ncols 1;nrows 1;%0;ncols 1;nrows 1;%0;ncols 1;nrows 1;%0;|5|read fault;
take|262|262|closure|ncols 1;nrows 1;%0;ncols 1;nrows 1;%0;ncols 1;nrows 1;%0;|5|read fault;
take|80|88|displacement --wavelength 1|ncols 1;nrows 1;%0;|5|read fault;
take|19|20|nearest|P2 1 1 65535 7;end;ncols 1;nrows 1;%0;|5|read fault;
take|107|107|nearest|P2 1 1 65535 7;end;ncols 1;nrows 1;%0;|5|read fault;
take|1|1|trial 0 1 1||0|pixels 1;residues 0;unmasked 1;cost 0;";

/// The same for the sink. One call after the last the run is undisturbed.
const WRITES: &str = "\
put|1|253|unwrap|$|6|&
put|254|254|unwrap|$|0|&
room|10|10|unwrap|$|6|&
put|1|3|grid|$|6|ncols 2;nrows 2;%~ 16384;49152 32768;
put|124|124|grid|$|6|ncols 2;nrows 2;%~ 16384;49152 32768;
put|125|125|grid|$|0|ncols 2;nrows 2;%~ 16384;49152 32768;
put|1|9|check|$&|6|accepted;
put|10|10|check|$&|0|accepted;
put|1|18|check|P5;4 1;65535;@end;!4 1;tile 64;rule least;end;|6|refused history 1;
put|14|16|whole|P2 1 1 65535 7|6|^1 1;rule least;ramp 0 0;steep 1;cost 0;ncols 1;nrows 1;%7;end;
put|149|149|whole|P2 1 1 65535 7|6|^1 1;rule least;ramp 0 0;steep 1;cost 0;ncols 1;nrows 1;%7;end;
put|150|150|whole|P2 1 1 65535 7|0|^1 1;rule least;ramp 0 0;steep 1;cost 0;ncols 1;nrows 1;%7;end;
put|1|9|check-whole|P2 1 1 65535 7;end;^1 1;rule least;ramp 0 0;steep 1;cost 0;ncols 1;nrows 1;%7;end;|6|accepted;
put|10|10|check-whole|P2 1 1 65535 7;end;^1 1;rule least;ramp 0 0;steep 1;cost 0;ncols 1;nrows 1;%7;end;|0|accepted;
put|1|4|trial 0 1 1||6|pixels 1;residues 0;unmasked 1;cost 0;
put|38|38|trial 0 1 1||6|pixels 1;residues 0;unmasked 1;cost 0;
put|39|39|trial 0 1 1||0|pixels 1;residues 0;unmasked 1;cost 0;
put|1|67|screen --patch 4|P2 3 1 65535 0 0 0 P2 3 1 9 5 1 5|6|P5;3 1;65535;......P5;3 1;9;\x05\x01\x05P5;3 1;1;...analyst;settle;show;end;
put|68|68|screen --patch 4|P2 3 1 65535 0 0 0 P2 3 1 9 5 1 5|0|P5;3 1;65535;......P5;3 1;9;\x05\x01\x05P5;3 1;1;...analyst;settle;show;end;
put|14|16|closure|ncols 1;nrows 1;%0;ncols 1;nrows 1;%0;ncols 1;nrows 1;%0;|6|closure 1 0 0;ncols 1;nrows 1;%0;ncols 1;nrows 1;%0;
put|188|188|closure|ncols 1;nrows 1;%0;ncols 1;nrows 1;%0;ncols 1;nrows 1;%0;|6|closure 1 0 0;ncols 1;nrows 1;%0;ncols 1;nrows 1;%0;
put|189|189|closure|ncols 1;nrows 1;%0;ncols 1;nrows 1;%0;ncols 1;nrows 1;%0;|0|closure 1 0 0;ncols 1;nrows 1;%0;ncols 1;nrows 1;%0;
put|87|87|displacement --wavelength 1|ncols 1;nrows 1;%0;|6|ncols 1;nrows 1;%0;
put|88|88|displacement --wavelength 1|ncols 1;nrows 1;%0;|0|ncols 1;nrows 1;%0;
put|87|87|nearest|P2 1 1 65535 7;end;ncols 1;nrows 1;%0;|6|ncols 1;nrows 1;%7;
put|88|88|nearest|P2 1 1 65535 7;end;ncols 1;nrows 1;%0;|0|ncols 1;nrows 1;%7;";

/// The same for a line in raw bytes, whose report is shown whole.
const LINES: &str = "\
put|1|209|unwrap|P5;4 1;65535;@|6|!4 1;tile 64;rule least;kept 0 0;published 1 0;costs 0 0;ncols 4;nrows 1;%0 20000 40000 60000;faces 0;flows;shown 1 0;end;
put|210|210|unwrap|P5;4 1;65535;@|0|!4 1;tile 64;rule least;kept 0 0;published 1 0;costs 0 0;ncols 4;nrows 1;%0 20000 40000 60000;faces 0;flows;shown 1 0;end;";

/// How a run has to end.
#[derive(Drop)]
pub struct Wanted {
    pub status: u8,
    /// The texts of which the sink may have one, or at the statuses 2 to 5 the line to `diag`.
    pub written: String,
    /// How many bytes of the text the sink gained at status 6.
    pub gained: usize,
}

/// Whether the status and the sink are as expected.
fn has_ended(done: &Ended, wanted: &Wanted) -> bool {
    done.status == wanted.status
        && match done.status {
            0 | 1 => is_one_of(&done.text, &wanted.written),
            6 => done.text.len() == wanted.gained && wanted.written.starts_with(done.text.as_str()),
            _ => done.text.is_empty(),
        }
}

/// The line that has to be put to `diag`.
fn line_of(wanted: &Wanted) -> &str {
    match wanted.status {
        0 | 1 => "",
        6 => "write fault\n",
        _ => &wanted.written,
    }
}

/// Runs words over bytes that come and go one by one.
fn try_once<R: Alloc<A = Global> + Threads + Wait + Sync + Abort>(
    rt: &R,
    words: &str,
    bytes: &[u8],
    failing: &Failing,
    wanted: &Wanted,
) {
    let done = run(rt, words, bytes, 1, failing, &OpenGate);
    let line = if failing.lines.is_empty() {
        line_of(wanted)
    } else {
        ""
    };
    let good = has_ended(&done, wanted) && done.line.as_str() == line;
    assert!(rt; good, "{words}: {} {}{}", done.status, done.line, done.text);
}

/// Runs words, and runs them once more with the first line to `diag` failing, which changes neither the status nor the sink.
pub fn try_twice<R: Alloc<A = Global> + Threads + Wait + Sync + Abort>(
    rt: &R,
    words: &str,
    bytes: &[u8],
    failing: Failing,
    wanted: &Wanted,
) {
    try_once(rt, words, bytes, &failing, wanted);
    let lines = [1].as_slice();
    try_once(rt, words, bytes, &Failing { lines, ..failing }, wanted);
}

/// The bytes of a row.
fn bytes_of(rt: &impl Abort, alloc: Global, text: &str) -> Vec<u8> {
    let mut bytes = Vec::new(alloc);
    for (place, piece) in text.split('@').enumerate() {
        if place > 0 {
            let line = b"\x00\x00\x4e\x20\x9c\x40\xea\x60";
            bytes.extend_from_slice(line).expect(rt, "memory");
        }
        let piece = spelled(rt, alloc, piece);
        bytes
            .extend_from_slice(piece.as_bytes())
            .expect(rt, "memory");
    }
    bytes
}

/// What is disturbed by a row at one of its numbers.
fn failing_at<'a>(what: &str, number: &'a [u32; 1]) -> Failing<'a> {
    let (takes, puts) = match what {
        "take" => (number.as_slice(), [].as_slice()),
        "put" => ([].as_slice(), number.as_slice()),
        _ => ([].as_slice(), [].as_slice()),
    };
    let room = if what == "room" {
        number[0] as usize
    } else {
        512
    };
    Failing {
        takes,
        puts,
        lines: &[],
        room,
    }
}

/// A row with the session and its report in the places of `$` and `&`.
fn filled(rt: &impl Abort, alloc: Global, row: &str) -> String {
    let row = row.replace(alloc, "$", SESSION).expect(rt, "memory");
    row.replace(alloc, "&", REPORT).expect(rt, "memory")
}

/// Tries a row at one of its numbers.
fn try_at<R: Alloc<A = Global> + Threads + Wait + Sync + Abort>(
    rt: &R,
    what: &str,
    number: u32,
    words: &str,
    bytes: &[u8],
    wanted: &mut Wanted,
) {
    let before = if what == "put" { 1 } else { 0 };
    wanted.gained = number.saturating_sub(before) as usize;
    try_twice(rt, words, bytes, failing_at(what, &[number]), wanted);
}

/// How the next two fields of a row say that a run ends.
fn next_wanted(rt: &impl Abort, alloc: Global, fields: &mut Split<'_, char>) -> Wanted {
    Wanted {
        status: field(fields).parse::<u8>().expect(rt, "a status"),
        written: spelled(rt, alloc, field(fields)),
        gained: 0,
    }
}

/// Tries a row at each of its numbers.
fn try_row<R: Alloc<A = Global> + Threads + Wait + Sync + Abort>(rt: &R, row: &str) {
    let row = filled(rt, rt.alloc(), row);
    let mut fields = row.split('|');
    let what = field(&mut fields);
    let first = field(&mut fields).parse::<u32>().expect(rt, "a number");
    let last = field(&mut fields).parse::<u32>().expect(rt, "a number");
    let words = field(&mut fields);
    let bytes = bytes_of(rt, rt.alloc(), field(&mut fields));
    let mut wanted = next_wanted(rt, rt.alloc(), &mut fields);
    for number in first..last.saturating_add(1) {
        try_at(rt, what, number, words, &bytes, &mut wanted);
    }
}

/// Each call of the source fails in turn. The call after the last byte is the one that finds the end of the input.
#[test]
fn each_failing_read_is_told(rt: HostRuntime) {
    for row in READS.lines() {
        try_row(&rt, row);
    }
}

/// Each call of the sink fails in turn: what was written before it is there.
#[test]
fn each_failing_write_is_told(rt: HostRuntime) {
    for row in WRITES.lines() {
        try_row(&rt, row);
    }
}

#[test]
fn each_failing_write_of_a_line_is_told(rt: HostRuntime) {
    for row in LINES.lines() {
        try_row(&rt, row);
    }
}
