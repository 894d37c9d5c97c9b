ghost use Rattle.std.specs.Prelude.{◌<◌};

use crate::running::{NOTHING, lines_of, run};
use std::alloc::Global;
use std::process::Abort;
use std::str::Split;
use std::sync::Wait;
use std::thread::Threads;
use tile_workers::OpenGate;
use worked_scenes::{field, number};

/// A raw phase plane of that width and height, which rises by 300 to the right and by 700 downwards, and scripts.
fn slope(rt: &impl Abort, alloc: Global, width: u32, height: u32, scripts: &str) -> Vec<u8> {
    let head = format!(in alloc; "P5\n{width} {height}\n65535\n").expect(rt, "memory");
    let mut bytes = head.into_bytes();
    for y in 0..height {
        add_row(rt, width, y, &mut bytes);
    }
    bytes
        .extend_from_slice(scripts.as_bytes())
        .expect(rt, "memory");
    bytes
}

/// Adds a row of the slope.
fn add_row(rt: &impl Abort, width: u32, y: u32, bytes: &mut Vec<u8>) {
    for x in 0..width {
        let value = (300 * u64::from(x) + 700 * u64::from(y)) % 65536;
        let value = (value as u16).to_be_bytes();
        bytes.extend_from_slice(&value).expect(rt, "memory");
    }
}

/// The grid of a slope of 1024 by 1024 from its size on: it is its own surface.
fn grid(rt: &impl Abort, alloc: Global) -> String {
    let head =
        "\npublished 1 0\ncosts 0 0\nncols 1024\nnrows 1024\nxllcorner 0\nyllcorner 0\ncellsize 1\nNODATA_value -9223372036854775808\n";
    let mut text = String::from_str(alloc, head).expect(rt, "memory");
    for y in 0..1024u64 {
        add_values(rt, alloc, y, &mut text);
    }
    text
}

/// Adds the values of a row of that grid.
fn add_values(rt: &impl Abort, alloc: Global, y: u64, text: &mut String)
    requires { y < 1024 }
{
    for x in 0..1024u64 {
        let value = 300 * x + 700 * y;
        let end = if x == 1023 { "\n" } else { " " };
        let value = format!(in alloc; "{value}{end}").expect(rt, "memory");
        text.push_str(&value).expect(rt, "memory");
    }
}

/// A slope of 1024 by 1024 pixels. Before its grid come the lines of 256 kept tiles, in any order.
#[test]
fn a_large_slope_is_unwrapped(rt: HostRuntime) {
    let bytes = slope(&rt, rt.alloc(), 1024, 1024, "");
    let done = run(&rt, "unwrap", &bytes, 65536, &NOTHING, &OpenGate);
    assert!(rt; done.status == 0 && lines_of(&done.text, "kept ") == 256);
    let grid = grid(&rt, rt.alloc());
    assert!(rt; done.text.split_once(grid.as_str()).is_some());
}

/// The greatest width and the greatest height, each with a slope's last value: 300 for each column and 700 for each row before
/// it.
const LONGEST: &str = "\
65535|2|19660900
2|65535|45874100";

/// A slope is its own surface, which costs nothing, and is accepted.
fn is_its_surface<R: Alloc<A = Global> + Threads + Wait + Sync + Abort>(rt: &R, row: &str) {
    let mut fields = row.split('|');
    let (width, height) = (number(&mut fields), number(&mut fields));
    let mut bytes = slope(rt, rt.alloc(), width, height, "end\n");
    let done = run(rt, "whole", &bytes, 65536, &NOTHING, &OpenGate);
    let last = format!(in rt.alloc(); "{}\nfaces ", field(&mut fields)).expect(rt, "memory");
    assert!(rt;
        lines_of(&done.text, "cost 0") == 1 && done.text.split_once(last.as_str()).is_some()
    );
    bytes
        .extend_from_slice(done.text.as_bytes())
        .expect(rt, "memory");
    let judged = run(rt, "check-whole", &bytes, 65536, &NOTHING, &OpenGate);
    assert!(rt; judged.text.as_str() == "accepted\n", "{row}");
}

#[test]
fn slopes_of_the_greatest_sides_are_least(rt: HostRuntime) {
    for row in LONGEST.lines() {
        is_its_surface(&rt, row);
    }
}

/// Two analysts with ten edits and five settle commands each.
const SCRIPTS: &str = "\
analyst
mask 0 9 200 99
unmask 0 9 0 60
settle
mask 40 9 200 99
unmask 40 9 40 60
settle
mask 80 9 200 99
unmask 80 9 80 60
settle
mask 120 9 200 99
unmask 120 9 120 60
settle
mask 160 9 200 99
unmask 160 9 160 60
settle
show
analyst
mask 1 9 200 99
unmask 1 9 1 60
settle
mask 41 9 200 99
unmask 41 9 41 60
settle
mask 81 9 200 99
unmask 81 9 81 60
settle
mask 121 9 200 99
unmask 121 9 121 60
settle
mask 161 9 200 99
unmask 161 9 161 60
settle
show
end
";

/// Their session on a raster of 256 by 256.
#[test]
fn two_analysts_finish_a_session(rt: HostRuntime) {
    let bytes = slope(&rt, rt.alloc(), 256, 256, SCRIPTS);
    let done = run(&rt, "unwrap", &bytes, 65536, &NOTHING, &OpenGate);
    assert!(rt; done.status == 0 && done.text.ends_with(" 20\nend\n"));
    assert!(rt; lines_of(&done.text, "revised ") == 20 && lines_of(&done.text, "shown ") == 2);
    let published = lines_of(&done.text, "published ");
    assert!(rt; published.saturating_add(lines_of(&done.text, "settled ")) == 10);
}

/// Words, a command, how often a script has it, what follows, and the line to `diag`; `;` is LF. A report without a head shows
/// that the session before it was read. By hand: 16 times 4096 by 1024 pixels is the limit of settled pixels, and 16 times
/// 1048576 tiles that of changed tiles; an analyst has at most 4096 commands.
const LIMITS: &str = "\
check|settle|16|end;x;|report fault line 1
unwrap|settle|17||input fault 13 settles line 18
unwrap --tile 2|mask 0 0 0 0|17||input fault 16 edits line 18
unwrap|show|4097||input fault 12 commands line 4098";

/// The script of the next three fields of a row.
fn script(rt: &impl Abort, alloc: Global, fields: &mut Split<'_, char>) -> String {
    let (command, count) = (field(fields), number(fields));
    let mut script = String::from_str(alloc, "analyst\n").expect(rt, "memory");
    for _command in 0..count {
        script.push_str(command).expect(rt, "memory");
        script.push('\n').expect(rt, "memory");
    }
    let rest = field(fields).replace(alloc, ";", "\n").expect(rt, "memory");
    script.push_str(&rest).expect(rt, "memory");
    script
}

/// Runs a row's words over a raster of 4096 by 1024 pixels and its script.
fn is_refused<R: Alloc<A = Global> + Threads + Wait + Sync + Abort>(rt: &R, row: &str) {
    let mut fields = row.split('|');
    let words = field(&mut fields);
    let script = script(rt, rt.alloc(), &mut fields);
    let bytes = slope(rt, rt.alloc(), 4096, 1024, &script);
    let done = run(rt, words, &bytes, 65536, &NOTHING, &OpenGate);
    let line = done.line.lines().next().unwrap_or("");
    assert!(rt; done.status == 3 && line == field(&mut fields), "{row}");
}

/// With these numbers of commands there are just enough pixels, or too many.
#[test]
fn limits_are_told_with_their_lines(rt: HostRuntime) {
    for row in LIMITS.lines() {
        is_refused(&rt, row);
    }
}
