use crate::failing_rows::{Wanted, try_twice};
use crate::running::NOTHING;
use crate::top_rows::spelled;
use std::alloc::Global;
use std::process::Abort;
use std::sync::Wait;
use std::thread::Threads;
use worked_scenes::field;

/// The residue of the phases `0 16384 / 49152 32768` is 1.
const SESSION: &[u8] =
    b"P2\n2 2\n65535\n0 16384\n49152 32768\nanalyst\nmask 0 0 0 0\nsettle\nshow\nend\n";

/// What `unwrap` answers to the first bytes of the session: the least and the greatest number of them, the status, and what
/// is written, as in the table of `top_rows`; `#` is the number. Up to 33 bytes the last sample may be cut, so it is 3, 32, 327,
/// 3276 or whole. The first four leave no residue. The last does, and a cycle at one of the four edges clears it.
const CUTS: &str = "\
0|1|3|input fault 1 magic phase;
2|12|3|input fault 2 form phase byte #;
13|13|3|input fault 6 short phase samples 0;
14|15|3|input fault 6 short phase samples 1;
16|21|3|input fault 6 short phase samples 2;
22|27|3|input fault 6 short phase samples 3;
28|28|0|!2 2;tile 64;rule least;kept 0 0;published 1 0;costs 0 0;ncols 2;nrows 2;%0 16384;-16384 3;faces 0 *;flows;shown 1 0;end;
29|29|0|!2 2;tile 64;rule least;kept 0 0;published 1 0;costs 0 0;ncols 2;nrows 2;%0 16384;-16384 32;faces 0 *;flows;shown 1 0;end;
30|30|0|!2 2;tile 64;rule least;kept 0 0;published 1 0;costs 0 0;ncols 2;nrows 2;%0 16384;-16384 327;faces 0 *;flows;shown 1 0;end;
31|31|0|!2 2;tile 64;rule least;kept 0 0;published 1 0;costs 0 0;ncols 2;nrows 2;%0 16384;-16384 3276;faces 0 *;flows;shown 1 0;end;
32|33|0|!2 2;tile 64;rule least;kept 0 0;published 1 0;costs 1 0;ncols 2;nrows 2;%0 16384;-16384 32768;faces 0 1;flows;shown 1 0;end;/!2 2;tile 64;rule least;kept 0 0;published 1 0;costs 1 0;ncols 2;nrows 2;%0 16384;49152 32768;faces 0 1;flows;shown 1 0;end;/!2 2;tile 64;rule least;kept 0 0;published 1 0;costs 1 0;ncols 2;nrows 2;%0 16384;-16384 -32768;faces 0 1;flows;shown 1 0;end;/!2 2;tile 64;rule least;kept 0 0;published 1 0;costs 1 0;ncols 2;nrows 2;%0 -49152;-16384 -32768;faces 0 1;flows;shown 1 0;end;
34|69|3|input fault 14 no end;
70|70|0|!2 2;tile 64;rule least;revised 1 mask 0 0 0 0;kept 0 1;published 1 1;costs 0 0;ncols 2;nrows 2;%~ 16384;49152 32768;faces 0 0;flows;shown 1 1;end;";

/// Cuts the session after so many bytes.
fn try_cut<R: Alloc<A = Global> + Threads + Wait + Sync + Abort>(
    rt: &R,
    count: usize,
    status: u8,
    pattern: &str,
) {
    let wanted = Wanted {
        status,
        written: numbered(rt, rt.alloc(), pattern, count),
        gained: 0,
    };
    let bytes = &SESSION[..count.min(SESSION.len())];
    try_twice(rt, "unwrap", bytes, NOTHING, &wanted);
}

/// Cuts the session as a row says, and answers how often.
fn try_cuts<R: Alloc<A = Global> + Threads + Wait + Sync + Abort>(rt: &R, row: &str) -> usize {
    let mut fields = row.split('|');
    let first = field(&mut fields).parse::<usize>().expect(rt, "a number");
    let last = field(&mut fields).parse::<usize>().expect(rt, "a number");
    let status = field(&mut fields).parse::<u8>().expect(rt, "a status");
    let pattern = spelled(rt, rt.alloc(), field(&mut fields));
    for count in first..last.saturating_add(1) {
        try_cut(rt, count, status, &pattern);
    }
    last.saturating_add(1).saturating_sub(first)
}

/// A pattern with a number in the place of each `#`.
fn numbered(rt: &impl Abort, alloc: Global, pattern: &str, number: usize) -> String {
    let number = format!(in alloc; "{number}").expect(rt, "memory");
    pattern.replace(alloc, "#", &number).expect(rt, "memory")
}

/// The input ends after each of its bytes.
#[test]
fn cut_input_is_told(rt: HostRuntime) {
    let mut cuts = 0usize;
    for row in CUTS.lines() {
        cuts = cuts.saturating_add(try_cuts(&rt, row));
    }
    assert_eq!(rt; cuts, 71);
}
