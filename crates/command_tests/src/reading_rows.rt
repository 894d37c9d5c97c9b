use crate::outcomes::{changed, same};
use grid_writer::read_grid;
use insar_ports::{Feed, MemorySource};
use report_check::{CheckVerdict, check_report};
use report_text::{Report, ReportFault, read_report};
use std::alloc::Global;
use std::process::Abort;
use worked_scenes::{field, session};

const GRID: &str = "\
ncols 2
nrows 1
xllcorner 0
yllcorner 0
cellsize 1
NODATA_value -9223372036854775808
50000 75536
";

/// A piece of the grid, what is in its place, and what is read then.
const GRIDS: &str = "\
    50000|50000|2 1 [50000, 75536];\
    50000|-0|Line(7);\
    75536\n|75536|Line(7);";

/// The grid that is read of a text, or the fault, in words.
fn grid_told(rt: &impl Abort, alloc: Global, text: String) -> String {
    let mut source = MemorySource::new(text.into_bytes(), 7, Vec::new(alloc));
    let mut feed = Feed::new(alloc, &mut source, 1000).expect(rt, "memory");
    let told = match read_grid(alloc, &mut feed) {
        Ok(grid) => format!(in alloc; "{} {} {:?}", grid.width, grid.height, grid.values),
        Err(fault) => format!(in alloc; "{fault:?}"),
    };
    told.expect(rt, "memory")
}

#[test]
fn a_grid_is_read_or_its_first_broken_line_is_told(rt: HostRuntime) {
    for case in GRIDS.split_terminator(';') {
        let mut fields = case.split('|');
        let text = changed(&rt, rt.alloc(), GRID, &mut fields);
        let told = grid_told(&rt, rt.alloc(), text);
        same(&rt, case, &told, field(&mut fields));
    }
}

/// A certified report of the session below.
const REPORT: &str = "\
insar-report 1
size 2 2
tile 64
rule least
revised 1 mask 0 0 0 0
kept 0 1
published 1 1
costs 0 0
ncols 2
nrows 2
xllcorner 0
yllcorner 0
cellsize 1
NODATA_value -9223372036854775808
-9223372036854775808 16384
49152 32768
faces 0 0
flows
shown 1 1
end
";

/// A piece of the report, what is in its place, and the terms and how many items are read then or which line is broken.
const REPORTS: &str = "\
    end|end|0 0 1 4;\
    end\n||Line(20);\
    1\nsize 2 2\ntile 64\nrule least|2\nsize 2 2\ntile 64\nrule least\nramp 30000 0\nsteep 1|30000 0 1 4;\
    1\nsize 2 2\ntile 64\nrule least|2\nsize 2 2\ntile 64\nrule least\nramp 0 0\nsteep 1|0 0 1 4;\
    1\nsize 2 2\ntile 64\nrule least|2\nsize 2 2\ntile 64\nrule least\nramp 0 0\nsteep 17|Line(6);\
    1\nsize 2 2\ntile 64\nrule least|2\nsize 2 2\ntile 64\nrule least\nramp 0 32768\nsteep 1|Line(5);\
    1\nsize 2 2\ntile 64\nrule least|2\nsize 2 2\ntile 64\nrule least\nramp 00 0\nsteep 1|Line(5);\
    insar-report 1|insar-report 3|Line(1);";

fn read_as_report(rt: &impl Abort, alloc: Global, text: String) -> Result<Report, ReportFault> {
    let mut source = MemorySource::new(text.into_bytes(), 7, Vec::new(alloc));
    let mut feed = Feed::new(alloc, &mut source, 1000).expect(rt, "memory");
    read_report(alloc, &mut feed)
}

/// The terms and how many items are read of a text, or the fault, in words.
fn report_told(rt: &impl Abort, alloc: Global, text: String) -> String {
    let told = match read_as_report(rt, alloc, text) {
        Ok(report) => {
            let (terms, items) = (report.terms, report.items.len());
            format!(in alloc; "{} {} {} {items}", terms.ramp_x, terms.ramp_y, terms.steep)
        }
        Err(fault) => format!(in alloc; "{fault:?}"),
    };
    told.expect(rt, "memory")
}

#[test]
fn a_report_is_read_or_its_first_broken_line_is_told(rt: HostRuntime) {
    for case in REPORTS.split_terminator(';') {
        let mut fields = case.split('|');
        let text = changed(&rt, rt.alloc(), REPORT, &mut fields);
        let told = report_told(&rt, rt.alloc(), text);
        same(&rt, case, &told, field(&mut fields));
    }
}

const SESSION: &str = "\
P2
2 2
65535
0 16384
49152 32768
analyst
mask 0 0 0 0
settle
show
end
";

/// The verdict on a report that is certified: the weights are 1, and 0 at the masked pixel.
#[test]
fn a_certified_report_is_accepted(rt: HostRuntime) {
    let alloc = rt.alloc();
    let session = session(alloc, SESSION, 64).expect(&rt, "a session");
    let text = String::from_str(alloc, REPORT).expect(&rt, "memory");
    let report = read_as_report(&rt, alloc, text).expect(&rt, "a report");
    let verdict = check_report(alloc, &session, &report).expect(&rt, "memory");
    assert!(rt; verdict == CheckVerdict::Accepted);
}
