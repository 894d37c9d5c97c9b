use crate::outcomes::{changed, same};
use insar_ports::{Feed, MemorySource};
use raster_model::Session;
use std::alloc::Global;
use std::process::Abort;
use whole_check::check_whole_text;
use whole_text::read_whole;
use worked_scenes::{field, session};

/// The phase rises by a quarter of a cycle from pixel to pixel round the one cell, so its residue is 1. Each weight is 1.
const SESSION: &str = "\
P2
2 2
65535
0 16384
49152 32768
end
";

/// The surface departs by one cycle from its left edge, and by none from the others. A face of 1 certifies it.
const WHOLE: &str = "\
insar-whole 1
size 2 2
rule least
ramp 0 0
steep 1
cost 1
ncols 2
nrows 2
xllcorner 0
yllcorner 0
cellsize 1
NODATA_value -9223372036854775808
0 16384
49152 32768
faces 1
end
";

/// A piece of the text, what is in its place, and the verdict then, or which line is broken, each found by hand.
const VERDICTS: &str = "\
    end|end|Accepted;\
    rule least|rule mean|Header(3);\
    ramp 0 0|ramp 0 1|Header(4);\
    steep 1|steep 2|Header(5);\
    0 16384|65536 16384|Value { x: 0, y: 0 };\
    0 16384|0 16385|Value { x: 1, y: 0 };\
    faces 1|faces 2|Face(Edge { x: 0, y: 0, down: false });\
    faces 1|faces 0|Cost { cost: 1, bound: 0 };\
    cost 1|cost 2|Told { written: 2, counted: 1 };\
    insar-whole 1|insar-whole 2|Line(1);\
    steep 1|steep 17|Line(5);\
    cost 1|cost 01|Line(6);\
    faces 1|faces 1 1|Line(15);\
    faces 1\n||Line(15);\
    end\n||Line(16);\
    end|end\n|Line(17);";

/// The verdict on a text, or the fault of the text, in words.
fn told(rt: &impl Abort, alloc: Global, session: &Session, text: String) -> String {
    let mut source = MemorySource::new(text.into_bytes(), 7, Vec::new(alloc));
    let mut feed = Feed::new(alloc, &mut source, 1000).expect(rt, "memory");
    let told = match read_whole(alloc, &mut feed) {
        Ok(whole) => {
            let verdict = check_whole_text(&session.scene.sheet(), &session.first_mask, &whole);
            format!(in alloc; "{verdict:?}")
        }
        Err(fault) => format!(in alloc; "{fault:?}"),
    };
    told.expect(rt, "memory")
}

#[test]
fn a_text_is_accepted_or_its_first_break_is_told(rt: HostRuntime) {
    let alloc = rt.alloc();
    let session = session(alloc, SESSION, 64).expect(&rt, "a session");
    for case in VERDICTS.split_terminator(';') {
        let mut fields = case.split('|');
        let text = changed(&rt, alloc, WHOLE, &mut fields);
        let told = told(&rt, alloc, &session, text);
        same(&rt, case, &told, field(&mut fields));
    }
}
