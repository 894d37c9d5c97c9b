use crate::outcomes::same;
use insar_ports::{Feed, MemorySink, MemorySource};
use pgm_planes::{ReadPlaneFault, Role, read_plane, write_plane};
use raster_model::Plane;
use std::alloc::Global;
use std::process::Abort;
use std::str::Split;
use worked_scenes::{field, number};

/// What is read from the front of a text of which the feed hands out a number of bytes.
fn read(
    rt: &impl Abort,
    alloc: Global,
    role: Role,
    limit: u64,
    text: &[u8],
) -> Result<Plane, ReadPlaneFault> {
    let bytes = Vec::from_slice(alloc, text).expect(rt, "memory");
    let mut source = MemorySource::new(bytes, 3, Vec::new(alloc));
    let mut feed = Feed::new(alloc, &mut source, limit).expect(rt, "memory");
    read_plane(alloc, &mut feed, role)
}

/// A role, how many bytes the feed hands out, a text and what is read of it, each found by hand.
const TEXTS: &str = "\
    Phase|100|P2 4 1 65535 0 20000 40000 60000 P|4 1 65535 [0, 20000, 40000, 60000];\
    Phase|100|P2\n#\n4 #1\n 1\t#2\r65535\n\n 00\x0b20000\x0c\n40000\r60000\t\n P|4 1 65535 [0, 20000, 40000, 60000];\
    Phase|100|P5\n# by hand\n2 1\n65535\n\0\0\0\0|2 1 65535 [0, 0];\
    Phase|100|P5\r#\r #\n02\x0b\t1 #5\n#6\n 0065535 \0 \x01\0P|2 1 65535 [32, 256];\
    Weight|100|P5 2 1 7 \x07\x01|2 1 7 [7, 1];\
    Mask|100|P5 1 1 256 \x01\0|1 1 256 [256];\
    Phase|100|P2 1 1 65535 327|1 1 65535 [327];\
    Phase|100||Plane(Magic);\
    Phase|100|P|Plane(Magic);\
    Phase|100|p5 1 1 65535 ab|Plane(Magic);\
    Phase|100|P6 1 1 65535 ab|Plane(Magic);\
    Phase|100|P5|Plane(Form(2));\
    Phase|100|P5#\n1 1 65535 ab|Plane(Form(2));\
    Phase|100|P5 1# 1 65535 ab|Plane(Form(4));\
    Phase|100|P5 1 1 # 65535 ab|Plane(Form(17));\
    Phase|100|P5 1 -1 65535 ab|Plane(Form(5));\
    Phase|100|P5 1 1 65535|Plane(Form(12));\
    Phase|100|P5 1 1 65535#|Plane(Form(12));\
    Phase|100|P2#\n1 1 65535 0|Plane(Form(2));\
    Phase|100|P2 1 1 65535#\n0|Plane(Form(12));\
    Phase|100|P2 1 1 65535 #\n0|Plane(Form(13));\
    Phase|100|P2 1 1 65535 0#|Plane(Form(14));\
    Weight|100|P2 2 1 255 1x256|Plane(Form(12));\
    Weight|100|P5 1 1 0 a|Plane(Form(7));\
    Mask|100|P5 1 1 65536 a|Plane(Form(7));\
    Phase|100|P5 4097 1 9 |Plane(Size { width: 4097, height: 1 });\
    Mask|100|P5 4096 1025 0 |Plane(Size { width: 4096, height: 1025 });\
    Phase|100|P5 0 4294967296 9 |Plane(Size { width: 0, height: 4294967295 });\
    Phase|100|P5\n2 1\n65534\n|Plane(PhaseMaxval(65534));\
    Weight|100|P5 2 1 7 \x07\x08|Plane(SampleAbove { index: 1, value: 8 });\
    Mask|100|P5 1 2 256 \x01\x01|Plane(SampleAbove { index: 0, value: 257 });\
    Phase|100|P2\n2 1\n65535\n0 70000\n|Plane(SampleAbove { index: 1, value: 70000 });\
    Weight|100|P2 2 1 255 1 256x|Plane(SampleAbove { index: 1, value: 256 });\
    Phase|100|P2 1 1 65535 99999999999|Plane(SampleAbove { index: 0, value: 4294967295 });\
    Phase|100|P5\n2 1\n65535\n\0\0\0|Plane(Short(1));\
    Phase|100|P5 2 1 65535 |Plane(Short(0));\
    Phase|100|P2 2 1 65535 |Plane(Short(0));\
    Phase|100|P2 2 1 65535 0|Plane(Short(1));\
    Weight|0|P5 2 1 7 \x01\x02P|TooLong;\
    Weight|1|P5 2 1 7 \x01\x02P|TooLong;\
    Weight|10|P5 2 1 7 \x01\x02P|TooLong;\
    Weight|11|P5 2 1 7 \x01\x02P|2 1 7 [1, 2];\
    Weight|12|P2 2 1 7 1 2 P|TooLong;\
    Weight|13|P2 2 1 7 1 2 P|TooLong;\
    Weight|14|P2 2 1 7 1 2 P|2 1 7 [1, 2];\
    Weight|13|P2 2 1 7 1 2 |2 1 7 [1, 2];\
    Weight|12|P2 2 1 7 1 2|2 1 7 [1, 2];\
    Weight|2|P6 2 1|Plane(Magic);\
    Weight|5|P2 2 x 7|TooLong;\
    Weight|6|P2 2 x 7|Plane(Form(5));\
    Weight|10|P5 2 1 7 \x08\x02|Plane(SampleAbove { index: 0, value: 8 });\
    Weight|15|P2 1 1 255 9999 P|TooLong;\
    Weight|16|P2 1 1 255 9999 P|Plane(SampleAbove { index: 0, value: 9999 });";

/// The plane that is read, or the fault, in words.
fn told(rt: &impl Abort, alloc: Global, read: Result<Plane, ReadPlaneFault>) -> String {
    let told = match read {
        Ok(plane) => format!(in alloc;
            "{} {} {} {:?}",
            plane.width, plane.height, plane.maxval, plane.samples
        ),
        Err(fault) => format!(in alloc; "{fault:?}"),
    };
    told.expect(rt, "memory")
}

/// What is told of the text of a case, which begins with the role and the limit.
fn case_told(rt: &impl Abort, alloc: Global, fields: &mut Split<'_, char>) -> String {
    let role = match field(fields) {
        "Phase" => Role::Phase,
        "Weight" => Role::Weight,
        _ => Role::Mask,
    };
    let limit = u64::from(number(fields));
    let read = read(rt, alloc, role, limit, field(fields).as_bytes());
    told(rt, alloc, read)
}

#[test]
fn a_plane_is_read_or_its_first_break_is_told(rt: HostRuntime) {
    for case in TEXTS.split_terminator(';') {
        let mut fields = case.split('|');
        let told = case_told(&rt, rt.alloc(), &mut fields);
        same(&rt, case, &told, field(&mut fields));
    }
}

/// The plane that is read of a text has to be written so.
fn is_rewritten(rt: &impl Abort, alloc: Global, text: &[u8], written: &[u8]) {
    let plane = read(rt, alloc, Role::Weight, 100, text).expect(rt, "a plane");
    let mut sink = MemorySink::new(alloc, 100, 3, Vec::new(alloc)).expect(rt, "memory");
    write_plane(&plane, &mut sink).expect(rt, "room");
    assert!(rt; sink.bytes() == written);
}

/// The line 0 20000 40000 60000 in raw bytes.
const RAW: &[u8] = b"P5\n4 1\n65535\n\x00\x00\x4e\x20\x9c\x40\xea\x60";

/// A plane is written raw, with one byte a sample up to maxval 255 and two from 256 on.
#[test]
fn a_plane_is_written_raw(rt: HostRuntime) {
    let alloc = rt.alloc();
    is_rewritten(&rt, alloc, RAW, RAW);
    is_rewritten(&rt, alloc, b"P2 4 1 65535 0 20000 40000 60000", RAW);
    is_rewritten(&rt, alloc, b"P2 2 1 255 7 255", b"P5\n2 1\n255\n\x07\xff");
    is_rewritten(
        &rt,
        alloc,
        b"P2 1 2 256 1 256",
        b"P5\n1 2\n256\n\x00\x01\x01\x00",
    );
}
