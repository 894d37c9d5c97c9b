ghost use Rattle.std.specs.Prelude.{◌≤◌};

use crate::outcomes::holds;
use insar_ports::{Feed, MemorySink, MemorySource};
use raster_model::{RuleKind, Session};
use session_script::{SessionFault, SessionUse, read_session, write_session};
use std::alloc::Global;
use std::process::Abort;
use worked_scenes::field;

/// The session of a text, with tiles of the side 64, that comes in pieces, with the numbered calls failing.
fn read(
    rt: &impl Abort,
    alloc: Global,
    use_as: SessionUse,
    text: &str,
    piece: usize,
    failing: Vec<u32>,
) -> Result<Session, SessionFault>
    requires { 1 ≤ piece }
{
    let bytes = Vec::from_slice(alloc, text.as_bytes()).expect(rt, "memory");
    let mut source = MemorySource::new(bytes, piece, failing);
    let mut feed = Feed::new(alloc, &mut source, 268_435_456).expect(rt, "memory");
    read_session(alloc, &mut feed, use_as, 64, RuleKind::Least)
}

/// What follows a text, the text, and what is written of its session or the fault that it has, counted by hand.
const TEXTS: &str = "\
    end|P2 2 1 65535 16705 16962|P5\n2 1\n65535\nAABBP5\n2 1\n1\n\x01\x01P5\n2 1\n1\n\x01\x01analyst\nsettle\nshow\nend\n;\
    end|P2 2 1 65535 16705 16962\nend\n|P5\n2 1\n65535\nAABBP5\n2 1\n1\n\x01\x01P5\n2 1\n1\n\x01\x01analyst\nsettle\nshow\nend\n;\
    report|P2 2 1 65535 1 2 end\nreport|P5\n2 1\n65535\n\0\x01\0\x02P5\n2 1\n1\n\x01\x01P5\n2 1\n1\n\x01\x01analyst\nsettle\nshow\nend\n;\
    report|P2 2 1 65535 1 2|Input(NoEnd);\
    end|P5\n2 1\n65534\n|Input(Plane { role: Phase, fault: PhaseMaxval(65534) });\
    end|P5\n2 1\n65535\n\0\0\0|Input(Plane { role: Phase, fault: Short(1) });\
    end|P5\n2 1\n65535\n\0\0\0\0end\nx|Input(AfterEnd(21));\
    end|P5\n2 1\n65535\n\0\0\0\0P5\n1 1\n1\n\x01|Input(SizesDiffer(Weight));\
    end|P2 2 1 65535 1 2 P2 2 1 9 5 3 P2 2 1 1 1 1 1\n|Input(ScriptLine(1));\
    end|P2 4 1 65535 0 1 2 3 analyst\nmask 0 0 4 0\n|Input(Outside(2));\
    end|P2 4 1 65535 0 1 2 3 analyst\nmask 0 0 4294967296 0\n|Input(Outside(2));\
    end|P2 4 1 65535 0 1 2 3 analyst\nunmask 2 0 1 0\n|Input(Outside(2));\
    end|P2 4 1 65535 0 1 2 3 analyst\nmask 0 0 03 0\n|Input(ScriptLine(2));\
    end|P2 4 1 65535 0 1 2 3 analyst\nmask 0 0 3 0 \n|Input(ScriptLine(2));\
    end|P2 4 1 65535 0 1 2 3 analyst\nsettel\n|Input(ScriptLine(2));\
    end|P2 4 1 65535 0 1 2 3 settle\nend\n|Input(ScriptLine(1));\
    end|P2 4 1 65535 0 1 2 3 analyst\nsettle\n|Input(NoEnd);\
    end|P2 4 1 65535 0 1 2 3 analyst\nend|Input(NoEnd);\
    end|P2 4 1 65535 0 1 2 3 analyst\nanalyst\nanalyst\nanalyst\nanalyst\nanalyst\nanalyst\nanalyst\nanalyst\n|Input(TooManyAnalysts(9));\
    end|P2 4 1 65535 0 1 2 3 analyst\n0123456789012345678901234567890123456789012345678901234567890123\n|Input(ScriptLine(2));\
    end|P2 4 1 65535 0 1 2 3 0123456789012345678901234567890123456789012345678901234567890123|Input(NoEnd);\
    end|P2 4 1 65535 0 1 2 3 01234567890123456789012345678901234567890123456789012345678901234|Input(ScriptLine(1));";

/// What is written of a session.
fn written(rt: &impl Abort, alloc: Global, session: &Session) -> Vec<u8> {
    let mut sink = MemorySink::new(alloc, 1000, 5, Vec::new(alloc)).expect(rt, "memory");
    write_session(session, &mut sink).expect(rt, "room");
    sink.bytes().to_vec(alloc).expect(rt, "memory")
}

/// What is written of the session of a text, or its fault in words.
fn told(rt: &impl Abort, alloc: Global, use_as: SessionUse, text: &str) -> Vec<u8> {
    match read(rt, alloc, use_as, text, 7, Vec::new(alloc)) {
        Ok(session) => written(rt, alloc, &session),
        Err(fault) => format!(in alloc; "{fault:?}")
            .expect(rt, "memory")
            .into_bytes(),
    }
}

#[test]
fn a_session_is_read_or_its_fault_is_told(rt: HostRuntime) {
    for case in TEXTS.split_terminator(';') {
        let mut fields = case.split('|');
        let use_as = match field(&mut fields) {
            "end" => SessionUse::Alone,
            _ => SessionUse::BeforeReport,
        };
        let told = told(&rt, rt.alloc(), use_as, field(&mut fields));
        holds(&rt, case, told.as_slice() == field(&mut fields).as_bytes());
    }
}

/// The 82 bytes come one by one. Call 83 is the one that finds the end.
const PIECES: &str =
    "P2 2 2 65535 0 16384 49152 32768 P2 2 2 9 5 5 3 9 analyst\nmask 0 0 0 0\nsettle\nend\n";

/// The fault of that text if a call fails.
fn fault_at(rt: &impl Abort, alloc: Global, call: u32) -> Option<SessionFault> {
    let failing = vec![in alloc; call].expect(rt, "memory");
    read(rt, alloc, SessionUse::Alone, PIECES, 1, failing).err()
}

#[test]
fn a_call_that_fails_is_told(rt: HostRuntime) {
    for call in 1..84 {
        let fault = fault_at(&rt, rt.alloc(), call);
        assert!(rt; fault == Some(SessionFault::ReadFault), "{call}");
    }
}
