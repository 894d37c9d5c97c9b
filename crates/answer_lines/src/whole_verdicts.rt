ghost use Rattle.text_lines.specs.Adding.{Adds, Puts};
ghost use Rattle.text_lines.specs.Views.{view_of};
ghost use Rattle.answer_lines.specs.WholeLines.{whole_verdict_line, whole_verdict_text};

use crate::verdicts::{add_at_edge, add_header, add_pixel};
use insar_ports::{Sink, WriteFault};
use text_lines::TextWriter;
use whole_check::WholeVerdict;

/// Puts the line of a verdict on the text of a whole surface. It takes no memory. After a fault the sink has a part of the line.
pub fn put_whole_verdict<K: Sink>(sink: &mut K, verdict: WholeVerdict) -> Result<(), WriteFault>
    ensures { Puts (K.held sink.old) (K.faults sink.old) (K.held sink.new) (K.faults sink.new) (whole_verdict_line verdict) result }
{
    let mut text = TextWriter::new(sink);
    add_line(&mut text, verdict);
    text.finish()
}

fn add_line<K: Sink>(text: &mut TextWriter<K>, verdict: WholeVerdict)
    ensures { Adds (view_of K.held K.faults text.old) (view_of K.held K.faults text.new) (whole_verdict_line verdict) }
{
    add_verdict(text, verdict);
    text.end_line();
}

/// Adds what the line says, without its end.
fn add_verdict<K: Sink>(text: &mut TextWriter<K>, verdict: WholeVerdict)
    ensures { Adds (view_of K.held K.faults text.old) (view_of K.held K.faults text.new) (whole_verdict_text verdict) }
{
    match verdict {
        WholeVerdict::Accepted => text.bytes(b"accepted"),
        WholeVerdict::Header(line) => add_header(text, line),
        WholeVerdict::Value { x, y } => add_pixel(text, b"refused value", x, y),
        WholeVerdict::Face(edge) => add_at_edge(text, b"refused face", edge),
        WholeVerdict::Cost { .. } => text.bytes(b"refused cost"),
        WholeVerdict::Told { .. } => text.bytes(b"refused told"),
    }
}
