ghost use Rattle.text_lines.specs.Adding.{Adds};
ghost use Rattle.text_lines.specs.Numbers.{number_text};
ghost use Rattle.text_lines.specs.Views.{view_of};
ghost use Rattle.text_parts.specs.Text.{ended_line, ramp_line, rule_line, size_line, steep_line};

use insar_ports::Sink;
use raster_model::RuleKind;
use text_lines::{TextWriter, add_field, add_signed_field, rule_name};

/// Adds the line `size W H`.
pub fn add_size<K: Sink>(text: &mut TextWriter<K>, width: u32, height: u32)
    ensures { Adds (view_of K.held K.faults text.old) (view_of K.held K.faults text.new) (ended_line size_line (width, height)) }
{
    text.bytes(b"size");
    add_field(text, width);
    add_field(text, height);
    text.end_line();
}

/// Adds the line `rule RULE`.
pub fn add_rule<K: Sink>(text: &mut TextWriter<K>, rule: RuleKind)
    ensures { Adds (view_of K.held K.faults text.old) (view_of K.held K.faults text.new) (ended_line rule_line rule) }
{
    text.bytes(b"rule ");
    text.bytes(rule_name(rule));
    text.end_line();
}

/// Adds the line `ramp GX GY`, the slopes along right and down edges, in units of 1/65536 cycle a pixel.
pub fn add_ramp<K: Sink>(text: &mut TextWriter<K>, across: i32, along: i32)
    ensures { Adds (view_of K.held K.faults text.old) (view_of K.held K.faults text.new) (ended_line ramp_line (across, along)) }
{
    text.bytes(b"ramp");
    add_slope(text, across);
    add_slope(text, along);
    text.end_line();
}

fn add_slope<K: Sink>(text: &mut TextWriter<K>, slope: i32)
    ensures { Adds (view_of K.held K.faults text.old) (view_of K.held K.faults text.new) (number_text slope) }
{
    add_signed_field(text, i64::from(slope));
}

/// Adds the line `steep Q`.
pub fn add_steepness<K: Sink>(text: &mut TextWriter<K>, steep: u32)
    ensures { Adds (view_of K.held K.faults text.old) (view_of K.held K.faults text.new) (ended_line steep_line steep) }
{
    text.bytes(b"steep");
    add_field(text, steep);
    text.end_line();
}
