ghost use Rattle.answer_lines.specs.RefusalLines.{fault_text, plane_fault_text, refusal_line, role_text};
ghost use Rattle.answer_lines.specs.declared.refusal.Refusal.TheVariants as refusals;
ghost use Rattle.std.specs.Prelude.{◌≡◌, ◌++◌, ◌∷◌, []};
ghost use Rattle.text_lines.specs.Adding.{Adds, Puts};
ghost use Rattle.text_lines.specs.Views.{view_of};

use crate::refusal::Refusal;
use insar_ports::{Sink, WriteFault};
use itoa::Integer;
use pgm_planes::{InputFault, PlaneFault, Role};
use text_lines::TextWriter;

/// Puts the line of a refusal.
pub fn put_refusal<D: Sink>(diag: &mut D, refusal: Refusal) -> Result<(), WriteFault>
    ensures { Puts (D.held diag.old) (D.faults diag.old) (D.held diag.new) (D.faults diag.new) (refusal_line refusal) result }
{
    let mut text = TextWriter::new(diag);
    add_refusal(&mut text, refusal);
    text.finish()
}

fn add_refusal<D: Sink>(text: &mut TextWriter<D>, refusal: Refusal)
    ensures { Adds (view_of D.held D.faults text.old) (view_of D.held D.faults text.new) (refusal_line refusal) }
{
    match refusal {
        Refusal::Words => text.bytes(b"words refused\n"),
        Refusal::Input(fault) => add_input_line(text, fault),
        Refusal::ReportLine(line) => add_around(text, b"report fault line ", line, b"\n"),
        Refusal::ReportLong => text.bytes(b"report fault long\n"),
        Refusal::GridLine { grid, line } => {
            add_pair(text, b"input fault 19 grid ", grid, b" line ", line)
        }
        Refusal::GridLong(grid) => add_around(text, b"input fault 20 grid ", grid, b" long\n"),
        Refusal::GridSizes(grid) => add_around(text, b"input fault 21 grid ", grid, b" sizes\n"),
        Refusal::AfterGrids(byte) => {
            add_around(text, b"input fault 22 after grids byte ", byte, b"\n")
        }
        Refusal::Wide { x, y } => add_pair(text, b"input fault 23 wide ", x, b" ", y),
        Refusal::Reference => text.bytes(b"input fault 24 reference\n"),
        Refusal::Missing { x, y } => add_pair(text, b"input fault 25 missing ", x, b" ", y),
        Refusal::Memory => text.bytes(b"no memory\n"),
        Refusal::ReadFault => text.bytes(b"read fault\n"),
        Refusal::WriteFault => text.bytes(b"write fault\n"),
    }
}

fn add_input_line<D: Sink>(text: &mut TextWriter<D>, fault: InputFault)
    ensures { Adds (view_of D.held D.faults text.old) (view_of D.held D.faults text.new) (refusal_line (refusals.Input fault)) }
{
    text.bytes(b"input fault ");
    add_fault(text, fault);
    text.end_line();
}

/// Adds a line of two numbers, each after its label.
fn add_pair<D: Sink, I: Integer, J: Integer>(
    text: &mut TextWriter<D>,
    label: &[u8],
    number: I,
    between: &[u8],
    other: J,
)
    ensures { Adds (view_of D.held D.faults text.old) (view_of D.held D.faults text.new) (label.now ++ (I.text number ++ (between.now ++ (J.text other ++ 10 ∷ [])))) }
{
    text.bytes(label);
    text.number(number);
    add_around(text, between, other, b"\n");
}

/// Adds a number between two labels.
fn add_around<D: Sink, I: Integer>(text: &mut TextWriter<D>, before: &[u8], number: I, after: &[u8])
    ensures { Adds (view_of D.held D.faults text.old) (view_of D.held D.faults text.new) (before.now ++ (I.text number ++ after.now)) }
{
    text.bytes(before);
    text.number(number);
    text.bytes(after);
}

fn add_fault<D: Sink>(text: &mut TextWriter<D>, fault: InputFault)
    ensures { Adds (view_of D.held D.faults text.old) (view_of D.held D.faults text.new) (fault_text fault) }
{
    match fault {
        InputFault::Plane { role, fault } => add_plane_fault(text, role, fault),
        InputFault::TooLong => text.bytes(b"7 long"),
        InputFault::SizesDiffer(role) => add_named(text, b"8 sizes ", role),
        InputFault::ScriptLine(line) => add_numbered(text, b"9 line ", line),
        InputFault::Outside(line) => add_numbered(text, b"10 outside line ", line),
        InputFault::TooManyAnalysts(line) => add_numbered(text, b"11 analysts line ", line),
        InputFault::TooManyCommands(line) => add_numbered(text, b"12 commands line ", line),
        InputFault::SettleLimit(line) => add_numbered(text, b"13 settles line ", line),
        InputFault::NoEnd => text.bytes(b"14 no end"),
        InputFault::AfterEnd(place) => add_numbered(text, b"15 after end byte ", place),
        InputFault::EditLimit(line) => add_numbered(text, b"16 edits line ", line),
    }
}

/// Adds what the fault of a plane is, after its number.
#[tactic(auto, using(text_lines::proofs::ChainLemmas::adds_two))]
fn add_plane_fault<D: Sink>(text: &mut TextWriter<D>, role: Role, fault: PlaneFault)
    ensures { Adds (view_of D.held D.faults text.old) (view_of D.held D.faults text.new) (plane_fault_text role fault) }
{
    match fault {
        PlaneFault::Magic => add_named(text, b"1 magic ", role),
        PlaneFault::Form(place) => {
            add_named(text, b"2 form ", role);
            add_numbered(text, b" byte ", place);
        }
        PlaneFault::Size { width, height } => {
            add_named(text, b"3 size ", role);
            add_numbered(text, b" ", width);
            add_numbered(text, b" ", height);
        }
        PlaneFault::PhaseMaxval(maxval) => add_numbered(text, b"4 maxval ", maxval),
        PlaneFault::SampleAbove { index, value } => {
            add_named(text, b"5 sample ", role);
            add_numbered(text, b" index ", index);
            add_numbered(text, b" value ", value);
        }
        PlaneFault::Short(samples) => {
            add_named(text, b"6 short ", role);
            add_numbered(text, b" samples ", samples);
        }
    }
}

/// Adds a number after a label.
fn add_numbered<D: Sink, I: Integer>(text: &mut TextWriter<D>, label: &[u8], number: I)
    ensures { Adds (view_of D.held D.faults text.old) (view_of D.held D.faults text.new) (label.now ++ I.text number) }
{
    text.bytes(label);
    text.number(number);
}

/// Adds the name of a role after a label.
fn add_named<D: Sink>(text: &mut TextWriter<D>, label: &[u8], role: Role)
    ensures { Adds (view_of D.held D.faults text.old) (view_of D.held D.faults text.new) (label.now ++ role_text role) }
{
    text.bytes(label);
    text.bytes(role_name(role));
}

/// The name of a role in a line.
fn role_name(role: Role) -> &'static [u8]
    ensures { result.now ≡ role_text role }
{
    match role {
        Role::Phase => b"phase",
        Role::Weight => b"weight",
        Role::Mask => b"mask",
    }
}
