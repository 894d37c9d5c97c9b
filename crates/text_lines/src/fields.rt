ghost use Rattle.std.specs.Prelude.{◌++◌};
ghost use Rattle.text_lines.specs.Adding.{Adds};
ghost use Rattle.text_lines.specs.Numbers.{AreLongs, number_text, numbers_line, numbers_text};
ghost use Rattle.text_lines.specs.Text.{field_text, rect_text};
ghost use Rattle.text_lines.specs.Views.{view_of};

use crate::writer::TextWriter;
use insar_ports::Sink;
use raster_model::Rect;

/// Adds a number after a space.
pub fn add_field<K: Sink>(text: &mut TextWriter<K>, number: u32)
    ensures { Adds (view_of K.held K.faults text.old) (view_of K.held K.faults text.new) (field_text number) }
{
    text.space();
    text.number(number);
}

/// Adds a number of 64 bits after a space.
pub fn add_long_field<K: Sink>(text: &mut TextWriter<K>, number: u64)
    ensures { Adds (view_of K.held K.faults text.old) (view_of K.held K.faults text.new) (field_text number) }
{
    text.space();
    text.number(number);
}

/// Adds a number of 128 bits after a space.
pub fn add_wide_field<K: Sink>(text: &mut TextWriter<K>, number: u128)
    ensures { Adds (view_of K.held K.faults text.old) (view_of K.held K.faults text.new) (field_text number) }
{
    text.space();
    text.number(number);
}

/// Adds a number of 64 bits with its sign after a space.
pub fn add_signed_field<K: Sink>(text: &mut TextWriter<K>, number: i64)
    ensures { Adds (view_of K.held K.faults text.old) (view_of K.held K.faults text.new) (number_text number) }
{
    text.space();
    text.signed(number);
}

/// Adds a number of 128 bits with its sign after a space.
pub fn add_wide_signed_field<K: Sink>(text: &mut TextWriter<K>, number: i128)
    ensures { Adds (view_of K.held K.faults text.old) (view_of K.held K.faults text.new) (number_text number) }
{
    text.space();
    text.number(number);
}

/// Each number fits 64 bits, as its type says. The loop is here for that proof alone, and compiles to nothing.
pub fn see_longs(numbers: &[i64])
    ensures { AreLongs numbers.now }
{
    for number in numbers {
        let _seen = *number;
    }
}

/// Adds numbers, each after a space.
pub fn add_numbers<K: Sink>(text: &mut TextWriter<K>, numbers: &[i64])
    ensures added { Adds (view_of K.held K.faults text.old) (view_of K.held K.faults text.new) (numbers_text numbers.now) }
    ensures longs { AreLongs numbers.now }
{
    see_longs(numbers);
    for number in numbers {
        add_signed_field(text, *number);
    }
}

/// Adds numbers with a space between them.
pub fn add_row<K: Sink>(text: &mut TextWriter<K>, numbers: &[i64])
    ensures { Adds (view_of K.held K.faults text.old) (view_of K.held K.faults text.new) (numbers_line numbers.now) }
{
    if let [first, rest @ ..] = numbers {
        text.signed(*first);
        add_numbers(text, rest);
    }
}

/// Adds a word and the four numbers of a box.
pub fn add_rect<K: Sink>(text: &mut TextWriter<K>, word: &[u8], rect: Rect)
    ensures { Adds (view_of K.held K.faults text.old) (view_of K.held K.faults text.new) (word.now ++ rect_text rect) }
{
    text.bytes(word);
    add_field(text, rect.x0);
    add_field(text, rect.y0);
    add_field(text, rect.x1);
    add_field(text, rect.y1);
}
