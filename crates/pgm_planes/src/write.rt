ghost use Rattle.std.specs.Prelude.{◌≡◌, ◌≤◌, ◌*◌, All, length, take, flat_map, OnOk, OnErr};
ghost use Rattle.byteorder.specs.Endian.{big_bytes};
ghost use Rattle.insar_ports.specs.Bytes.{HasRisen, GainsProperPrefix, with_end};
ghost use Rattle.pgm_planes.specs.declared.write.TheConstants.{PIECE_SAMPLES};
ghost use Rattle.pgm_planes.specs.Planes.{plane_of, is_wide as is_wide_maxval};
ghost use Rattle.pgm_planes.specs.Text.{raster_text, plane_header_text, plane_text};
ghost use Rattle.text_lines.specs.Adding.{Adds};
ghost use Rattle.text_lines.specs.Views.{view_of};

use byteorder::{BigEndian, ByteOrder};
use insar_ports::{Sink, WriteFault};
use raster_model::Plane;
use text_lines::TextWriter;

/// How many samples are added to a text at once.
const PIECE_SAMPLES: usize = 4096;

/// How many bytes they have at most.
const PIECE_BYTES: usize = 2 * PIECE_SAMPLES;

/// Writes the raw form of a plane (pgm(5), "The Format"): `P5`, LF, width, SP, height, LF, maxval, LF,
/// and the samples in row order. It takes no memory.
pub fn write_plane<K: Sink>(plane: &Plane, sink: &mut K) -> Result<(), WriteFault>
    ensures written { OnOk result (K.held sink.new ≡ with_end (K.held sink.old) (plane_text (plane_of plane.now))) }
    ensures cut { OnErr result (GainsProperPrefix (K.held sink.old) (plane_text (plane_of plane.now)) (K.held sink.new)) }
    ensures fault { OnErr result (HasRisen (K.faults sink.old) (K.faults sink.new)) }
    ensures grows { K.faults sink.old ≤ K.faults sink.new }
{
    let mut text = TextWriter::new(sink);
    add_plane(&mut text, plane);
    text.finish()
}

/// Adds the raw form of a plane to a text.
pub fn add_plane<K: Sink>(text: &mut TextWriter<K>, plane: &Plane)
    ensures { Adds (view_of K.held K.faults text.old) (view_of K.held K.faults text.new) (plane_text (plane_of plane.now)) }
{
    add_header(text, plane.width, plane.height, plane.maxval);
    add_raster(text, &plane.samples, plane.maxval);
}

/// Adds what stands in a raw plane before its samples: `P5`, LF, width, SP, height, LF, maxval, LF.
pub fn add_header<K: Sink>(text: &mut TextWriter<K>, width: u32, height: u32, maxval: u16)
    ensures { Adds (view_of K.held K.faults text.old) (view_of K.held K.faults text.new) (plane_header_text width height maxval) }
{
    text.bytes(b"P5\n");
    text.number(width);
    text.space();
    text.number(height);
    text.end_line();
    text.number(maxval);
    text.end_line();
}

/// Adds samples in pieces.
fn add_raster<K: Sink>(text: &mut TextWriter<K>, samples: &[u16], maxval: u16)
    requires { All (λ v. v ≤ maxval) samples.now }
    ensures { Adds (view_of K.held K.faults text.old) (view_of K.held K.faults text.new) (raster_text (is_wide_maxval maxval) samples.now) }
{
    let mut start = 0;
    while start < samples.len() {
        let end = samples.len().min(start + PIECE_SAMPLES);
        add_piece(text, &samples[start..end], maxval);
        start = end;
    }
}

/// Adds as many samples as are added at once.
fn add_piece<K: Sink>(text: &mut TextWriter<K>, piece: &[u16], maxval: u16)
    requires short { length piece.now ≤ PIECE_SAMPLES }
    requires below { All (λ v. v ≤ maxval) piece.now }
    ensures { Adds (view_of K.held K.faults text.old) (view_of K.held K.faults text.new) (raster_text (is_wide_maxval maxval) piece.now) }
{
    let mut bytes = [0; PIECE_BYTES];
    let count = fill(piece, maxval, &mut bytes);
    text.bytes(&bytes[..count]);
}

/// Puts the text of samples into the front of `bytes`, and says how many bytes it has.
fn fill(piece: &[u16], maxval: u16, bytes: &mut [u8]) -> usize
    requires room { 2 * length piece.now ≤ length bytes.old }
    requires below { All (λ v. v ≤ maxval) piece.now }
    ensures same { length bytes.new ≡ length bytes.old }
    ensures within { result ≤ length bytes.new }
    ensures front { take result bytes.new ≡ raster_text (is_wide_maxval maxval) piece.now }
{
    if maxval > 255 {
        fill_wide(piece, bytes);
        2 * piece.len()
    } else {
        fill_narrow(piece, bytes);
        piece.len()
    }
}

/// Puts samples that fit a byte into the front of `bytes`.
fn fill_narrow(piece: &[u16], bytes: &mut [u8])
    requires room { length piece.now ≤ length bytes.old }
    requires below { All (λ v. v ≤ 255) piece.now }
    ensures same { length bytes.new ≡ length bytes.old }
    ensures front { take (length piece.now) bytes.new ≡ piece.now }
{
    for (place, sample) in piece.iter().enumerate() {
        bytes[place] = *sample as u8;
    }
}

/// Puts samples as two bytes each, the most significant first, into the front of `bytes`.
fn fill_wide(piece: &[u16], bytes: &mut [u8])
    requires { 2 * length piece.now ≤ length bytes.old }
    ensures same { length bytes.new ≡ length bytes.old }
    ensures front { take (2 * length piece.now) bytes.new ≡ flat_map (big_bytes 2) piece.now }
{
    BigEndian::write_u16_into(piece, &mut bytes[..2 * piece.len()]);
}
