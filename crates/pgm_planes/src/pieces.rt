ghost use Rattle.std.specs.Prelude.{◌≡◌, ◌≤◌, All, OnOk, false, length, take};
ghost use Rattle.insar_ports.specs.Feeding.{source_name, limit_of};
ghost use Rattle.insar_ports.specs.Calls.{Moves, call_of};
ghost use Rattle.pgm_planes.specs.declared.samples.SampleForm.TheVariants as forms;
ghost use Rattle.pgm_planes.specs.Pieces.{TakesPiece};

use crate::samples::SampleForm;
use byteorder::{BigEndian, ByteOrder};
use insar_ports::{Feed, Source};
use std::alloc::AllocError;

/// How many samples are taken at once at most.
pub const PIECE_SAMPLES: usize = 2048;

/// Takes samples that wait in the feed whole, at most `most` and none from the first above `maxval`
/// on, and appends them. Samples of digits are left to be taken one by one.
pub fn take_waiting<S: Source>(
    feed: &mut Feed<S>,
    form: SampleForm,
    maxval: u16,
    most: usize,
    samples: &mut Vec<u16>,
) -> Result<(), AllocError>
    ensures same_source { source_name feed.new ≡ source_name feed.old }
    ensures limit { limit_of feed.new ≡ limit_of feed.old }
    ensures moves { Moves (call_of S.left S.faults feed.old feed.new) }
    ensures taken { OnOk result (TakesPiece form maxval most samples.old.items samples.new.items (call_of S.left S.faults feed.old feed.new)) }
{
    match form {
        SampleForm::Narrow => take_narrow(feed, maxval, most, samples),
        SampleForm::Wide => take_wide(feed, maxval, most, samples),
        SampleForm::Digits => Ok(()),
    }
}

/// Takes samples of one byte.
fn take_narrow<S: Source>(
    feed: &mut Feed<S>,
    maxval: u16,
    most: usize,
    samples: &mut Vec<u16>,
) -> Result<(), AllocError>
    ensures same_source { source_name feed.new ≡ source_name feed.old }
    ensures limit { limit_of feed.new ≡ limit_of feed.old }
    ensures moves { Moves (call_of S.left S.faults feed.old feed.new) }
    ensures taken { OnOk result (TakesPiece forms.Narrow maxval most samples.old.items samples.new.items (call_of S.left S.faults feed.old feed.new)) }
{
    let mut buffer = [0; PIECE_SAMPLES];
    let bytes = feed.waiting();
    let count = bytes.len().min(most).min(PIECE_SAMPLES);
    let piece = &mut buffer[..count];
    widen(&bytes[..count], piece);
    let good = count_within(piece, maxval);
    samples.extend_from_slice(&piece[..good])?;
    feed.consume(good);
    Ok(())
}

/// Takes samples of two bytes.
fn take_wide<S: Source>(
    feed: &mut Feed<S>,
    maxval: u16,
    most: usize,
    samples: &mut Vec<u16>,
) -> Result<(), AllocError>
    ensures same_source { source_name feed.new ≡ source_name feed.old }
    ensures limit { limit_of feed.new ≡ limit_of feed.old }
    ensures moves { Moves (call_of S.left S.faults feed.old feed.new) }
    ensures taken { OnOk result (TakesPiece forms.Wide maxval most samples.old.items samples.new.items (call_of S.left S.faults feed.old feed.new)) }
{
    let mut buffer = [0; PIECE_SAMPLES];
    let bytes = feed.waiting();
    let count = (bytes.len() / 2).min(most).min(PIECE_SAMPLES);
    let piece = &mut buffer[..count];
    BigEndian::read_u16_into(&bytes[..2 * count], piece);
    let good = count_within(piece, maxval);
    samples.extend_from_slice(&piece[..good])?;
    feed.consume(2 * good);
    Ok(())
}

/// Puts each byte as a sample into the front of `samples`.
fn widen(bytes: &[u8], samples: &mut [u16])
    requires { length bytes.now ≤ length samples.old }
    ensures same { length samples.new ≡ length samples.old }
    ensures front { take (length bytes.now) samples.new ≡ bytes.now }
{
    for (place, byte) in bytes.iter().enumerate() {
        samples[place] = u16::from(*byte);
    }
}

/// How many samples there are before the first above `maxval`.
fn count_within(samples: &[u16], maxval: u16) -> usize
    ensures count { result ≤ length samples.now }
    ensures below { All (λ v. v ≤ maxval) (take result samples.now) }
{
    if is_any_above(samples, maxval) {
        count_one_by_one(samples, maxval)
    } else {
        samples.len()
    }
}

/// Whether any sample is above `maxval`. It does not stop at one, so that several can be judged at once.
fn is_any_above(samples: &[u16], maxval: u16) -> bool
    ensures { result ≡ false → All (λ v. v ≤ maxval) samples.now }
{
    let mut found = false;
    for sample in samples {
        found |= *sample > maxval;
    }
    found
}

/// How many samples there are before the first above `maxval`, one by one.
fn count_one_by_one(samples: &[u16], maxval: u16) -> usize
    ensures count { result ≤ length samples.now }
    ensures below { All (λ v. v ≤ maxval) (take result samples.now) }
{
    for (place, sample) in samples.iter().enumerate() {
        if *sample > maxval {
            return place;
        }
    }
    samples.len()
}
