ghost use Rattle.std.specs.Prelude.{◌≡◌, ◌≤◌, ◌<◌, ℕ, IfOk, vec_len, slice_index, true, false};
ghost use Rattle.insar_ports.specs.Feeding.{source_name, limit_of};
ghost use Rattle.pgm_planes.specs.declared.samples.SampleForm.TheVariants as forms;
ghost use Rattle.insar_ports.specs.Calls.{call_of};
ghost use Rattle.pgm_planes.specs.Reading.{Reads, nothing, as_refusal, form_of as form_of_spelling, spelled_sample_at, samples_at, end_at, raster_at, judged as judged_sample};

use crate::fault::{PlaneFault, ReadPlaneFault};
use crate::header::{is_space, read_number, read_octet, see_byte, skip_blanks};
use crate::pieces::{PIECE_SAMPLES, take_waiting};
use crate::spelling::Spelling;
use byteorder::{BigEndian, ByteOrder};
use insar_ports::{Feed, Source};
use std::alloc::{AllocError, Global};

/// For how many samples there is room at first, if so many are to come.
const FIRST_ROOM: usize = 65_536;

/// How one sample is spelled.
#[derive(Clone, Copy)]
pub enum SampleForm {
    /// One byte.
    Narrow,
    /// Two bytes, the most significant first.
    Wide,
    /// Decimal digits after white space.
    Digits,
}

/// How the samples of a plane are spelled: a raw one has two bytes if maxval is at least 256.
fn form_of(spelling: Spelling, maxval: u16) -> SampleForm
    ensures { result ≡ form_of_spelling spelling maxval }
{
    match spelling {
        Spelling::Raw if maxval > 255 => SampleForm::Wide,
        Spelling::Raw => SampleForm::Narrow,
        Spelling::Plain => SampleForm::Digits,
    }
}

/// The sample with this index, if it is not above `maxval`.
fn judged(sample: u32, maxval: u16, index: u32) -> Result<u16, ReadPlaneFault>
    ensures exact { result ≡ as_refusal (judged_sample maxval index sample) }
    ensures below { IfOk result (λ sample. sample ≤ maxval) }
{
    if sample > u32::from(maxval) {
        return Err(ReadPlaneFault::Plane(PlaneFault::SampleAbove {
            index,
            value: sample,
        }));
    }
    Ok(sample as u16)
}

/// Takes a sample of one byte.
fn read_narrow<S: Source>(
    feed: &mut Feed<S>,
    maxval: u16,
    index: u32,
) -> Result<u16, ReadPlaneFault>
    ensures same_source { source_name feed.new ≡ source_name feed.old }
    ensures limit { limit_of feed.new ≡ limit_of feed.old }
    ensures below { IfOk result (λ sample. sample ≤ maxval) }
    ensures reads { Reads (λ n. n) result (call_of S.left S.faults feed.old feed.new) (spelled_sample_at forms.Narrow maxval index) }
{
    let byte = read_octet(feed, PlaneFault::Short(index))?;
    judged(u32::from(byte), maxval, index)
}

/// Takes a sample of two bytes, the most significant first.
fn read_wide<S: Source>(feed: &mut Feed<S>, maxval: u16, index: u32) -> Result<u16, ReadPlaneFault>
    ensures same_source { source_name feed.new ≡ source_name feed.old }
    ensures limit { limit_of feed.new ≡ limit_of feed.old }
    ensures below { IfOk result (λ sample. sample ≤ maxval) }
    ensures reads { Reads (λ n. n) result (call_of S.left S.faults feed.old feed.new) (spelled_sample_at forms.Wide maxval index) }
{
    let high = read_octet(feed, PlaneFault::Short(index))?;
    let low = read_octet(feed, PlaneFault::Short(index))?;
    let sample = BigEndian::read_u16(&[high, low]);
    judged(u32::from(sample), maxval, index)
}

/// Takes white space and a sample of digits.
fn read_plain<S: Source>(feed: &mut Feed<S>, maxval: u16, index: u32) -> Result<u16, ReadPlaneFault>
    ensures same_source { source_name feed.new ≡ source_name feed.old }
    ensures limit { limit_of feed.new ≡ limit_of feed.old }
    ensures below { IfOk result (λ sample. sample ≤ maxval) }
    ensures reads { Reads (λ n. n) result (call_of S.left S.faults feed.old feed.new) (spelled_sample_at forms.Digits maxval index) }
{
    skip_blanks(feed)?;
    let sample = read_number(feed, PlaneFault::Short(index))?;
    judged(sample, maxval, index)
}

/// Takes a sample.
fn read_sample<S: Source>(
    feed: &mut Feed<S>,
    form: SampleForm,
    maxval: u16,
    index: u32,
) -> Result<u16, ReadPlaneFault>
    ensures same_source { source_name feed.new ≡ source_name feed.old }
    ensures limit { limit_of feed.new ≡ limit_of feed.old }
    ensures below { IfOk result (λ sample. sample ≤ maxval) }
    ensures reads { Reads (λ n. n) result (call_of S.left S.faults feed.old feed.new) (spelled_sample_at form maxval index) }
{
    match form {
        SampleForm::Narrow => read_narrow(feed, maxval, index),
        SampleForm::Wide => read_wide(feed, maxval, index),
        SampleForm::Digits => read_plain(feed, maxval, index),
    }
}

/// Makes room for a sample and those that wait after it, and for as many as there are, but for no more than `most`, which
/// are still to come.
fn make_room(samples: &mut Vec<u16>, most: usize) -> Result<(), AllocError>
    ensures items { samples.new.items ≡ samples.old.items }
    ensures len { vec_len samples.new ≡ vec_len samples.old }
{
    if samples.capacity() - samples.len() > PIECE_SAMPLES {
        return Ok(());
    }
    samples.reserve_exact(samples.len().max(FIRST_ROOM).min(most))
}

/// Takes the given number of samples: one by itself, then those that wait, and so on. A sample that is
/// cut or above `maxval` is always met by itself. Room grows with the samples.
fn read_samples<S: Source>(
    alloc: Global,
    feed: &mut Feed<S>,
    form: SampleForm,
    maxval: u16,
    count: u32,
) -> Result<Vec<u16>, ReadPlaneFault>
    ensures same_source { source_name feed.new ≡ source_name feed.old }
    ensures limit { limit_of feed.new ≡ limit_of feed.old }
    ensures count { IfOk result (λ samples. vec_len samples ≡ count) }
    ensures below { IfOk result (λ samples. (k : ℕ) → slice_index samples.items k ≤ maxval) }
    ensures reads { Reads (λ v. v.items) result (call_of S.left S.faults feed.old feed.new) (samples_at form maxval count 0) }
{
    let mut samples = Vec::new(alloc);
    let mut index = 0;
    while index < count {
        make_room(&mut samples, (count - index) as usize)?;
        let sample = read_sample(feed, form, maxval, index)?;
        samples.push(sample)?;
        let others = (count - index - 1) as usize;
        take_waiting(feed, form, maxval, others, &mut samples)?;
        index = samples.len() as u32;
    }
    Ok(samples)
}

/// Takes the white space after the last sample of a plain raster.
fn read_end<S: Source>(feed: &mut Feed<S>) -> Result<(), ReadPlaneFault>
    ensures same_source { source_name feed.new ≡ source_name feed.old }
    ensures limit { limit_of feed.new ≡ limit_of feed.old }
    ensures reads { Reads (λ _. nothing) result (call_of S.left S.faults feed.old feed.new) end_at }
{
    let Some(byte) = see_byte(feed)? else {
        return Ok(());
    };
    if !is_space(byte) {
        return Err(ReadPlaneFault::Plane(PlaneFault::Form(feed.handed())));
    }
    skip_blanks(feed)
}

/// Takes a raster of the given number of samples.
pub fn read_raster<S: Source>(
    alloc: Global,
    feed: &mut Feed<S>,
    spelling: Spelling,
    maxval: u16,
    count: u32,
) -> Result<Vec<u16>, ReadPlaneFault>
    ensures same_source { source_name feed.new ≡ source_name feed.old }
    ensures limit { limit_of feed.new ≡ limit_of feed.old }
    ensures count { IfOk result (λ samples. vec_len samples ≡ count) }
    ensures below { IfOk result (λ samples. (k : ℕ) → slice_index samples.items k ≤ maxval) }
    ensures reads { Reads (λ v. v.items) result (call_of S.left S.faults feed.old feed.new) (raster_at spelling maxval count) }
{
    let samples = read_samples(alloc, feed, form_of(spelling, maxval), maxval, count)?;
    match spelling {
        Spelling::Raw => Ok(samples),
        Spelling::Plain => {
            read_end(feed)?;
            Ok(samples)
        }
    }
}
