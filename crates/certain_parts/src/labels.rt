ghost use Rattle.certain_parts.specs.Labels.{enough, rank_of, size_of};
ghost use Rattle.raster_model.specs.Limits.{max_pixels};
ghost use Rattle.std.specs.Prelude.{◌≡◌, ◌<◌, ◌≤◌, ℕ, IfOk, length, slice_index};

use joined_cells::measure_trees;
use std::alloc::{AllocError, Global};

/// Replaces the number of each tree, below `total`, by its rank among those with at least `least` pixels, from 1, and by 0 if
/// it has fewer. The result is how many have as many.
pub(crate) fn rank_trees(
    alloc: Global,
    labels: &mut [u32],
    total: u32,
    least: u32,
) -> Result<u32, AllocError>
    requires room { length labels.old ≤ max_pixels }
    requires few { total ≤ max_pixels }
    ensures same { length labels.new ≡ length labels.old }
    ensures ranked { IfOk result (λ count. (i : ℕ) → i < length labels.old → slice_index labels.old i < total → slice_index labels.new i ≡ rank_of least (size_of labels.old) (slice_index labels.old i)) }
    ensures other { IfOk result (λ count. (i : ℕ) → i < length labels.old → total ≤ slice_index labels.old i → slice_index labels.new i ≡ 0) }
    ensures count { IfOk result (λ count. count ≡ enough least (size_of labels.old) total) }
    ensures small { IfOk result (λ count. count ≤ total) }
{
    let mut ranks = measure_trees(alloc, labels, total)?.sizes;
    let count = rank_sizes(&mut ranks, least);
    relabel(labels, &ranks);
    Ok(count)
}

/// Replaces each size that is at least `least` by how many such sizes there are up to it, and each other by 0. The result is
/// how many there are.
fn rank_sizes(sizes: &mut [u32], least: u32) -> u32
    requires { length sizes.old ≤ max_pixels }
    ensures same { length sizes.new ≡ length sizes.old }
    ensures ranks { (n : ℕ) → n < length sizes.old → slice_index sizes.new n ≡ rank_of least (λ i. slice_index sizes.old i) n }
    ensures count { result ≡ enough least (λ i. slice_index sizes.old i) (length sizes.old) }
    ensures small { result ≤ length sizes.old }
{
    let mut count = 0;
    for n in 0..sizes.len() {
        if sizes[n] >= least {
            count += 1;
            sizes[n] = count;
        } else {
            sizes[n] = 0;
        }
    }
    count
}

/// Replaces each label by the number that a list has at its place, and by 0 if it is beyond the list.
fn relabel(labels: &mut [u32], numbers: &[u32])
    ensures same { length labels.new ≡ length labels.old }
    ensures numbers { (i : ℕ) → i < length labels.old → slice_index labels.new i ≡ slice_index numbers.now (slice_index labels.old i) }
{
    for place in 0..labels.len() {
        labels[place] = number_at(numbers, labels[place]);
    }
}

/// The number that a list has at a place, or 0 if that is beyond the list.
fn number_at(numbers: &[u32], place: u32) -> u32
    ensures { result ≡ slice_index numbers.now place }
{
    let place = place as usize;
    if place < numbers.len() {
        numbers[place]
    } else {
        0
    }
}
