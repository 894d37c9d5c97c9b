ghost use Rattle.joined_cells.specs.Measures.{AreMeasures};
ghost use Rattle.raster_model.specs.Limits.{max_pixels};
ghost use Rattle.std.specs.List.{count_by, position_or_len};
ghost use Rattle.std.specs.Prelude.{◌≡◌, ◌+◌, ◌<◌, ◌≤◌, ◌==◌, ℕ, IfOk, length, slice_index, slice_set};

use std::alloc::{AllocError, Global};

/// How many pixels each tree has, and the place of its first pixel.
#[derive(Drop)]
pub struct Measures {
    pub sizes: Vec<u32>,
    pub firsts: Vec<u32>,
}

/// The measures of the trees with the numbers below `count`, by the labels of all pixels. Other labels count for none.
pub fn measure_trees(alloc: Global, labels: &[u32], count: u32) -> Result<Measures, AllocError>
    requires { length labels.now ≤ max_pixels }
    ensures { IfOk result (λ made. AreMeasures labels.now count made.sizes.items made.firsts.items) }
{
    let mut sizes = vec![in alloc; 0; count as usize]?;
    let mut firsts = vec![in alloc; 0; count as usize]?;
    measure_all(labels, &mut sizes, &mut firsts);
    Ok(Measures { sizes, firsts })
}

/// Counts the pixels of each tree, and notes the place of its first pixel.
fn measure_all(labels: &[u32], sizes: &mut [u32], firsts: &mut [u32])
    requires few { length labels.now ≤ max_pixels }
    requires zeros { (n : ℕ) → slice_index sizes.old n ≡ 0 }
    requires beside { length firsts.old ≡ length sizes.old }
    ensures sizes { (n : ℕ) → n < length sizes.new → slice_index sizes.new n ≡ count_by (λ label. label == n) labels.now }
    ensures firsts { (n i : ℕ) → n < length sizes.new → i < length labels.now → slice_index labels.now i ≡ n → slice_index firsts.new n ≡ position_or_len (λ label. label == n) labels.now }
{
    for place in 0..labels.len() {
        note_pixel(sizes, firsts, labels[place], place as u32);
    }
}

/// Counts a pixel at a place to the tree with its label, if there is one. The first pixel of a tree gives its place.
fn note_pixel(sizes: &mut [u32], firsts: &mut [u32], label: u32, place: u32)
    requires beside { length firsts.old ≡ length sizes.old }
    requires room { slice_index sizes.old label ≤ max_pixels }
    ensures beyond { length sizes.old ≤ label → (sizes.new ≡ sizes.old) × (firsts.new ≡ firsts.old) }
    ensures counted { label < length sizes.old → sizes.new ≡ slice_set sizes.old label (slice_index sizes.old label + 1) }
    ensures first { label < length sizes.old → slice_index sizes.old label ≡ 0 → firsts.new ≡ slice_set firsts.old label place }
    ensures later { label < length sizes.old → 1 ≤ slice_index sizes.old label → firsts.new ≡ firsts.old }
{
    let label = label as usize;
    if label >= sizes.len() {
        return;
    }
    if sizes[label] == 0 {
        firsts[label] = place;
    }
    sizes[label] += 1;
}
