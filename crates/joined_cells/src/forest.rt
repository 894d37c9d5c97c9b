ghost use Rattle.joined_cells.specs.Forest.{IsForest, root_with};
ghost use Rattle.std.specs.List.{range_with_len};
ghost use Rattle.std.specs.Prelude.{◌≡◌, ℕ, ◌<◌, ◌≤◌, IfOk, length};

use std::alloc::{AllocError, Global};

/// A list of the given length in which each number is its own parent.
pub fn own_parents(alloc: Global, numbers: u32) -> Result<Vec<u32>, AllocError>
    ensures { IfOk result (λ parents. parents.items ≡ range_with_len 0 numbers) }
{
    (0..numbers).collect(alloc)
}

/// The root of the tree that `place` belongs to. Each number on the way gets its parent's parent, so that later ways
/// are shorter.
fn root_of(parents: &mut [u32], place: u32) -> u32
    requires within { place < length parents.old }
    requires forest { (root : ℕ → ℕ) × IsForest parents.old root }
    ensures least { result ≤ place }
    ensures root { (root : ℕ → ℕ) → IsForest parents.old root → IsForest parents.new root × (result ≡ root place) × (root result ≡ result) }
{
    let mut here = place;
    while parents[here as usize] != here {
        let above = parents[parents[here as usize] as usize];
        parents[here as usize] = above;
        here = above;
    }
    here
}

/// Joins the trees of two numbers into one tree. Its root is the lesser of their roots.
pub fn join(parents: &mut [u32], first: u32, second: u32)
    requires within { (first < length parents.old) × (second < length parents.old) }
    requires forest { (root : ℕ → ℕ) × IsForest parents.old root }
    ensures { (root : ℕ → ℕ) → IsForest parents.old root → IsForest parents.new (root_with root first second) }
{
    // most pairs that are joined already have the same parent
    if parents[first as usize] == parents[second as usize] {
        return;
    }
    let one = root_of(parents, first);
    let other = root_of(parents, second);
    parents[one.max(other) as usize] = one.min(other);
}

/// Puts a root into the tree of an earlier number: it gets the parent of that number.
pub fn hang(parents: &mut [u32], alone: u32, earlier: u32)
    requires within { (earlier < alone) × (alone < length parents.old) }
    ensures { (root : ℕ → ℕ) → IsForest parents.old root → root alone ≡ alone → root earlier < alone → IsForest parents.new (root_with root earlier alone) }
{
    parents[alone as usize] = parents[earlier as usize];
}
