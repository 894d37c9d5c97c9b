ghost use Rattle.sums_and_lists.specs.Sums.{where_true};
ghost use Rattle.std.specs.Prelude.{◌≡◌, ◌<◌, ◌≤◌, ◌+◌, ◌-◌, ◌^◌, ◌==◌, ℕ, ℤ, pos, neg_ℤ, ◌+ℤ◌, ◌-ℤ◌, ◌≤ℤ◌, if◌then◌else◌, length, get_or, unsigned_abs, FitsSigned, [], ◌∷◌, ◌++◌, vec_len, vec_capacity, IfOk};
ghost use Rattle.std.specs.Int.{w64};

use crate::limits::{MAX_AMOUNT, POTENTIAL_BOUND};
use std::alloc::{AllocError, Global};

/// Takes an amount from one place and adds it to another.
pub(crate) fn shift(values: &mut Vec<u64>, from: usize, to: usize, amount: u64)
    requires from { from < length values.old.items }
    requires to { to < length values.old.items }
    requires apart { from ≡ to → ⊥ }
    requires enough { amount ≤ get_or values.old.items from 0 }
    requires room { get_or values.old.items to 0 + amount < 2 ^ 64 }
    ensures length { length values.new.items ≡ length values.old.items }
    ensures shifted { (k : ℕ) → get_or values.new.items k 0 + (if k == from then amount else 0) ≡ get_or values.old.items k 0 + (if k == to then amount else 0) }
{
    values[from] -= amount;
    values[to] += amount;
}

/// Adds to one number.
pub(crate) fn add_at(values: &mut Vec<i64>, at: usize, by: i64)
    requires at { at < length values.old.items }
    requires fits { FitsSigned w64 (get_or values.old.items at (pos 0) +ℤ by) }
    ensures length { length values.new.items ≡ length values.old.items }
    ensures added { (v : ℕ) → get_or values.new.items v (pos 0) ≡ get_or values.old.items v (pos 0) +ℤ where_true (v == at) by }
{
    values[at] += by;
}

/// Takes an amount from one signed number and adds it to another, maybe the same.
pub fn carry(values: &mut Vec<i64>, from: usize, to: usize, amount: u64)
    requires from { from < length values.old.items }
    requires to { to < length values.old.items }
    requires amount { amount ≤ MAX_AMOUNT }
    requires low { neg_ℤ (pos MAX_AMOUNT) ≤ℤ (get_or values.old.items from (pos 0) -ℤ pos amount) }
    requires high { (from ≡ to → ⊥) → (get_or values.old.items to (pos 0) +ℤ pos amount) ≤ℤ pos MAX_AMOUNT }
    ensures length { length values.new.items ≡ length values.old.items }
    ensures carried { (v : ℕ) → get_or values.new.items v (pos 0) ≡ get_or values.old.items v (pos 0) -ℤ where_true (v == from) (pos amount) +ℤ where_true (v == to) (pos amount) }
{
    let signed = amount as i64;
    // The range of a number is known to the proof once it is read.
    let _from = values[from];
    let _to = values[to];
    add_at(values, from, -signed);
    add_at(values, to, signed);
}

/// Adds to each number that of the other slice at its place.
pub fn add_each(values: &mut [i64], amounts: &[i64])
    requires length { length amounts.now ≡ length values.old }
    requires within { (v : ℕ) → v < length values.old → unsigned_abs (get_or values.old v (pos 0) +ℤ get_or amounts.now v (pos 0)) < POTENTIAL_BOUND }
    ensures length { length values.new ≡ length values.old }
    ensures added { (v : ℕ) → v < length values.old → get_or values.new v (pos 0) ≡ get_or values.old v (pos 0) +ℤ get_or amounts.now v (pos 0) }
{
    for i in 0..values.len() {
        values[i] += amounts[i];
    }
}

/// Adds an item if there is room.
pub(crate) fn push_reserved<T: Drop>(items: &mut Vec<T>, item: T)
    requires { vec_len items.old < vec_capacity items.old }
    ensures items { items.new.items ≡ items.old.items ++ item ∷ [] }
    ensures len { vec_len items.new ≡ vec_len items.old + 1 }
    ensures capacity { vec_capacity items.old ≤ vec_capacity items.new }
{
    let _pushed = items.push(item);
}

/// No arc at each of `count` nodes.
pub(crate) fn no_arcs(alloc: Global, count: usize) -> Result<Vec<Option<u32>>, AllocError>
    ensures count { IfOk result (λ first. length first.items ≡ count) }
    ensures none { IfOk result (λ first. (v : ℕ) → v < count → get_or first.items v None ≡ None) }
{
    let mut first = Vec::new(alloc);
    for _ in 0..count {
        first.push(None)?;
    }
    Ok(first)
}
