//! Lists of revisions that rise.
ghost use Rattle.std.specs.Prelude.{◌≡◌, ◌+◌, ◌<◌, ◌≤◌, ◌↔◌, IsTrue, Some, vec_capacity, vec_len};
ghost use Rattle.tile_workers.specs.Watching.{IsAbove, KeepsAbove, KeepsToo, Rises};

/// Whether a revision is above another, or there is no other.
pub(crate) fn is_above(revision: u32, last: Option<u32>) -> bool
    ensures { IsTrue result ↔ IsAbove revision last }
{
    match last {
        Some(number) => revision > number,
        None => true,
    }
}

/// Keeps a revision, if it is above the last one of the list. There has to be room for it.
pub(crate) fn keep_above(kept: &mut Vec<u32>, revision: u32)
    requires rises { Rises kept.old.items }
    requires room { vec_len kept.old < vec_capacity kept.old }
    ensures rises { Rises kept.new.items }
    ensures kept { KeepsAbove kept.old.items kept.new.items revision }
    ensures room { (vec_capacity kept.old ≤ vec_capacity kept.new) × (vec_len kept.new ≤ vec_len kept.old + 1) }
{
    if is_above(revision, kept.last().copied()) {
        let _pushed = kept.push(revision);
    }
}

/// Takes a revision in at its place in order, if the list lacks it. There has to be room for it.
pub(crate) fn take_in(kept: &mut Vec<u32>, revision: u32)
    requires rises { Rises kept.old.items }
    requires room { vec_len kept.old < vec_capacity kept.old }
    ensures rises { Rises kept.new.items }
    ensures kept { KeepsToo kept.old.items kept.new.items (Some revision) }
{
    if let Err(place) = kept.binary_search(&revision) {
        let _inserted = kept.insert(place, revision);
    }
}
