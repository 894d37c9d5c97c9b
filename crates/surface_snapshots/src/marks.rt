ghost use Rattle.raster_model.specs.Limits.{IsSlope};
ghost use Rattle.std.specs.Prelude.{◌≡◌, ◌<◌, ◌≤◌, ℕ, false, length, pos, slice_index, slice_index_or};
ghost use Rattle.surface_snapshots.specs.Strips.{IsStillEdge};

use crate::shifted::NO_CYCLES;
use raster_model::turns_ramp;

/// Marks the edges of a piece at which a surface may depart. Each edge has a place in the lists of the cycles and of the
/// phases at its ends. It does not stop at any, so that several can be judged at once.
pub(crate) fn mark_departures(
    from: &[i64],
    to: &[i64],
    first: &[u16],
    other: &[u16],
    slope: i32,
    marks: &mut [bool],
)
    requires slope { IsSlope slope }
    requires cycles { (length marks.old ≤ length from.now) × (length marks.old ≤ length to.now) }
    requires phases { (length marks.old ≤ length first.now) × (length marks.old ≤ length other.now) }
    ensures same { length marks.new ≡ length marks.old }
    ensures kept { (i : ℕ) → slice_index_or marks.new i false ≡ false → slice_index_or marks.old i false ≡ false }
    ensures still { (i : ℕ) → i < length marks.old → slice_index_or marks.new i false ≡ false → IsStillEdge slope (slice_index_or from.now i (pos 0)) (slice_index_or to.now i (pos 0)) (slice_index first.now i) (slice_index other.now i) }
{
    for i in 0..marks.len() {
        marks[i] |= departs(from[i], to[i], first[i], other[i], slope);
    }
}

/// Whether any is marked.
pub(crate) fn is_any_marked(marks: &[bool]) -> bool
    ensures { result ≡ false → (i : ℕ) → i < length marks.now → slice_index_or marks.now i false ≡ false }
{
    let mut found = false;
    for i in 0..marks.len() {
        found |= marks[i];
    }
    found
}

/// Whether a surface departs at an edge, by the cycles and the phases at its ends, if neither end is masked.
fn departs(from: i64, to: i64, first: u16, other: u16, slope: i32) -> bool
    requires { IsSlope slope }
    ensures { result ≡ false → IsStillEdge slope from to first other }
{
    let turns = i64::from(turns_ramp(first, other, slope));
    let departure = to.wrapping_sub(from).wrapping_add(turns);
    (from != NO_CYCLES) & (to != NO_CYCLES) & (departure != 0)
}
