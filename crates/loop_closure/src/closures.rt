ghost use Rattle.loop_closure.specs.Closure.{IsWideLoop, closure_of};
ghost use Rattle.loop_closure.specs.Parts.{AreClosed, IsFirstWidePlace};
ghost use Rattle.std.specs.Prelude.{◌≡◌, IfNone, IfSome, MatchOption, length};

use grid_writer::NO_DATA;

/// The closure of three values, in units of 1/65536 cycle: NODATA where one of them is missing, and None if it does not fit 64
/// bits or is the NODATA value.
fn closure(a: i64, b: i64, c: i64) -> Option<i64>
    ensures { MatchOption result (IsWideLoop a b c) (λ closure. (closure ≡ closure_of a b c) × (IsWideLoop a b c → ⊥)) }
{
    if a == NO_DATA || b == NO_DATA || c == NO_DATA {
        return Some(NO_DATA);
    }
    match i64::try_from(i128::from(a) + i128::from(b) - i128::from(c)) {
        Ok(closure) if closure != NO_DATA => Some(closure),
        _ => None,
    }
}

/// Puts the closure of each place into a list. If one is too wide it stops there and says where.
pub(crate) fn put_closures(a: &[i64], b: &[i64], c: &[i64], closures: &mut [i64]) -> Option<usize>
    requires first { length a.now ≡ length closures.old }
    requires second { length b.now ≡ length closures.old }
    requires third { length c.now ≡ length closures.old }
    ensures closed { IfNone result (AreClosed a.now b.now c.now (length closures.new) closures.new) }
    ensures wide { IfSome result (λ place. IsFirstWidePlace a.now b.now c.now place) }
{
    for place in 0..closures.len() {
        match closure(a[place], b[place], c[place]) {
            Some(closure) => closures[place] = closure,
            None => return Some(place),
        }
    }
    None
}
