ghost use Rattle.std.specs.Prelude.{IsTrue};
ghost use Rattle.surface_snapshots.specs.Runs.{AreRising, IsFirstAfter};

use crate::runs::Run;

/// The first run that ends after a place, and how many there are if none does. It is sought at `hint` first.
pub(crate) fn first_after(runs: &[Run], place: usize, hint: usize) -> usize
    requires { AreRising runs.now }
    ensures { IsFirstAfter runs.now place result }
{
    if is_first_after(runs, place, hint) {
        return hint;
    }
    runs.partition_point(|run| run.end as usize <= place)
}

/// Whether a run is the first that ends after a place.
fn is_first_after(runs: &[Run], place: usize, at: usize) -> bool
    requires { AreRising runs.now }
    ensures { IsTrue result → IsFirstAfter runs.now place at }
{
    if at >= runs.len() || runs[at].end as usize <= place {
        return false;
    }
    at == 0 || runs[at - 1].end as usize <= place
}
