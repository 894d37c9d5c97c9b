ghost use Rattle.std.specs.Arc.{arc_value};
ghost use Rattle.std.specs.Prelude.{◌≡◌, IfOk, IsTrue};

use std::alloc::{AllocError, Global};
use std::sync::Arc;

/// Flows that surfaces can share.
pub(crate) fn to_share(alloc: Global, flows: Vec<i64>) -> Result<Arc<Vec<i64>>, AllocError>
    ensures { IfOk result (λ kept. (arc_value kept).items ≡ flows.items) }
{
    Ok(Arc::new(alloc, flows)?)
}

/// The flows of a surface: those of an earlier one, if they are equal and the count of those who share them is not too
/// high, and otherwise its own.
pub(crate) fn shared_flows(flows: Arc<Vec<i64>>, earlier: &Arc<Vec<i64>>) -> Arc<Vec<i64>>
    ensures { (arc_value result).items ≡ (arc_value flows).items }
{
    if !are_equal(&flows, earlier) {
        return flows;
    }
    match earlier.clone() {
        Ok(shared) => shared,
        Err(_) => flows,
    }
}

/// Whether two lists of flows are equal.
fn are_equal(these: &[i64], those: &[i64]) -> bool
    ensures { IsTrue result → these.now ≡ those.now }
{
    these == those
}
