ghost use Rattle.raster_model.specs.Masks.{IsMaskOf, open_by};
ghost use Rattle.raster_model.specs.Weights.{AreRuleWeights};
ghost use Rattle.std.specs.Prelude.{IfOk, ⊤};
ghost use Rattle.std.specs.Thread.{IsSync};

use edge_weights::{weigh, weigh_side_by_side};
use raster_model::{EdgeWeights, Mask, Plane, RuleKind};
use std::alloc::{AllocError, Global};
use std::thread::{Threads, join_mut};

/// Who makes what a session has beside its parts: one thread, or several side by side.
pub(crate) trait Maker {
    /// What its call needs: that its threads can be started.
    ghost ready: { Self → Type 0 };

    /// The weights of the edges by a rule, and the mask of a mask plane.
    fn edges_and_mask(
        &self,
        alloc: Global,
        kind: RuleKind,
        weights: &Plane,
        mask: &Plane,
    ) -> (Result<EdgeWeights, AllocError>, Result<Mask, AllocError>)
        requires { ready self.now }
        ensures edges { IfOk result.0 (AreRuleWeights kind weights.now) }
        ensures mask { IfOk result.1 (λ made. IsMaskOf made mask.now.width mask.now.height (open_by mask.now)) };
}

/// One thread.
#[derive(Drop)]
pub(crate) struct OneThread;

impl Maker for OneThread {
    ghost ready = { λ s. ⊤ };

    fn edges_and_mask(
        &self,
        alloc: Global,
        kind: RuleKind,
        weights: &Plane,
        mask: &Plane,
    ) -> (Result<EdgeWeights, AllocError>, Result<Mask, AllocError>) {
        (weigh(alloc, kind, weights), Mask::of_plane(alloc, mask))
    }
}

/// Two more threads, which weigh the edges while the caller's makes the mask.
#[derive(Drop)]
pub(crate) struct SideBySide<'a, R> {
    pub(crate) rt: &'a R,
}

impl<R: Threads + Sync> Maker for SideBySide<'_, R> {
    ghost ready = { λ s. IsSync R.row };

    fn edges_and_mask(
        &self,
        alloc: Global,
        kind: RuleKind,
        weights: &Plane,
        mask: &Plane,
    ) -> (Result<EdgeWeights, AllocError>, Result<Mask, AllocError>) {
        weighed_beside_mask(self.rt, alloc, kind, weights, mask)
    }
}

/// The weights of the edges by a rule, and the mask of a mask plane.
fn weighed_beside_mask<R: Threads + Sync>(
    rt: &R,
    alloc: Global,
    kind: RuleKind,
    weights: &Plane,
    mask: &Plane,
) -> (Result<EdgeWeights, AllocError>, Result<Mask, AllocError>)
    ensures edges { IfOk result.0 (AreRuleWeights kind weights.now) }
    ensures mask { IfOk result.1 (λ made. IsMaskOf made mask.now.width mask.now.height (open_by mask.now)) }
{
    join_mut(
        rt,
        &mut || -> Result<EdgeWeights, AllocError>
            requires { IsSync R.row }
            ensures { IfOk result (AreRuleWeights kind weights.entry.now) }
        { weigh_side_by_side(rt, alloc, kind, weights) },
        &mut || -> Result<Mask, AllocError>
            ensures { IfOk result (λ made. IsMaskOf made mask.entry.now.width mask.entry.now.height (open_by mask.entry.now)) }
        { Mask::of_plane(alloc, mask) },
    )
}
