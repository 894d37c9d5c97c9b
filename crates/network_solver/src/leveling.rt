ghost use Rattle.dual_grid.specs.Layout.{AreLow, number_or_zero};
ghost use Rattle.dual_grid.specs.Views.{grid_shape, grid_state};
ghost use Rattle.flow_network.specs.Nets.{HasReducedCosts, IsNetwork};
ghost use Rattle.network_solver.specs.Leveled.{leveled_shape, leveled_state};
ghost use Rattle.std.specs.Prelude.{◌≡◌, length};

use dual_grid::DualGrid;
use flow_network::FlowNet;
use std::alloc::AllocError;

/// A grid seen from the potentials that it had when this was made: potentials count from those, so that all are 0 then,
/// and an arc costs what its reduced cost was. So a solver that starts from potentials of 0 starts from where the grid
/// stands. Conforms to `FlowNet`. (Ahuja, Magnanti and Orlin 1993, section 9.3.)
#[derive(Drop)]
pub(crate) struct LeveledGrid {
    pub(crate) grid: DualGrid,
    /// For each node, the potential that the others count from.
    base: Vec<i64>,
    ghost count: { length base.items ≡ (grid_shape grid).nodes },
    ghost low: { AreLow base.items },
    ghost is_network: { IsNetwork (leveled_shape (grid_shape grid) (number_or_zero base.items)) },
    ghost has_reduced_costs: { HasReducedCosts (leveled_shape (grid_shape grid) (number_or_zero base.items)) (leveled_state (grid_state grid) (number_or_zero base.items)) },
}

impl LeveledGrid {
    ghost use Rattle.network_solver.specs.Views.{shape_from, state_from};
    ghost use Rattle.std.specs.Prelude.{ℕ, ◌<◌, IfOk, pos};

    /// A grid seen from where it stands.
    pub(crate) fn of(grid: DualGrid) -> Result<LeveledGrid, AllocError>
        requires { AreLow grid.potentials.items }
        ensures grid { IfOk result (λ leveled. leveled.grid ≡ grid) }
        ensures flat { IfOk result (λ leveled. (u : ℕ) → u < (shape_from leveled).nodes → (state_from leveled).potential u ≡ pos 0) }
    {
        let base = grid.potentials()?;
        Ok(LeveledGrid { grid, base })
    }
}

impl FlowNet for LeveledGrid {
    ghost use Rattle.dual_grid.specs.Views.{HaveOneOrigin, follows_of_one_origin, stays_of_one_origin};
    ghost use Rattle.network_solver.specs.Views.{shape_from, state_from};

    ghost shape = { λ x. shape_from x };

    ghost state = { λ x. state_from x };

    ghost same_origin = { λ x y. HaveOneOrigin x.grid y.grid };

    ghost is_network = { λ x. x.is_network };

    ghost has_reduced_costs = { λ x. x.has_reduced_costs };

    ghost origin_stays = { λ x. stays_of_one_origin x.grid };

    ghost origin_follows = { λ x y z h k. follows_of_one_origin x.grid y.grid z.grid h k };

    fn nodes(&self) -> u32 {
        self.grid.nodes()
    }

    fn first_out(&self, node: u32) -> Option<u32> {
        self.grid.first_out(node)
    }

    fn next_out(&self, arc: u32) -> Option<u32> {
        self.grid.next_out(arc)
    }

    fn tail(&self, arc: u32) -> u32 {
        self.grid.tail(arc)
    }

    fn head(&self, arc: u32) -> u32 {
        self.grid.head(arc)
    }

    fn twin(&self, arc: u32) -> u32 {
        self.grid.twin(arc)
    }

    fn cost(&self, arc: u32) -> i64 {
        let tail = self.base[self.grid.tail(arc) as usize];
        let head = self.base[self.grid.head(arc) as usize];
        self.grid.cost(arc) + tail - head
    }

    fn residual(&self, arc: u32) -> u64 {
        self.grid.residual(arc)
    }

    fn excess(&self, node: u32) -> i64 {
        self.grid.excess(node)
    }

    fn potential(&self, node: u32) -> i64 {
        self.grid.potential(node) - self.base[node as usize]
    }

    fn push(&mut self, arc: u32, amount: u64) {
        self.grid.push(arc, amount);
    }

    fn raise(&mut self, amounts: &[i64]) {
        self.grid.lift(amounts);
    }
}
