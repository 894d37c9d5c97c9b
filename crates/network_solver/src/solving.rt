ghost use Rattle.dual_grid.specs.Answers.{AreCertifiedOver, IsNearStart, StaysNearStart};
ghost use Rattle.dual_grid.specs.Grids.{HasSmallCosts, IsConnected};
ghost use Rattle.dual_grid.specs.Layout.{AreLow};
ghost use Rattle.dual_grid.specs.Starts.{TellsMask};
ghost use Rattle.dual_grid.specs.Views.{IsGridOf, grid_shape, grid_start, grid_state};
ghost use Rattle.flow_network.specs.Nets.{HasNoExcess};
ghost use Rattle.network_solver.specs.Fresh.{CanBeBalanced};
ghost use Rattle.raster_model.specs.Raster.{Raster};
ghost use Rattle.raster_model.specs.Sheets.{sheet_raster};
ghost use Rattle.raster_model.specs.Sums.{Field};
ghost use Rattle.raster_model.specs.Tiles.{height_of, width_of};
ghost use Rattle.raster_model.specs.declared.tiling.Window.{Window as WindowOf};
ghost use Rattle.std.specs.Prelude.{◌≡◌, ◌*◌, ℕ, Bool, IfOk, List, OnOk, length};
ghost use Rattle.wrapped_gradient.specs.Gradients.{AreGradientsOf};

use crate::leveling::LeveledGrid;
use dual_grid::DualGrid;
use flow_network::FlowNet;
use raster_model::Sheet;
use shortest_augment::{BalanceFault, balance};
use std::alloc::{AllocError, Global};
use wrapped_gradient::{Corrections, Gradients};

/// The corrections of a window's edges that cancel its residues at least cost, and the faces of its cells in row order,
/// which certify them. The window is that of the gradients, which are the sheet's. `unmasked` tells the mask: for each
/// pixel of the window, in row order, whether it is open. The answer is one for each tile that has exactly the window's
/// pixels, whatever tiles the sheet's raster is given. It fails only for lack of memory. (Costantini 1998.)
pub fn network_corrections(
    alloc: Global,
    sheet: &Sheet,
    gradients: &Gradients,
    unmasked: &[bool],
) -> Result<(Corrections, Vec<i64>), AllocError>
    requires gradients { AreGradientsOf (sheet_raster sheet.now) gradients.now }
    requires count { length unmasked.now ≡ width_of gradients.now.window * height_of gradients.now.window }

    // The mask is any that agrees with `unmasked` over the window.
    ensures { IfOk result (λ made. (mask : Field Bool) → TellsMask gradients.now.window unmasked.now mask → AreCertifiedOver (sheet_raster sheet.now) mask gradients.now.window made.0 made.1.items) }
{
    let mut grid = DualGrid::over(alloc, sheet, gradients, unmasked)?;
    empty(alloc, &mut grid)?;
    grid.answer(alloc)
}

/// The same as `network_corrections`, from what was reached before: corrections that cancel most of the residues, and
/// faces that go with them. Where they do not fit the window or each other, or are too great, nothing is taken of them. So
/// what was reached can save time, and changes nothing of what is promised. It fails only for lack of memory.
pub fn network_corrections_from(
    alloc: Global,
    sheet: &Sheet,
    gradients: &Gradients,
    unmasked: &[bool],
    corrections: Corrections,
    faces: &[i64],
) -> Result<(Corrections, Vec<i64>), AllocError>
    requires gradients { AreGradientsOf (sheet_raster sheet.now) gradients.now }
    requires count { length unmasked.now ≡ width_of gradients.now.window * height_of gradients.now.window }
    ensures { IfOk result (λ made. (mask : Field Bool) → TellsMask gradients.now.window unmasked.now mask → AreCertifiedOver (sheet_raster sheet.now) mask gradients.now.window made.0 made.1.items) }
{
    match DualGrid::reached(alloc, sheet, gradients, unmasked, corrections, faces)? {
        Some(grid) => finished(alloc, grid),
        None => network_corrections(alloc, sheet, gradients, unmasked),
    }
}

/// What a grid answers once it is balanced from where it stands.
fn finished(alloc: Global, grid: DualGrid) -> Result<(Corrections, Vec<i64>), AllocError>
    requires small { HasSmallCosts (grid_shape grid) }
    requires near { StaysNearStart (grid_start grid) (grid_shape grid) (grid_state grid) }
    requires joined { IsConnected (grid_start grid) (grid_shape grid) }
    requires low { AreLow grid.potentials.items }
    ensures { IfOk result (λ made. (r : Raster) (v : WindowOf) (unmasked : List Bool) (mask : Field Bool) → IsGridOf r v unmasked grid → TellsMask v unmasked mask → AreCertifiedOver r mask v made.0 made.1.items) }
{
    let mut leveled = LeveledGrid::of(grid)?;
    empty(alloc, &mut leveled)?;
    leveled.grid.answer(alloc)
}

/// Balances a network, so that no node has excess. No nodes block it: an arc leads out of them whose capacity is more than
/// all that flows.
fn empty<N: FlowNet>(alloc: Global, net: &mut N) -> Result<(), AllocError>
    requires { (start : ℕ → ℕ) × CanBeBalanced start (N.shape net.old) (N.state net.old) }
    ensures shape { N.shape net.new ≡ N.shape net.old }
    ensures origin { N.same_origin net.old net.new }
    ensures balanced { OnOk result (HasNoExcess (N.shape net.old) (N.state net.new)) }
    ensures near { (start : ℕ → ℕ) → CanBeBalanced start (N.shape net.old) (N.state net.old) → IsNearStart start (N.shape net.old) (N.state net.new) }
{
    match balance(alloc, net) {
        Ok(()) => Ok(()),
        Err(BalanceFault::Memory) => Err(AllocError),
        Err(BalanceFault::Blocked(_)) => unreachable!(),
    }
}
