ghost use Rattle.raster_model.specs.Limits.{IsSlope};
ghost use Rattle.raster_model.specs.Phase.{wrapped_by};
ghost use Rattle.raster_model.specs.Scene.{raster_of};
ghost use Rattle.raster_model.specs.Sheets.{sheet_raster};
ghost use Rattle.raster_model.specs.Tiles.{IsRasterWindow, IsWindowIn, width_of, height_of};
ghost use Rattle.std.specs.Prelude.{◌≡◌, ◌+◌, ◌-◌, ◌*◌, ◌≤◌, ◌-ℤ◌, IfOk, length};
ghost use Rattle.wrapped_gradient.specs.Rows.{AreDifferences, AreInRows, of_down_edges, of_right_edges};

use raster_model::{Scene, Sheet, Terms, Window, wrapped_ramp};
use std::alloc::{AllocError, Global};
use std::marker::Model;

/// The wrapped differences of the edges of a window, in units of 1/65536 cycle. Places count in the raster.
#[derive(Drop)]
pub struct Gradients {
    window: Window,
    terms: Terms,
    /// Of the right edges, in row order of first pixels, less the slope of the ramp.
    right: Vec<i16>,
    /// Of the down edges, in row order of first pixels, less the slope of the ramp.
    down: Vec<i16>,
}

impl Model for Gradients {
    ghost use Rattle.raster_model.specs.Tiles.{IsRasterWindow};
    ghost use Rattle.std.specs.Prelude.{◌≡◌, ◌*◌};
    ghost use Rattle.wrapped_gradient.specs.GradientsView.{GradientsView};
    ghost use Rattle.wrapped_gradient.specs.Windows.{HaveShapeOf};

    ghost Value = { GradientsView };

    ghost view = { λ g. record { window = g.window; terms = g.terms; right = g.right.items; down = g.down.items } };

    ghost invariant = { λ g. IsRasterWindow g.window × HaveShapeOf g.window g.right.items g.down.items };
}

impl Gradients {
    ghost use Rattle.raster_model.specs.Raster.{residue as residue_of};
    ghost use Rattle.raster_model.specs.Sums.{down_edge, right_edge};
    ghost use Rattle.std.specs.Prelude.{
      ℕ,
      ◌<◌,
      ◌≤◌,
      ◌+ℤ◌,
      ◌-ℤ◌,
      ◌≤ℤ◌,
      IfNone,
      IfSome,
      pos,
      unsigned_abs,
    };
    ghost use Rattle.wrapped_gradient.specs.Gradients.{
      AreGradientsOf,
      HasNoResidue,
      HaveResiduesOf,
      IsFirstResidue,
      gradient_at,
      residue_at,
    };
    ghost use Rattle.wrapped_gradient.specs.Windows.{round};

    /// The wrapped differences of a scene over a window of its raster.
    pub fn of(alloc: Global, scene: &Scene, window: Window) -> Result<Gradients, AllocError>
        requires { IsWindowIn scene.now.phase.width scene.now.phase.height window }
        ensures window { IfOk result (λ made. made.window ≡ window) }
        ensures terms { IfOk result (λ made. made.terms ≡ scene.now.terms) }
        ensures differences { IfOk result (λ made. AreGradientsOf (raster_of scene.now) made) }
        ensures residues { IfOk result (λ made. HaveResiduesOf (raster_of scene.now) made) }
    {
        Gradients::over(alloc, &scene.sheet(), window)
    }

    /// The wrapped differences of a sheet over a window of its raster.
    pub fn over(alloc: Global, sheet: &Sheet, window: Window) -> Result<Gradients, AllocError>
        requires { IsWindowIn sheet.now.phase.now.width sheet.now.phase.now.height window }
        ensures window { IfOk result (λ made. made.window ≡ window) }
        ensures terms { IfOk result (λ made. made.terms ≡ sheet.now.terms) }
        ensures differences { IfOk result (λ made. AreGradientsOf (sheet_raster sheet.now) made) }
        ensures residues { IfOk result (λ made. HaveResiduesOf (sheet_raster sheet.now) made) }
    {
        Ok(Gradients {
            window,
            terms: sheet.terms,
            right: right_differences(alloc, sheet, window)?,
            down: down_differences(alloc, sheet, window)?,
        })
    }

    /// The window that they were made for.
    pub fn window(&self) -> Window
        ensures value { result ≡ self.now.window }
        ensures window { IsRasterWindow result }
    {
        self.window
    }

    /// The wrapped difference from the pixel (`x`, `y`) to its right neighbour.
    pub fn right(&self, x: u32, y: u32) -> i32
        requires across { (self.now.window.x0 ≤ x) × (x < self.now.window.x1) }
        requires along { (self.now.window.y0 ≤ y) × (y ≤ self.now.window.y1) }
        ensures value { result ≡ gradient_at self.now (right_edge x y) }
        ensures low { (self.now.terms.ramp_x -ℤ pos 32768) ≤ℤ result }
        ensures high { result ≤ℤ (self.now.terms.ramp_x +ℤ pos 32767) }
    {
        let window = self.window;
        let across = (window.x1 - window.x0) as usize;
        let place = (y - window.y0) as usize * across + (x - window.x0) as usize;
        self.terms.ramp_x + i32::from(self.right[place])
    }

    /// The wrapped difference from the pixel (`x`, `y`) to its lower neighbour.
    pub fn down(&self, x: u32, y: u32) -> i32
        requires across { (self.now.window.x0 ≤ x) × (x ≤ self.now.window.x1) }
        requires along { (self.now.window.y0 ≤ y) × (y < self.now.window.y1) }
        ensures value { result ≡ gradient_at self.now (down_edge x y) }
        ensures low { (self.now.terms.ramp_y -ℤ pos 32768) ≤ℤ result }
        ensures high { result ≤ℤ (self.now.terms.ramp_y +ℤ pos 32767) }
    {
        self.terms.ramp_y + i32::from(self.down[self.window.place(x, y)])
    }

    /// The residue of the cell with the upper left corner (`x`, `y`), in cycles: -1, 0 or 1. It is the sum
    /// of the wrapped differences along the cell's top and right sides, minus those along its bottom and left
    /// sides. (Goldstein, Zebker and Werner 1988.)
    pub fn residue(&self, x: u32, y: u32) -> i8
        requires across { (self.now.window.x0 ≤ x) × (x < self.now.window.x1) }
        requires along { (self.now.window.y0 ≤ y) × (y < self.now.window.y1) }
        ensures value { result ≡ residue_at self.now x y }
        ensures small { unsigned_abs result ≤ 1 }
        ensures sum { unsigned_abs (round (gradient_at self.now) x y) ≤ 131070 }
    {
        // The window lies in a raster, so the right and the lower neighbour have numbers.
        let _ = &self.window;
        let top = self.right(x, y);
        let right = self.down(x + 1, y);
        let bottom = self.right(x, y + 1);
        let left = self.down(x, y);
        ((top + right - bottom - left) / 65536) as i8
    }

    /// The first cell in row order whose residue is not 0, by its upper left corner.
    pub fn first_residue(&self) -> Option<(u32, u32)>
        ensures found { IfSome result (λ cell. IsFirstResidue self.now cell.0 cell.1) }
        ensures none { IfNone result (HasNoResidue self.now) }
    {
        let window = self.window();
        for y in window.y0..window.y1 {
            for x in window.x0..window.x1 {
                if self.residue(x, y) != 0 {
                    return Some((x, y));
                }
            }
        }
        None
    }
}

/// The wrapped differences of the window's right edges, less their slope.
fn right_differences(alloc: Global, sheet: &Sheet, window: Window) -> Result<Vec<i16>, AllocError>
    requires { IsWindowIn sheet.now.phase.now.width sheet.now.phase.now.height window }
    ensures { IfOk result (λ list. AreInRows (of_right_edges (sheet_raster sheet.now)) window.x0 window.y0 (width_of window - 1) ((width_of window - 1) * height_of window) list.items) }
{
    let across = (window.x1 - window.x0) as usize;
    let along = (window.y1 - window.y0) as usize + 1;
    let width = sheet.phase.width as usize;
    let samples: &[u16] = &sheet.phase.samples;
    let mut list = vec![in alloc; 0; across * along]?;
    for y in window.y0..window.y1 + 1 {
        let first = y as usize * width + window.x0 as usize;
        let from = &samples[first..first + across];
        let to = &samples[first + 1..first + 1 + across];
        let start = (y - window.y0) as usize * across;
        set_differences(from, to, sheet.terms.ramp_x, &mut list, start);
    }
    Ok(list)
}

/// The wrapped differences of the window's down edges, less their slope.
fn down_differences(alloc: Global, sheet: &Sheet, window: Window) -> Result<Vec<i16>, AllocError>
    requires { IsWindowIn sheet.now.phase.now.width sheet.now.phase.now.height window }
    ensures { IfOk result (λ list. AreInRows (of_down_edges (sheet_raster sheet.now)) window.x0 window.y0 (width_of window) (width_of window * (height_of window - 1)) list.items) }
{
    let across = (window.x1 - window.x0) as usize + 1;
    let along = (window.y1 - window.y0) as usize;
    let width = sheet.phase.width as usize;
    let samples: &[u16] = &sheet.phase.samples;
    let mut list = vec![in alloc; 0; across * along]?;
    for y in window.y0..window.y1 {
        let first = y as usize * width + window.x0 as usize;
        let from = &samples[first..first + across];
        let to = &samples[first + width..first + width + across];
        let start = (y - window.y0) as usize * across;
        set_differences(from, to, sheet.terms.ramp_y, &mut list, start);
    }
    Ok(list)
}

/// Sets the numbers of a list from `start` on: the wrapped differences of the phases at the same places of two slices,
/// less the slope.
fn set_differences(from: &[u16], to: &[u16], slope: i32, list: &mut [i16], start: usize)
    requires slope { IsSlope slope }
    requires counts { length to.now ≡ length from.now }
    requires room { start + length from.now ≤ length list.old }
    ensures { AreDifferences slope from.now to.now start (length from.now) list.old list.new }
{
    for place in 0..from.len() {
        list[start + place] = difference(from[place], to[place], slope);
    }
}

/// The wrapped difference of two phases around a slope, less the slope.
fn difference(from: u16, to: u16, slope: i32) -> i16
    requires { IsSlope slope }
    ensures { result ≡ wrapped_by slope from to -ℤ slope }
{
    (wrapped_ramp(from, to, slope) - slope) as i16
}
