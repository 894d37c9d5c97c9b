use crate::joints::{Joint, joint_from};
use crate::layout::{Layout, are_open};
use crate::places::{NONE, OUTSIDE};
use crate::spots::{Reach, Spots};
use crate::walking::{Companion, Passage, joints_of};
use std::alloc::{AllocError, Global};

/// The nodes and joints of a raster, as they are found row by row.
#[derive(Drop)]
pub(crate) struct Traced {
    pub(crate) spots: Spots,
    pub(crate) joints: Vec<Joint>,
    /// The nodes of the cells above and below the present row of pixels, or `NONE`: first those of even rows, then those of odd ones,
    /// each with a cell left of the raster in front.
    cells: Vec<u32>,
    /// The column of tiles of each column of pixels, and of one more.
    columns: Vec<u16>,
}

/// A row of pixels with masked ones.
#[derive(Clone, Copy)]
struct Row<'a> {
    /// The regions of its pixels, and of those below.
    labels: &'a [u32],
    lower: &'a [u32],
    /// The places of the first cell above it and of the first below.
    above: usize,
    below: usize,
    /// The rows of tiles of the rows of pixels above and below.
    top: u16,
    bottom: u16,
}

/// Finds the nodes and joints of a raster, and the joint of each link, or `NONE`.
pub(crate) fn trace(alloc: Global, layout: Layout<'_>) -> Result<(Traced, Vec<u32>), AllocError> {
    let across = layout.tile(layout.width.wrapping_sub(1)) as usize + 1;
    let along = layout.tile(layout.height.wrapping_sub(1)) as usize + 1;
    let mut traced = Traced {
        spots: Spots::new(alloc)?,
        joints: Vec::with_capacity(
            alloc,
            layout
                .links()
                .min(across.wrapping_mul(along).wrapping_mul(2)),
        )?,
        cells: vec![in alloc; OUTSIDE; (layout.width as usize + 1) * 2]?,
        columns: columns(alloc, layout)?,
    };
    let joint_of = joints_of(alloc, layout, &mut traced)?;
    Ok((traced, joint_of))
}

/// The column of tiles of each column of pixels, and of one more.
fn columns(alloc: Global, layout: Layout<'_>) -> Result<Vec<u16>, AllocError> {
    let mut columns = Vec::with_capacity(alloc, layout.width as usize + 1)?;
    for x in 0..=layout.width {
        columns.push(layout.short_tile(x))?;
    }
    Ok(columns)
}

/// The joint of each link of a raster, or `NONE`, found once more.
pub fn trace_again(alloc: Global, layout: Layout<'_>) -> Result<Vec<u32>, AllocError> {
    joints_of(alloc, layout, &mut Nobody)
}

/// A companion who needs to be told nothing.
#[derive(Drop)]
struct Nobody;

impl Companion for Nobody {
    fn start_row(&mut self, _layout: Layout<'_>, _y: u32) -> Result<(), AllocError> {
        Ok(())
    }

    fn pass(&mut self, _layout: Layout<'_>, _passage: Passage) -> Result<(), AllocError> {
        Ok(())
    }
}

impl Companion for Traced {
    /// Forgets the nodes of the row of cells before the last, for those below a row of pixels, and joins the cells around its masked
    /// pixels.
    fn start_row(&mut self, layout: Layout<'_>, y: u32) -> Result<(), AllocError> {
        let is_last = y.wrapping_add(1) == layout.height;
        let first = Traced::place(layout, 0, y);
        let end = first.wrapping_add(layout.width as usize);
        let cells: &mut [u32] = &mut self.cells;
        if let Some(row) = cells.get_mut(first..end) {
            row.fill(if is_last { OUTSIDE } else { NONE });
        }
        self.set_cell(layout, layout.width.wrapping_sub(1), y, OUTSIDE);
        self.join_row(layout, y)
    }

    /// Begins or ends a joint at the nodes where an edge begins or ends it.
    fn pass(&mut self, layout: Layout<'_>, passage: Passage) -> Result<(), AllocError> {
        let ((from_x, from_y), (to_x, to_y)) = (passage.from, passage.to);
        if passage.is_first {
            let node = self.node(layout, from_x, from_y)?;
            self.joints.push(joint_from(node))?;
        }
        if passage.is_last {
            let node = self.node(layout, to_x, to_y)?;
            if let Some(joint) = self.joints.get_mut(passage.joint as usize) {
                joint.end_at(node, from_y == to_y);
            }
        }
        Ok(())
    }
}

impl Traced {
    /// The place of a cell, right of a column of pixels and below a row, which may be -1.
    #[inline(always)]
    fn place(layout: Layout<'_>, x: u32, y: u32) -> usize {
        let row = y as usize % 2 * (layout.width as usize + 1);
        row + x.wrapping_add(1) as usize
    }

    fn cell(&self, layout: Layout<'_>, x: u32, y: u32) -> u32 {
        self.cell_at(Traced::place(layout, x, y))
    }

    fn set_cell(&mut self, layout: Layout<'_>, x: u32, y: u32, node: u32) {
        let place = Traced::place(layout, x, y);
        if let Some(cell) = self.cells.get_mut(place) {
            *cell = node;
        }
    }

    /// Joins the cells around each masked pixel of a row.
    fn join_row(&mut self, layout: Layout<'_>, y: u32) -> Result<(), AllocError> {
        let row = Row {
            labels: layout.row(y),
            lower: layout.row(y.wrapping_add(1)),
            above: Traced::place(layout, u32::MAX, y.wrapping_sub(1)),
            below: Traced::place(layout, u32::MAX, y),
            top: layout.short_tile(y.saturating_sub(1)),
            bottom: layout.short_tile(y.saturating_add(1)),
        };
        if are_open(row.labels) {
            return Ok(());
        }
        let mut x: usize = 0;
        for label in row.labels {
            if *label == NONE {
                self.join_around(row, x)?;
            }
            x = x.wrapping_add(1);
        }
        Ok(())
    }

    /// Joins the four cells around a masked pixel to one node: edges with a masked end cost nothing. A pixel that stands alone
    /// within a tile makes none, since no seam comes there.
    fn join_around(&mut self, row: Row<'_>, x: usize) -> Result<(), AllocError> {
        let next = x.wrapping_add(1);
        let reach = Reach {
            left: self.column(x.saturating_sub(1)),
            right: self.column(next),
            top: row.top,
            bottom: row.bottom,
        };
        let places = [
            row.above.wrapping_add(x),
            row.above.wrapping_add(next),
            row.below.wrapping_add(x),
            row.below.wrapping_add(next),
        ];
        let mut node = self.united(places);
        if node != NONE {
            self.spots.widen(node, reach);
        } else if reach.is_one_tile() && row.is_open_after(x) {
            return Ok(());
        } else {
            node = self.spots.add(reach)?;
        }
        for place in places {
            if let Some(cell) = self.cells.get_mut(place) {
                *cell = node;
            }
        }
        Ok(())
    }

    /// The column of tiles of a column of pixels.
    #[inline(always)]
    fn column(&self, x: usize) -> u16 {
        self.columns.get(x).copied().unwrap_or(u16::MAX)
    }

    #[inline(always)]
    fn cell_at(&self, place: usize) -> u32 {
        self.cells.get(place).copied().unwrap_or(OUTSIDE)
    }

    /// Makes the nodes of four cells one, and answers it, or `NONE` if they have none.
    fn united(&mut self, places: [usize; 4]) -> u32 {
        let [first, second, third, fourth] = places;
        let (first, second) = (self.cell_at(first), self.cell_at(second));
        let (third, fourth) = (self.cell_at(third), self.cell_at(fourth));
        let least = first.min(second).min(third).min(fourth);
        if is_or_none(first, least)
            && is_or_none(second, least)
            && is_or_none(third, least)
            && is_or_none(fourth, least)
        {
            return least;
        }
        let upper = self.spots.unite(first, second);
        let lower = self.spots.unite(third, fourth);
        self.spots.unite(upper, lower)
    }

    /// The node of a cell, which is added if there is none.
    fn node(&mut self, layout: Layout<'_>, x: u32, y: u32) -> Result<u32, AllocError> {
        let found = self.cell(layout, x, y);
        if found != NONE {
            return Ok(found);
        }
        let node = self.spots.add(Reach {
            left: layout.short_tile(x),
            right: layout.short_tile(x.saturating_add(1)),
            top: layout.short_tile(y),
            bottom: layout.short_tile(y.saturating_add(1)),
        })?;
        self.set_cell(layout, x, y, node);
        Ok(node)
    }
}

impl Row<'_> {
    /// Whether the pixel after a masked one and the three below it are open.
    fn is_open_after(&self, x: usize) -> bool {
        let (last, next) = (x.wrapping_sub(1), x.wrapping_add(1));
        is_open_at(self.labels, next)
            && is_open_at(self.lower, last)
            && is_open_at(self.lower, x)
            && is_open_at(self.lower, next)
    }
}

/// Whether a row has an open pixel at a place.
#[inline(always)]
fn is_open_at(labels: &[u32], x: usize) -> bool {
    match labels.get(x) {
        Some(label) => *label != NONE,
        None => false,
    }
}

/// Whether a cell's node is this one, or it has none.
#[inline(always)]
fn is_or_none(cell: u32, node: u32) -> bool {
    cell == node || cell == NONE
}
