use crate::layout::Layout;
use crate::places::{NONE, number};
use std::alloc::{AllocError, Global};

/// An edge with open ends that a seam passes on its way from one cell to the next, right of it or below. A cell is named by the
/// pixel above and left of it, whose column or row may be -1.
#[derive(Clone, Copy)]
pub(crate) struct Passage {
    /// The joint of which the edge is a part, and whether that begins at the one cell, and ends at the other.
    pub(crate) joint: u32,
    pub(crate) is_first: bool,
    pub(crate) is_last: bool,
    pub(crate) from: (u32, u32),
    pub(crate) to: (u32, u32),
}

/// Who is told of each edge that seams pass.
pub(crate) trait Companion {
    /// A row of pixels begins.
    fn start_row(&mut self, layout: Layout<'_>, y: u32) -> Result<(), AllocError>;

    fn pass(&mut self, layout: Layout<'_>, passage: Passage) -> Result<(), AllocError>;
}

/// A walk over the seam edges of a raster in edge order. A seam goes on in the same joint where it goes straight through a cell:
/// two tiles meet in its four pixels, and all are open.
#[derive(Drop)]
struct Walk {
    /// How many joints have begun.
    joints: u32,
    /// The joint of each seam edge, or `NONE`.
    joint_of: Vec<u32>,
    /// For each column of tiles the joint on its right side that goes on at the present row of pixels, or `NONE`.
    downward: Vec<u32>,
    /// Whether the present row of pixels is the last of its tiles.
    ends_tiles: bool,
}

/// The joint of each link of a raster, or `NONE`.
pub(crate) fn joints_of<C: Companion>(
    alloc: Global,
    layout: Layout<'_>,
    companion: &mut C,
) -> Result<Vec<u32>, AllocError> {
    let across = layout.tile(layout.width.wrapping_sub(1)) as usize + 1;
    let mut walk = Walk {
        joints: 0,
        joint_of: Vec::with_capacity(alloc, layout.links())?,
        downward: vec![in alloc; NONE; across]?,
        ends_tiles: false,
    };
    for y in 0..layout.height {
        companion.start_row(layout, y)?;
        walk.ends_tiles = layout.ends_tiles(y);
        if walk.ends_tiles && y.wrapping_add(1) < layout.height {
            walk.along(layout, y, companion)?;
        } else {
            walk.across(layout, y, companion)?;
        }
    }
    Ok(walk.joint_of)
}

impl Walk {
    /// Follows the seams at a row of pixels below which a seam lies.
    fn along<C: Companion>(
        &mut self,
        layout: Layout<'_>,
        y: u32,
        companion: &mut C,
    ) -> Result<(), AllocError> {
        for column in 0..number(self.downward.len()) {
            self.pass_below(layout, column, y, companion)?;
        }
        Ok(())
    }

    /// Follows the seam below a row of pixels of a tile, and the one on the tile's right.
    fn pass_below<C: Companion>(
        &mut self,
        layout: Layout<'_>,
        column: u32,
        y: u32,
        companion: &mut C,
    ) -> Result<(), AllocError> {
        let first = column.wrapping_mul(layout.side);
        let end = first.wrapping_add(layout.side).min(layout.width);
        let mut joint = NONE;
        for x in first..end {
            let next = x.wrapping_add(1);
            if next == end {
                self.pass_right(layout, column, y, companion)?;
            }
            if joint == NONE && !layout.is_open_downward(x, y) {
                self.joint_of.push(NONE)?;
                continue;
            }
            let goes_on = next < end && layout.is_open_downward(next, y);
            let from = (x.wrapping_sub(1), y);
            joint = self.follow(layout, joint, goes_on, from, (x, y), companion)?;
        }
        Ok(())
    }

    /// Follows the seams at any other row of pixels.
    fn across<C: Companion>(
        &mut self,
        layout: Layout<'_>,
        y: u32,
        companion: &mut C,
    ) -> Result<(), AllocError> {
        for column in 0..number(self.downward.len()) {
            self.pass_right(layout, column, y, companion)?;
        }
        Ok(())
    }

    /// Follows the seam on the right of a column of tiles across a row of pixels, if there is one.
    fn pass_right<C: Companion>(
        &mut self,
        layout: Layout<'_>,
        column: u32,
        y: u32,
        companion: &mut C,
    ) -> Result<(), AllocError> {
        let right = column.wrapping_add(1).wrapping_mul(layout.side);
        let x = right.wrapping_sub(1);
        if right >= layout.width {
            return Ok(());
        }
        let column = column as usize;
        let last = self.downward.get(column).copied().unwrap_or(NONE);
        if last == NONE && !layout.is_open_to_right(x, y) {
            self.joint_of.push(NONE)?;
            return Ok(());
        }
        let goes_on = !self.ends_tiles && layout.is_open_to_right(x, y.wrapping_add(1));
        let from = (x, y.wrapping_sub(1));
        let joint = self.follow(layout, last, goes_on, from, (x, y), companion)?;
        if let Some(held) = self.downward.get_mut(column) {
            *held = joint;
        }
        Ok(())
    }

    /// Follows a seam across an edge from one cell to the next, as a part of the last joint or, if that is `NONE`, as the begin
    /// of a new one. Answers the joint if it goes on at the next edge, and `NONE` otherwise.
    fn follow<C: Companion>(
        &mut self,
        layout: Layout<'_>,
        last: u32,
        goes_on: bool,
        from: (u32, u32),
        to: (u32, u32),
        companion: &mut C,
    ) -> Result<u32, AllocError> {
        let is_first = last == NONE;
        let mut joint = last;
        if is_first {
            joint = self.joints;
            self.joints = joint.wrapping_add(1);
        }
        companion.pass(
            layout,
            Passage {
                joint,
                is_first,
                is_last: !goes_on,
                from,
                to,
            },
        )?;
        self.joint_of.push(joint)?;
        Ok(if goes_on { joint } else { NONE })
    }
}
