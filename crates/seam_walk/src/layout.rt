use crate::places::NONE;

/// Where the regions of a tiled raster lie.
#[derive(Clone, Copy)]
pub struct Layout<'a> {
    /// How many pixels a row has, and how many rows there are.
    pub width: u32,
    pub height: u32,
    /// The side of a tile in pixels.
    pub side: u32,
    /// The region of each pixel in row order, or `u32::MAX` if it is masked.
    pub labels: &'a [u32],
}

impl<'a> Layout<'a> {
    /// The regions of a row of pixels.
    pub(crate) fn row(&self, y: u32) -> &'a [u32] {
        let width = self.width as usize;
        let first = y as usize * width;
        self.labels.get(first..first + width).unwrap_or(&[])
    }

    /// Whether a pixel is open.
    #[inline(always)]
    fn is_open(&self, x: u32, y: u32) -> bool {
        let place = y as usize * self.width as usize + x as usize;
        match self.labels.get(place) {
            Some(label) => *label != NONE,
            None => false,
        }
    }

    /// Whether a pixel and the one right of it are open.
    #[inline(always)]
    pub(crate) fn is_open_to_right(&self, x: u32, y: u32) -> bool {
        self.is_open(x, y) && self.is_open(x.wrapping_add(1), y)
    }

    /// Whether a pixel and the one below it are open.
    #[inline(always)]
    pub(crate) fn is_open_downward(&self, x: u32, y: u32) -> bool {
        self.is_open(x, y) && self.is_open(x, y.wrapping_add(1))
    }

    /// The column of tiles of a column of pixels, or the row of tiles of a row of pixels.
    pub(crate) fn tile(&self, pixel: u32) -> u32 {
        if self.side == 0 { 0 } else { pixel / self.side }
    }

    /// The same in 16 binary digits: a raster of 4,096 columns or rows has 2,048 of tiles at most.
    pub(crate) fn short_tile(&self, pixel: u32) -> u16 {
        u16::try_from(self.tile(pixel)).unwrap_or(u16::MAX)
    }

    /// How many seam edges there are, and so links.
    pub(crate) fn links(&self) -> usize {
        let down = self.tile(self.width.wrapping_sub(1)) as usize;
        let level = self.tile(self.height.wrapping_sub(1)) as usize;
        let right = down.wrapping_mul(self.height as usize);
        right.wrapping_add(level.wrapping_mul(self.width as usize))
    }

    /// Whether the next row of pixels lies in other tiles, or outside.
    pub(crate) fn ends_tiles(&self, y: u32) -> bool {
        let below = y.wrapping_add(1);
        below >= self.height || self.side != 0 && below % self.side == 0
    }
}

/// Whether all pixels with these regions are open.
pub(crate) fn are_open(labels: &[u32]) -> bool {
    let mut masked = false;
    for label in labels {
        masked |= *label == NONE;
    }
    !masked
}
