use crate::record::Record;

/// The directions out of a cell. A direction and its reverse differ in the last binary digit.
pub const RIGHT: u8 = 0;

pub const LEFT: u8 = 1;

pub const DOWN: u8 = 2;

pub const UP: u8 = 3;

/// In place of a direction: the cell is the root of a tree.
pub const ROOT: u8 = 4;

/// In place of a direction: the cell is in no tree.
pub const FREE: u8 = 5;

/// In place of a direction: the cell is a part of the outside. So is a cell with a greater number, by which a caller may
/// tell kinds of it.
pub const OUTSIDE: u8 = 6;

/// The greatest weight that a `SmallCell` holds.
pub const MOST_SMALL_WEIGHT: u16 = 255;

/// A cell with the edges between it and the cell on the right, and between it and the cell below, in this order: 16 bytes.
#[derive(Clone, Copy)]
pub struct Cell {
    /// The potential. In a tree the time is added to it.
    pub height: i32,
    /// The weights of the edges.
    pub weights: [u16; 2],
    /// What flows across each edge, to the right or down.
    pub flows: [i16; 2],
    /// What the cell has to send.
    pub excess: i16,
    /// The direction to the cell from which it joined its tree.
    pub step: u8,
}

/// The same in 8 bytes, where the numbers are small.
#[derive(Clone, Copy)]
pub struct SmallCell {
    pub height: i16,
    pub weights: [u8; 2],
    pub flows: [i8; 2],
    pub excess: i8,
    pub step: u8,
}

/// A cell of the outside with nothing set.
pub const BEYOND: Cell = Cell {
    height: 0,
    weights: [0; 2],
    flows: [0; 2],
    excess: 0,
    step: OUTSIDE,
};

/// A small cell of the outside with nothing set.
const SMALL_BEYOND: SmallCell = SmallCell {
    height: 0,
    weights: [0; 2],
    flows: [0; 2],
    excess: 0,
    step: OUTSIDE,
};

impl Record for Cell {
    const HIGHEST: i32 = 1 << 29;

    const MOST: i32 = 32_767;

    #[inline(always)]
    fn beyond() -> &'static Cell {
        &BEYOND
    }

    #[inline(always)]
    fn of(weights: [u16; 2], excess: i16, step: u8) -> Cell {
        Cell {
            height: 0,
            weights,
            flows: [0; 2],
            excess,
            step,
        }
    }

    #[inline(always)]
    fn height(&self) -> i32 {
        self.height
    }

    #[inline(always)]
    fn set_height(&mut self, height: i32) {
        self.height = height;
    }

    #[inline(always)]
    fn weight(&self, place: usize) -> i32 {
        i32::from(self.weights.get(place).copied().unwrap_or(0))
    }

    #[inline(always)]
    fn flow(&self, place: usize) -> i32 {
        i32::from(self.flows.get(place).copied().unwrap_or(0))
    }

    #[inline(always)]
    fn set_flow(&mut self, place: usize, flow: i32) {
        if let Some(held) = self.flows.get_mut(place) {
            *held = i16::try_from(flow).unwrap_or(*held);
        }
    }

    #[inline(always)]
    fn excess(&self) -> i32 {
        i32::from(self.excess)
    }

    #[inline(always)]
    fn set_excess(&mut self, excess: i32) {
        self.excess = i16::try_from(excess).unwrap_or(self.excess);
    }

    #[inline(always)]
    fn step(&self) -> u8 {
        self.step
    }

    #[inline(always)]
    fn set_step(&mut self, step: u8) {
        self.step = step;
    }
}

impl Record for SmallCell {
    const HIGHEST: i32 = 32_767;

    const MOST: i32 = 127;

    #[inline(always)]
    fn beyond() -> &'static SmallCell {
        &SMALL_BEYOND
    }

    #[inline(always)]
    fn of(weights: [u16; 2], excess: i16, step: u8) -> SmallCell {
        let [right, down] = weights;
        SmallCell {
            height: 0,
            weights: [
                u8::try_from(right).unwrap_or(u8::MAX),
                u8::try_from(down).unwrap_or(u8::MAX),
            ],
            flows: [0; 2],
            excess: i8::try_from(excess).unwrap_or(0),
            step,
        }
    }

    #[inline(always)]
    fn height(&self) -> i32 {
        i32::from(self.height)
    }

    #[inline(always)]
    fn set_height(&mut self, height: i32) {
        self.height = i16::try_from(height).unwrap_or(self.height);
    }

    #[inline(always)]
    fn weight(&self, place: usize) -> i32 {
        i32::from(self.weights.get(place).copied().unwrap_or(0))
    }

    #[inline(always)]
    fn flow(&self, place: usize) -> i32 {
        i32::from(self.flows.get(place).copied().unwrap_or(0))
    }

    #[inline(always)]
    fn set_flow(&mut self, place: usize, flow: i32) {
        if let Some(held) = self.flows.get_mut(place) {
            *held = i8::try_from(flow).unwrap_or(*held);
        }
    }

    #[inline(always)]
    fn excess(&self) -> i32 {
        i32::from(self.excess)
    }

    #[inline(always)]
    fn set_excess(&mut self, excess: i32) {
        self.excess = i8::try_from(excess).unwrap_or(self.excess);
    }

    #[inline(always)]
    fn step(&self) -> u8 {
        self.step
    }

    #[inline(always)]
    fn set_step(&mut self, step: u8) {
        self.step = step;
    }
}

impl SmallCell {
    /// The same cell in 16 bytes.
    pub fn widen(&self) -> Cell {
        let [right, down] = self.weights;
        let [flow_right, flow_down] = self.flows;
        Cell {
            height: i32::from(self.height),
            weights: [u16::from(right), u16::from(down)],
            flows: [i16::from(flow_right), i16::from(flow_down)],
            excess: i16::from(self.excess),
            step: self.step,
        }
    }
}
