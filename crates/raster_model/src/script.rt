/// A box of pixels, both corners included.
#[derive(Clone, Copy, Debug, PartialEq, Eq)]
pub struct Rect {
    pub x0: u32,
    pub y0: u32,
    pub x1: u32,
    pub y1: u32,
}

/// A change of the mask.
#[derive(Clone, Copy, Debug, PartialEq, Eq)]
pub enum Edit {
    /// Masks the pixels of a box.
    Mask(Rect),
    /// Opens them.
    Unmask(Rect),
}

/// A line of an analyst's script.
#[derive(Clone, Copy, Debug, PartialEq, Eq)]
pub enum Command {
    /// Change the mask.
    Change(Edit),
    /// Have the present revision solved and published.
    Settle,
    /// Look at the newest published revision.
    Show,
}

/// The commands of one analyst, in order.
#[derive(Drop)]
pub struct Script {
    pub commands: Vec<Command>,
}
