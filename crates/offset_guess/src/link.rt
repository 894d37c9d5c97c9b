/// A seam edge with open ends, as it joins two regions.
#[derive(Clone, Copy)]
pub struct Link {
    /// The region of the edge's first pixel.
    pub from: u32,
    /// The region of the other.
    pub to: u32,
    /// By how many whole cycles the surface of the tiles' results departs there.
    pub departure: i32,
    /// The edge's weight.
    pub weight: u16,
}
