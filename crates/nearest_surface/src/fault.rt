/// Why there is no nearest surface. If several apply, the first variant is returned.
#[derive(Clone, Copy, Debug, PartialEq, Eq)]
pub enum NearestFault {
    /// The given grid has another size than the phase.
    Sizes,
    /// No value is given at an open pixel: the first such pixel.
    Missing {
        /// The pixel's column.
        x: u32,
        /// The pixel's row.
        y: u32,
    },
    /// The nearest value at an open pixel does not fit 64 bits, or is the NODATA value: the first such pixel.
    Wide {
        /// The pixel's column.
        x: u32,
        /// The pixel's row.
        y: u32,
    },
}
