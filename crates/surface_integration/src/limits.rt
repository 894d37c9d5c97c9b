/// The greatest number of cycles that 32 bits keep.
pub const MAX_NARROW_CYCLES: u32 = 2_147_483_647;
