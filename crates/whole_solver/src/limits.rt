/// The greatest absolute number of cycles of a surface whose first pixel has 0. The difference of two such is no more than what a
/// pixel may have.
pub const MAX_UNMOVED_CYCLES: u64 = 1 << 45;
