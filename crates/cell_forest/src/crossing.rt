use crate::record::Record;

/// The edge that an arc crosses.
#[derive(Clone, Copy)]
pub struct Crossing {
    pub weight: i32,
    /// What flows along the arc, times the sign that was asked for.
    pub flow: i32,
}

/// The edge that an arc crosses, with what flows along the arc, times `SIGN`.
#[inline(always)]
pub fn crossing_of<C: Record, const SIGN: i32>(tail: &C, head: &C, direction: u8) -> Crossing {
    let ahead = direction % 2 == 0;
    let holder = if ahead { tail } else { head };
    let place = direction as usize / 2;
    let sign = if ahead { SIGN } else { SIGN.wrapping_neg() };
    Crossing {
        weight: holder.weight(place),
        flow: holder.flow(place).wrapping_mul(sign),
    }
}

impl Crossing {
    /// What one unit more costs along the arc.
    #[inline(always)]
    pub fn cost(self, steep: i32) -> i32 {
        if self.flow == 0 {
            return self.weight;
        }
        let size = if self.flow == -1 {
            self.weight
        } else {
            self.weight.wrapping_mul(steep)
        };
        if self.flow < 0 {
            size.wrapping_neg()
        } else {
            size
        }
    }

    /// How many units can be sent along the arc at the cost of the first, where at most `most` may flow.
    pub fn room(self, steep: i32, most: i32) -> i32 {
        let fitting = most.wrapping_sub(self.flow);
        if self.weight == 0 || self.flow > 0 {
            return fitting;
        }
        if steep == 1 {
            return if self.flow == 0 {
                fitting
            } else {
                self.flow.wrapping_neg()
            };
        }
        self.flow.wrapping_add(1).wrapping_neg().max(1)
    }
}

/// Adds to what flows along an arc, times `SIGN`, or leaves it as it is if it would not fit. The result is whether it fits.
pub fn push<C: Record, const SIGN: i32>(
    cells: &mut [C],
    tail: u32,
    head: u32,
    direction: u8,
    amount: i32,
) -> bool {
    let ahead = direction % 2 == 0;
    let holder = if ahead { tail } else { head };
    let added = amount.wrapping_mul(if ahead { SIGN } else { SIGN.wrapping_neg() });
    let Some(cell) = cells.get_mut(holder as usize) else {
        return true;
    };
    let place = direction as usize / 2;
    let flow = cell.flow(place).wrapping_add(added);
    let fits = flow.unsigned_abs() <= C::MOST.unsigned_abs();
    if fits {
        cell.set_flow(place, flow);
    }
    fits
}
