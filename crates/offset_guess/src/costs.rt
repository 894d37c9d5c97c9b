use crate::link::Link;
use crate::network::Network;
use crate::spans::Spans;
use crate::steps::{NO_STEP, Step};
use std::alloc::{AllocError, Global};
use std::ops::Range;

impl Network {
    /// Gives each joint the steps that its links make.
    pub(crate) fn make_steps(
        &mut self,
        alloc: Global,
        joint_of: &[u32],
        links: &[Option<Link>],
        steep: u32,
    ) -> Result<(), AllocError> {
        let mut counts = vec![in alloc; 0; self.joints.len()]?;
        self.count_steps(&mut counts, joint_of, links, steep);
        self.spans = Spans::of(alloc, &counts)?;
        self.steps = vec![in alloc; NO_STEP; self.spans.count as usize]?;
        self.add_links(links, joint_of, steep);
        self.settle_steps(&mut counts);
        self.spans = Spans::of(alloc, &counts)?;
        Ok(())
    }

    /// Counts the steps for which each joint has room: one for each link whose rise is not that of the joint's link before, and
    /// two more if costs are steep.
    fn count_steps(
        &mut self,
        counts: &mut [u16],
        joint_of: &[u32],
        links: &[Option<Link>],
        steep: u32,
    ) {
        let each = if steep > 1 { 3 } else { 1 };
        for (link, joint) in links.iter().zip(joint_of) {
            let (place, Some(link)) = (*joint as usize, link) else {
                continue;
            };
            if let (Some(joint), Some(count)) = (
                self.joints.get_mut(place),
                counts.get_mut(place),
            ) {
                let rise = link.departure.wrapping_neg();
                if *count == 0 || joint.rise != rise {
                    *count = count.wrapping_add(each);
                    joint.rise = rise;
                }
            }
        }
    }

    /// Adds what each link costs to its joint. A cycle from where it departs nowhere costs its weight, up or down, and each
    /// further one the steepness times that.
    fn add_links(&mut self, links: &[Option<Link>], joint_of: &[u32], steep: u32) {
        for (link, joint) in links.iter().zip(joint_of) {
            if let Some(link) = link {
                let rise = link.departure.wrapping_neg();
                let weight = i32::from(link.weight);
                self.add_step(*joint, rise, weight.wrapping_mul(2));
                if steep > 1 {
                    let more = weight.wrapping_mul(steep.wrapping_sub(1).cast_signed());
                    self.add_step(*joint, rise.wrapping_add(1), more);
                    self.add_step(*joint, rise.wrapping_sub(1), more);
                }
            }
        }
    }

    /// Adds a step to a joint, or to that of the same rise if there is one. Steps lie in the order of their rises, before the room
    /// that is left.
    fn add_step(&mut self, joint: u32, rise: i32, cost: i32) {
        let mut carried = Step { rise, cost };
        for place in self.places(joint) {
            let Some(step) = self.steps.get_mut(place as usize) else {
                return;
            };
            let held = *step;
            if held.cost == 0 {
                *step = carried;
                return;
            }
            if held.rise == carried.rise {
                step.cost = held.cost.wrapping_add(carried.cost);
                return;
            }
            if held.rise > carried.rise {
                *step = carried;
                carried = held;
            }
        }
    }

    /// Gives back the room that no step has taken, counts the steps, and notes with each what a cycle costs from there on.
    fn settle_steps(&mut self, counts: &mut [u16]) {
        let mut kept: u32 = 0;
        let mut joint = 0;
        for count in counts {
            let places = self.places(joint);
            *count = self.settle(places, kept);
            kept = kept.wrapping_add(u32::from(*count));
            joint = joint.wrapping_add(1);
        }
        self.steps.truncate(kept as usize);
        self.steps.shrink_to_fit();
    }

    /// Moves the steps of a joint down to a place, and answers how many there are.
    fn settle(&mut self, places: Range<u32>, first: u32) -> u16 {
        let mut cost = self.total(places.start, places.end).wrapping_neg() / 2;
        let mut count: u16 = 0;
        for place in places.start..places.end {
            let Step { rise, cost: more } = self.step(place);
            if more == 0 {
                break;
            }
            cost = cost.wrapping_add(more);
            let target = first.wrapping_add(u32::from(count));
            if let Some(step) = self.steps.get_mut(target as usize) {
                *step = Step { rise, cost };
            }
            count = count.wrapping_add(1);
        }
        count
    }

    /// What the steps at these places add: twice what a cycle costs far below or above.
    fn total(&self, first: u32, end: u32) -> i32 {
        let mut total: i32 = 0;
        for place in first..end {
            total = total.wrapping_add(self.step(place).cost);
        }
        total
    }

    /// The places of a joint's steps.
    #[inline(always)]
    fn places(&self, joint: u32) -> Range<u32> {
        self.spans.places(joint)
    }

    /// Puts a joint at the rise at which its links cost least, and notes what flows so.
    pub(crate) fn start(&mut self, joint: u32) {
        let mut least = 0;
        for place in self.places(joint) {
            let step = self.step(place);
            least = step.rise;
            if step.cost >= 0 {
                break;
            }
        }
        if let Some(joint) = self.joints.get_mut(joint as usize) {
            joint.rise = least;
        }
        let held = self.joint(joint);
        self.add_excess(held.head, least);
        self.add_excess(held.tail, least.wrapping_neg());
    }

    /// The place of the first step of a joint that is not below a rise, or that after its last.
    #[inline(always)]
    fn place_of(&self, places: &Range<u32>, rise: i32) -> u32 {
        for place in places.start..places.end {
            if self.step(place).rise >= rise {
                return place;
            }
        }
        places.end
    }

    /// What a unit costs along an arc.
    #[inline(always)]
    pub(crate) fn cost(&self, arc: u32) -> i32 {
        let places = self.places(arc / 2);
        let rise = self.joint(arc / 2).rise;
        if arc % 2 == 0 {
            self.cost_below(&places, rise.wrapping_add(1))
        } else {
            self.cost_below(&places, rise).wrapping_neg()
        }
    }

    /// What the cycle costs that leads up to a rise. Below the first step it costs as much as above the last, with the sign turned.
    #[inline(always)]
    fn cost_below(&self, places: &Range<u32>, rise: i32) -> i32 {
        let place = self.place_of(places, rise);
        if place > places.start {
            self.step(place.wrapping_sub(1)).cost
        } else if places.end > places.start {
            self.step(places.end.wrapping_sub(1)).cost.wrapping_neg()
        } else {
            0
        }
    }

    /// How many units flow along an arc at this cost.
    pub(crate) fn room(&self, arc: u32) -> i32 {
        let places = self.places(arc / 2);
        let rise = self.joint(arc / 2).rise;
        if arc % 2 == 0 {
            let place = self.place_of(&places, rise.wrapping_add(1));
            if place < places.end {
                return self.step(place).rise.wrapping_sub(rise);
            }
        } else {
            let place = self.place_of(&places, rise);
            if place > places.start {
                return rise.wrapping_sub(self.step(place.wrapping_sub(1)).rise);
            }
        }
        i32::MAX
    }

    /// Lets an amount flow along an arc, which has room for it.
    pub(crate) fn push(&mut self, arc: u32, amount: i32) {
        if let Some(joint) = self.joints.get_mut(arc as usize / 2) {
            joint.rise = if arc % 2 == 0 {
                joint.rise.wrapping_add(amount)
            } else {
                joint.rise.wrapping_sub(amount)
            };
        }
    }
}
