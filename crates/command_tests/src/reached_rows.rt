use crate::whole_rows::trial;
use raster_model::{Mask, Scene, Session, wrapped};
use std::alloc::Global;
use std::process::Abort;
use std::thread::Threads;
use whole_guess::{Guess, Reached, guess_whole_within};

/// What a guess has reached on a raster.
#[derive(Drop)]
struct Place<'a> {
    scene: &'a Scene,
    mask: &'a Mask,
    reached: &'a Reached,
    width: u32,
    height: u32,
}

/// A number of a list, or 0 if there is none.
fn at<T: Copy + Default>(list: &[T], row: u32, across: u32, column: u32) -> T {
    let place = row.wrapping_mul(across).wrapping_add(column);
    list.get(place as usize).copied().unwrap_or_default()
}

/// Whether a face that falls so far across an edge of this weight fits what flows across it.
fn fits(weight: u16, flow: i32, fall: i64) -> bool {
    let weight = i64::from(weight);
    let whole = weight.wrapping_mul(i64::from(flow.signum()));
    fall.unsigned_abs() <= weight.unsigned_abs() && (flow == 0 || fall == whole)
}

impl Place<'_> {
    /// The face of the cell whose lower right corner a pixel is, or 0 if that is outside.
    fn face(&self, x: u32, y: u32) -> i64 {
        if x == 0 || y == 0 || x >= self.width || y >= self.height {
            return 0;
        }
        let across = self.width.wrapping_sub(1);
        at(
            &self.reached.faces,
            y.wrapping_sub(1),
            across,
            x.wrapping_sub(1),
        )
    }

    /// The weight of an edge that ends at a pixel, or 0 if an end is masked.
    fn opened(&self, weight: u16, x: u32, y: u32, down: bool) -> u16 {
        let (from_x, from_y) = if down {
            (x, y.wrapping_sub(1))
        } else {
            (x.wrapping_sub(1), y)
        };
        if self.is_open(x, y) && self.is_open(from_x, from_y) {
            weight
        } else {
            0
        }
    }

    fn is_open(&self, x: u32, y: u32) -> bool {
        x < self.mask.width() && y < self.mask.height() && self.mask.is_open(x, y)
    }

    /// What flows across the right edge that ends at a pixel.
    fn right(&self, x: u32, y: u32) -> i32 {
        at(
            &self.reached.right,
            y,
            self.width.wrapping_sub(1),
            x.wrapping_sub(1),
        )
    }

    /// What flows across the down edge that ends at a pixel.
    fn down(&self, x: u32, y: u32) -> i32 {
        at(&self.reached.down, y.wrapping_sub(1), self.width, x)
    }

    /// Whether the faces fit the flows across the edges that end at a pixel.
    fn is_tight(&self, x: u32, y: u32) -> bool {
        let face = self.face(x, y);
        let across = self.width.wrapping_sub(1);
        let right = at(&self.scene.edges.right, y, across, x.wrapping_sub(1));
        let right = self.opened(right, x, y, false);
        let below = self.face(x, y.wrapping_add(1));
        let down = at(&self.scene.edges.down, y.wrapping_sub(1), self.width, x);
        let down = self.opened(down, x, y, true);
        let beside = self.face(x.wrapping_add(1), y);
        (x == 0 || fits(right, self.right(x, y), face.wrapping_sub(below)))
            && (y == 0 || fits(down, self.down(x, y), beside.wrapping_sub(face)))
    }

    /// The wrapped difference between two pixels.
    fn rise(&self, from: (u32, u32), to: (u32, u32)) -> i32 {
        let samples = &self.scene.phase.samples;
        let (from, to) = (
            at(samples, from.1, self.width, from.0),
            at(samples, to.1, self.width, to.0),
        );
        wrapped(from, to)
    }

    /// What the cell whose lower right corner a pixel is has to send yet.
    fn left(&self, x: u32, y: u32) -> i32 {
        let (left, above) = (x.wrapping_sub(1), y.wrapping_sub(1));
        let round = self
            .rise((left, above), (x, above))
            .wrapping_add(self.rise((x, above), (x, y)))
            .wrapping_sub(self.rise((left, y), (x, y)))
            .wrapping_sub(self.rise((left, above), (left, y)));
        (round / 65536)
            .wrapping_add(self.right(x, above))
            .wrapping_add(self.down(x, y))
            .wrapping_sub(self.right(x, y))
            .wrapping_sub(self.down(left, y))
    }

    /// How much all cells have to send and lack, or none if a face does not fit a flow.
    fn unbalanced(&self) -> Option<u32> {
        let mut sum: u32 = 0;
        for y in 0..self.height {
            for x in 0..self.width {
                if !self.is_tight(x, y) {
                    return None;
                }
                if x > 0 && y > 0 {
                    sum = sum.wrapping_add(self.left(x, y).unsigned_abs());
                }
            }
        }
        Some(sum)
    }
}

/// How much all cells have to send and lack after a guess with a patience: 0 if it ended, and none if what it reached does not
/// fit.
fn left_after<R: Abort + Threads + Sync>(
    rt: &R,
    alloc: Global,
    session: &Session,
    patience: u64,
) -> Option<u32> {
    let (scene, mask) = (&session.scene, &session.first_mask);
    let guess = guess_whole_within(rt, alloc, &scene.sheet(), mask, 2, patience).expect(
        rt, "memory",
    );
    let Guess::Reached(reached) = guess else {
        return Some(0);
    };
    let place = Place {
        scene,
        mask,
        reached: &reached,
        width: scene.phase.width,
        height: scene.phase.height,
    };
    place.unbalanced()
}

/// What a guess has reached when its patience ends fits, and the more patience it has the less is left.
#[test]
fn what_was_reached_fits(rt: HostRuntime) {
    let session = trial(&rt, rt.alloc(), 7, 96, 70);
    let mut before = u32::MAX;
    for patience in [0, 1, 2] {
        let left = left_after(&rt, rt.alloc(), &session, patience).unwrap_or(u32::MAX);
        assert!(rt; left < before);
        before = left;
    }
    assert!(rt; before == 0);
}
