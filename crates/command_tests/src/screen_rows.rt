ghost use Rattle.auto_masks.specs.Screened.{AreScreenTerms};
ghost use Rattle.std.specs.Prelude.{◌≡◌};

use crate::outcomes::holds;
use auto_masks::{Screen, ScreenTerms};
use raster_model::{Mask, Plane};
use std::alloc::Global;
use std::process::Abort;
use worked_scenes::{field, number, samples};

/// The weights of three open pixels; weight, radius, count and patch of a screen; the mask that it makes, `1` where a pixel
/// is open, and the mask that the same screen makes of that. By hand: of `5 1 5` the pixel between the others is weak. Each
/// of these is a patch of one pixel, and has one strong pixel within a column of it, itself, and two within two columns. Of
/// `5 5 5` the pixel in the middle has three strong pixels within a column, and one when the others are masked; each of
/// these has two.
const ROWS: &str = "\
5 1 5|0 0 0 0|111|111
5 1 5|2 0 0 0|101|101
5 1 5|2 0 0 2|000|000
5 1 5|2 1 2 0|000|000
5 1 5|2 1 1 0|101|101
5 1 5|2 2 2 0|101|101
5 5 5|2 1 2 0|111|111
5 5 5|2 1 3 0|010|000";

/// The weights of a field.
fn weights_of(rt: &impl Abort, alloc: Global, field: &str) -> Plane {
    let samples = samples(alloc, field).expect(rt, "memory");
    Plane::new(3, 1, 9, samples).expect(rt, "three weights")
}

/// The screen's terms in a field.
fn terms_of(field: &str) -> ScreenTerms
    ensures { AreScreenTerms result }
{
    let mut words = field.split(' ');
    ScreenTerms {
        weight: number(&mut words).min(9) as u16,
        radius: number(&mut words).min(9),
        count: number(&mut words).min(9),
        patch: number(&mut words).min(9),
    }
}

/// Adds the first row of a mask, `1` where a pixel is open.
fn tell(rt: &impl Abort, mask: &Mask, text: &mut String) {
    assert!(rt; mask.height() > 0);
    for x in 0..mask.width() {
        text.push(if mask.is_open(x, 0) { '1' } else { '0' })
            .expect(rt, "memory");
    }
}

/// What a screen makes of a mask.
fn screened(
    rt: &impl Abort,
    alloc: Global,
    terms: ScreenTerms,
    weights: &Plane,
    mask: &Mask,
) -> Mask
    requires ranged { AreScreenTerms terms }
    requires across { mask.now.width ≡ weights.now.width }
    requires along { mask.now.height ≡ weights.now.height }
    ensures { (result.width ≡ weights.now.width) × (result.height ≡ weights.now.height) }
{
    let is_enough = Box::new(alloc, move |weight: u16, count: u32| {
        terms.weight <= weight && terms.count <= count
    });
    let screen = Screen::new(terms, is_enough.expect(rt, "memory"));
    screen.apply(alloc, weights, mask).expect(rt, "memory")
}

/// The masks that a screen makes of open pixels with these weights, one of the other.
fn twice(rt: &impl Abort, alloc: Global, terms: ScreenTerms, weights: &Plane) -> String
    requires { AreScreenTerms terms }
{
    let open = Mask::all_open(alloc, weights.width, weights.height).expect(rt, "memory");
    let once = screened(rt, alloc, terms, weights, &open);
    let twice = screened(rt, alloc, terms, weights, &once);
    let mut text = String::new(alloc);
    tell(rt, &once, &mut text);
    text.push('|').expect(rt, "memory");
    tell(rt, &twice, &mut text);
    text
}

#[test]
fn weak_pixels_and_small_patches_are_dropped(rt: HostRuntime) {
    let alloc = rt.alloc();
    for row in ROWS.lines() {
        let mut fields = row.split('|');
        let weights = weights_of(&rt, alloc, field(&mut fields));
        let terms = terms_of(field(&mut fields));
        let found = twice(&rt, alloc, terms, &weights);
        holds(&rt, row, row.ends_with(found.as_str()));
    }
}
