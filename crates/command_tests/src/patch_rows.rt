ghost use Rattle.raster_model.specs.Limits.{is_tiled_size};
ghost use Rattle.std.specs.Prelude.{◌≡◌, ◌*◌, ◌<◌, ◌≤◌, IsTrue, length};

use crate::outcomes::same;
use auto_masks::Patches;
use std::alloc::Global;
use std::process::Abort;
use worked_scenes::{field, number, numbers};

/// Width and height of a raster, its keys by rows, and in words: how many patches there are, each pixel's label by rows
/// with a point where there is none, and each patch with its first pixel and its size. By hand: keys that touch at a
/// corner are two patches; a bow of one key that closes at its last row is one; two keys side by side are two, also if
/// one is the other less; with 0 alone there is none.
const ROWS: &str = "\
4|1|0 0 1 1|1 ..00 (2, 0) 2
2|2|7 0 0 7|2 0..1 (0, 0) 1 (1, 1) 1
3|3|5 0 5 5 -5 5 5 5 5|2 0.0010000 (0, 0) 7 (1, 1) 1
3|2|9223372036854775807 -1 -1 2 2 -1|3 011221 (0, 0) 1 (1, 0) 3 (0, 1) 2
2|1|0 0|0 ..";

/// Adds the labels of the first `width` pixels of row `y`, with a point where there is none.
fn tell_row(rt: &impl Abort, text: &mut String, patches: &Patches, width: u32, y: u32)
    requires { (width ≤ patches.now.width) × (y < patches.now.height) }
{
    for x in 0..width {
        let label = patches.label(x, y);
        let digit = label.and_then(|label| char::from_digit(label, 10));
        text.push(digit.unwrap_or('.')).expect(rt, "memory");
    }
}

/// Adds the labels of the first `height` rows.
fn tell_rows(rt: &impl Abort, text: &mut String, patches: &Patches, width: u32, height: u32)
    requires { (width ≤ patches.now.width) × (height ≤ patches.now.height) }
{
    for y in 0..height {
        tell_row(rt, text, patches, width, y);
    }
}

/// Adds each patch with its first pixel and its size.
fn tell_patches(rt: &impl Abort, alloc: Global, text: &mut String, patches: &Patches) {
    for label in 0..patches.count() {
        let ((x, y), size) = (patches.first(label), patches.size(label));
        let patch = format!(in alloc; " ({x}, {y}) {size}").expect(rt, "memory");
        text.push_str(&patch).expect(rt, "memory");
    }
}

/// The patches of keys in words.
fn told(rt: &impl Abort, alloc: Global, width: u32, height: u32, keys: &[i64]) -> String
    requires limits { IsTrue (is_tiled_size width height) }
    requires full { length keys.now ≡ width * height }
{
    let patches = Patches::of(alloc, width, height, keys).expect(rt, "memory");
    let mut text = format!(in alloc; "{} ", patches.count()).expect(rt, "memory");
    tell_rows(rt, &mut text, &patches, width, height);
    tell_patches(rt, alloc, &mut text, &patches);
    text
}

#[test]
fn patches_have_one_key(rt: HostRuntime) {
    let alloc = rt.alloc();
    for row in ROWS.lines() {
        let mut fields = row.split('|');
        let width = number(&mut fields).clamp(1, 8);
        let height = number(&mut fields).clamp(1, 8);
        let keys = numbers(alloc, field(&mut fields)).expect(&rt, "memory");
        assert!(rt; keys.len() == width as usize * height as usize);
        let found = told(&rt, alloc, width, height, &keys);
        same(&rt, row, &found, field(&mut fields));
    }
}
