use raster_model::{Terms, Tiling, Window};
use worked_scenes::{scene, scene_on};
use wrapped_gradient::Gradients;

/// A full turn where a rise is expected along rows and along columns: the bottom edge and the left edge rise by three
/// quarters of a cycle, and the turn goes the other way.
#[test]
fn a_ramp_goes_both_ways(rt: HostRuntime) {
    let terms = Terms {
        ramp_x: 30000,
        ramp_y: 20000,
        steep: 1,
    };
    let phases = [0, 16384, 49152, 32768];
    let scene = scene_on(rt.alloc(), terms, Tiling::new(2, 2, 2), 1, &phases, &[1; 4]).expect(
        &rt, "a scene",
    );
    let window = Window {
        x0: 0,
        y0: 0,
        x1: 1,
        y1: 1,
    };
    let gradients = Gradients::of(rt.alloc(), &scene, window).expect(&rt, "memory");
    assert!(rt; gradients.right(0, 0) == 16384 && gradients.right(0, 1) == 49152);
    assert!(rt; gradients.down(0, 0) == 49152 && gradients.down(1, 0) == 16384);
    assert!(rt; gradients.residue(0, 0) == -1 && gradients.first_residue() == Some((0, 0)));
}

/// A turn the other way around the cell at (2, 0), and no other residue.
#[test]
fn counts_places_in_the_raster(rt: HostRuntime) {
    let phases = [0, 0, 0, 49152, 0, 0, 16384, 32768, 0, 0, 0, 0];
    let scene = scene(rt.alloc(), Tiling::new(4, 3, 2), 1, &phases, &[1; 12]).expect(
        &rt, "a scene",
    );
    let right = Window {
        x0: 1,
        y0: 0,
        x1: 3,
        y1: 2,
    };
    let gradients = Gradients::of(rt.alloc(), &scene, right).expect(&rt, "memory");
    assert!(rt; gradients.residue(2, 0) == -1 && gradients.first_residue() == Some((2, 0)));
    let lower = Window {
        x0: 0,
        y0: 1,
        x1: 3,
        y1: 2,
    };
    let gradients = Gradients::of(rt.alloc(), &scene, lower).expect(&rt, "memory");
    assert!(rt; gradients.down(3, 1) == -32768 && gradients.first_residue() == None);
}
