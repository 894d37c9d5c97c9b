use raster_model::{Mask, RuleKind, Window};
use trial_maker::{TrialFault, make_session};
use wrapped_gradient::Gradients;

/// How many pixels are open.
fn open_pixels(mask: &Mask) -> u32 {
    let (width, height) = (mask.width(), mask.height());
    let mut open = 0u32;
    for place in 0..width * height {
        if mask.is_open(place % width, place / width) {
            open = open.saturating_add(1);
        }
    }
    open
}

/// How many cells have a residue.
fn residues(gradients: &Gradients) -> u32 {
    let window = gradients.window();
    let across = window.x1 - window.x0;
    let mut residues = 0u32;
    for place in 0..across * (window.y1 - window.y0) {
        if gradients.residue(window.x0 + place % across, window.y0 + place / across) != 0 {
            residues = residues.saturating_add(1);
        }
    }
    residues
}

/// A square of the most pixels, and how many of them a program of another language counts as open.
#[test]
fn the_largest_square_is_made(rt: HostRuntime) {
    let made = make_session(rt.alloc(), 7, 2048, 2048, 64, RuleKind::Least);
    let session = made.expect(&rt, "memory");
    assert!(rt; open_pixels(&session.first_mask) == 3_931_463);
}

/// Seed 7 and sides of 64, and how many residues and open pixels a program of another language counts.
#[test]
fn sessions_are_those_of_their_seeds(rt: HostRuntime) {
    let alloc = rt.alloc();
    let session = make_session(alloc, 7, 64, 64, 32, RuleKind::Least).expect(&rt, "a session");
    let window = Window {
        x0: 0,
        y0: 0,
        x1: 63,
        y1: 63,
    };
    let gradients = Gradients::of(alloc, &session.scene, window).expect(&rt, "memory");
    assert!(rt; residues(&gradients) == 450 && open_pixels(&session.first_mask) == 3834);
    let wide = make_session(alloc, 0, 4097, 1, 64, RuleKind::Least).err();
    assert!(rt; wide == Some(TrialFault::Size));
}
