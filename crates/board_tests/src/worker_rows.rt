use crate::running::{last_of, open_desk, run_out};
use tile_board::Advance;
use tile_workers::{OpenGate, settle};

/// The line in two tiles, and two analysts who each settle and look.
const LINE: &str = "P2 4 1 65535 0 40000 14464 54464
analyst
settle
show
analyst
settle
show
end
";

/// Both analysts learn that there is no surface yet. The settle command of the first is done by publishing, and that of
/// the second finds the surface there. The scripts then go on to their ends.
#[test]
fn a_settle_command_is_answered_with_its_revision(rt: HostRuntime) {
    let alloc = rt.alloc();
    let (desk, mut passes) = open_desk(&rt, alloc, 2, LINE);
    let mut two = last_of(&rt, &desk, &mut passes, 2);
    let mut one = last_of(&rt, &desk, &mut passes, 1);
    let (Ok(Advance::NotYet(0)), Ok(Advance::NotYet(0))) = (
        desk.advance(&rt, alloc, &mut one).answer,
        desk.advance(&rt, alloc, &mut two).answer,
    ) else {
        panic!(rt; "no surface yet");
    };
    let first = settle(&rt, alloc, &desk, &mut one, 1, &OpenGate).expect(&rt, "memory");
    let second = settle(&rt, alloc, &desk, &mut two, 8, &OpenGate).expect(&rt, "memory");
    assert!(rt; first == 0 && second == 0 && one.done() == 1 && two.done() == 1);
    let board = run_out(&rt, alloc, desk, one, two).expect(&rt, "memory");
    assert!(rt; board.complete() && board.entries().len() == 6);
}
