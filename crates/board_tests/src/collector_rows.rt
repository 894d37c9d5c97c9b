use crate::calls::answered;

/// The line `0 40000 14464 54464` in two tiles, every edge with the weight 1. Its wrapped differences are all -25536.
const SETTLED: &str = "P2\n4 1\n65535\n0 40000 14464 54464\nanalyst\nshow\nsettle\nshow\nend\n";

/// By itself each tile has the cycles 0 and -1, so the second is moved by -1.
const JOINED: &str = "\
finish = Ok(())
entries = [Shown { analyst: 1, revision: None }, Kept { tile: 0, stamp: 0 }, Kept { tile: 1, stamp: 0 }, Published { analyst: 1, revision: 0 }, Shown { analyst: 1, revision: Some(0) }]
complete = true
surfaces = [Some(0), Some(-25536), Some(-51072), Some(-76608)]
collect = 0 [0, -1] [0]";

#[test]
fn a_settle_command_publishes_the_joined_tiles(rt: HostRuntime) {
    answered(&rt, rt.alloc(), SETTLED, 2, JOINED);
}

/// The same line, and two analysts.
const BOTH: &str = "P2\n4 1\n65535\n0 40000 14464 54464\n\
    analyst\nmask 3 0 3 0\nsettle\nsettle\nanalyst\nmask 0 0 0 0\nsettle\nshow\nend\n";

/// The second analyst's edit changes only the first tile, so the result of the other stays.
const ENTRIES: &str = "\
finish = Ok(())
entries = [Revised { analyst: 1, edit: Mask(Rect { x0: 3, y0: 0, x1: 3, y1: 0 }) }, Kept { tile: 0, stamp: 0 }, Kept { tile: 1, stamp: 1 }, Published { analyst: 1, revision: 1 }, Settled { analyst: 1, revision: 1 }, Revised { analyst: 2, edit: Mask(Rect { x0: 0, y0: 0, x1: 0, y1: 0 }) }, Kept { tile: 0, stamp: 2 }, Published { analyst: 2, revision: 2 }, Shown { analyst: 2, revision: Some(2) }]
surfaces = [Some(0), Some(-25536), Some(-51072), None, None, Some(40000), Some(14464), None]";

#[test]
fn scripts_are_done_one_after_another(rt: HostRuntime) {
    answered(&rt, rt.alloc(), BOTH, 2, ENTRIES);
}

const LOOK: &str = "P2\n4 1\n65535\n0 40000 14464 54464\nanalyst\nshow\nend\n";

const NOTHING: &str = "\
finish = Ok(())
entries = [Shown { analyst: 1, revision: None }]
state = 0 None 1 0";

#[test]
fn a_script_that_only_shows_solves_nothing(rt: HostRuntime) {
    answered(&rt, rt.alloc(), LOOK, 2, NOTHING);
}
