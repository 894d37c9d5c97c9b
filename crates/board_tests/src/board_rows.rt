use crate::calls::answered;

/// The residue of `0 16384 / 49152 32768` is 1. With the first pixel masked the edges on two sides of the cell weigh
/// 0, so its face is 0, and the three open pixels lie on a surface that departs nowhere.
const TURN: &str =
    "P2\n2 2\n65535\n0 16384 49152 32768\nanalyst\nmask 0 0 0 0\nsettle\nshow\nend\n";

const STALE: &str = "\
claim = Ok((0, 0))
advance = Ok(Revised(1))
keep 0 0 0 0,0,0,0 = Err(Stale(1))
advance = Ok(NotYet(1))
gather = Err(Unready(0))";

#[test]
fn an_edit_makes_a_claimed_tile_stale(rt: HostRuntime) {
    answered(&rt, rt.alloc(), TURN, 64, STALE);
}

const KEPT: &str = "\
advance = Ok(Revised(1))
keep 0 1 0 0,0,0 = Err(Uncertified(Shape))
keep 0 1 0 0,0,0,0 = Ok(())
keep 0 1 0 0,0,0,0 = Err(Double)
keep 1 0 0 0,0,0,0 = Err(Stranger(1))
claim = Err(NoJob)
share 8 64 = Err(NoJob)
gather = Ok(1)";

#[test]
fn a_tile_is_kept_once(rt: HostRuntime) {
    answered(&rt, rt.alloc(), TURN, 64, KEPT);
}

const PUBLISHED: &str = "\
advance = Ok(Revised(1))
keep 0 1 0 0,0,0,0 = Ok(())
publish 1 1 = Err(Uncertified(Anchor(1)))
publish 1 0 = Ok(())
publish 1 0 = Err(NotSettle)
advance = Ok(Shown(Some(1)))
advance = Ok(Ended)
complete = true";

#[test]
fn a_surface_is_published_once(rt: HostRuntime) {
    answered(&rt, rt.alloc(), TURN, 64, PUBLISHED);
}

/// The line `0 20000 40000 60000` departs nowhere by itself.
const LINE: &str =
    "P2\n4 1\n65535\n0 20000 40000 60000\nanalyst\nshow\nsettle\nsettle\nshow\nend\n";

/// The last line has the revision, the newest that is published, the commands done and the surfaces.
const WAITS: &str = "\
advance = Ok(Shown(None))
advance = Ok(NotYet(0))
publish 1 0 = Err(Stale(0))
publish 0 0 = Err(Unready(0))
keep 0 0  0,0,0,0 = Ok(())
publish 0 0 = Ok(())
publish 0 0 = Err(Double(0))
advance = Ok(Settled(0))
advance = Ok(Shown(Some(0)))
entries = [Shown { analyst: 1, revision: None }, Kept { tile: 0, stamp: 0 }, Published { analyst: 1, revision: 0 }, Settled { analyst: 1, revision: 0 }, Shown { analyst: 1, revision: Some(0) }]
state = 0 Some(0) 4 1";

#[test]
fn a_settle_waits_for_a_publication(rt: HostRuntime) {
    answered(&rt, rt.alloc(), LINE, 64, WAITS);
}

const HALVES: &str = "P2\n4 1\n65535\n0 40000 14464 54464\nanalyst\nsettle\nend\n";

const CLAIMS: &str = "\
claim = Ok((0, 0))
claim = Ok((1, 0))";

#[test]
fn two_claims_give_two_tiles(rt: HostRuntime) {
    answered(&rt, rt.alloc(), HALVES, 2, CLAIMS);
}

/// A line in 64 tiles, which is flat; the pixel that is masked lies in tile 40.
const FLAT: &str = "\
P2
128 1
65535
0 0 0 0 0 0 0 0 0 0 0 0 0 0 0 0 0 0 0 0 0 0 0 0 0 0 0 0 0 0 0 0 0 0 0 0 0 0 0 0 0 0 0 0 0 0 0 0 0 0 0 0 0 0 0 \
0 0 0 0 0 0 0 0 0 0 0 0 0 0 0 0 0 0 0 0 0 0 0 0 0 0 0 0 0 0 0 0 0 0 0 0 0 0 0 0 0 0 0 0 0 0 0 0 0 0 0 0 0 0 0 \
0 0 0 0 0 0 0 0 0 0 0 0 0 0 0 0 0 0
analyst
mask 80 0 80 0
end
";

/// As eight workers claim that keep nothing: each tile once, and then the first two again. Of the tiles that were claimed
/// once the next is tile 2, but for its result; and tile 40 is unclaimed after its edit.
const IN_TURN: &str = "\
claims 66 = [0, 1, 2, 3, 4, 5, 6, 7, 8, 9, 10, 11, 12, 13, 14, 15, 16, 17, 18, 19, 20, 21, 22, 23, 24, 25, 26, 27, 28, 29, \
30, 31, 32, 33, 34, 35, 36, 37, 38, 39, 40, 41, 42, 43, 44, 45, 46, 47, 48, 49, 50, 51, 52, 53, 54, 55, 56, \
57, 58, 59, 60, 61, 62, 63, 0, 1]
keep 2 0  0,0 = Ok(())
claim = Ok((3, 0))
advance = Ok(Revised(1))
claim = Ok((40, 1))
claim = Ok((4, 0))";

#[test]
fn tiles_are_claimed_in_turn(rt: HostRuntime) {
    answered(&rt, rt.alloc(), FLAT, 2, IN_TURN);
}

/// Of the 64 tiles an eighth, and no more than 5; at least one, though none is asked for or a part has less than one; two of
/// all, as with no parts it is one part. Of 63 an eighth is 7, and a hundredth one.
const SHARES: &str = "\
share 8 64 = Ok([0, 1, 2, 3, 4, 5, 6, 7])
share 8 5 = Ok([8, 9, 10, 11, 12])
share 8 0 = Ok([13])
share 65 64 = Ok([14])
share 0 2 = Ok([15, 16])
keep 0 0  0,0 = Ok(())
share 8 64 = Ok([17, 18, 19, 20, 21, 22, 23])
share 32 64 = Ok([24])
entries = [Kept { tile: 0, stamp: 0 }]";

#[test]
fn a_share_is_one_part_of_what_is_left(rt: HostRuntime) {
    answered(&rt, rt.alloc(), FLAT, 2, SHARES);
}

/// The same turn without a script, with edges that weigh 5 (top), 5 (right), 3 (bottom) and 3 (left). If the lower left
/// pixel is a cycle down, only the bottom edge departs, and the face 3 at the residue 1 certifies the cost 3.
const WEIGHED: &str = "P2\n2 2\n65535\n0 16384 49152 32768\nP2\n2 2\n9\n5 5 3 9\n";

/// After each result that is refused the board is as it was.
const FORGED: &str = "\
keep 1 0 3 0,0,-1,0 = Err(Stranger(1))
state = 0 None 0 0
entries = []
keep 0 7 3 0,0,-1,0 = Err(Stale(0))
state = 0 None 0 0
entries = []
keep 0 0 3 0,0,-1 = Err(Uncertified(Shape))
state = 0 None 0 0
entries = []
keep 0 0 3 8388609,0,0,0 = Err(Uncertified(Range { x: 0, y: 0 }))
state = 0 None 0 0
entries = []
keep 0 0 4 0,0,-1,0 = Err(Uncertified(FaceAtEdge(Edge { x: 0, y: 0, down: true })))
state = 0 None 0 0
entries = []
keep 0 0 2 0,0,-1,0 = Err(Uncertified(CostDiffers { cost: 3, bound: 2 }))
state = 0 None 0 0
entries = []
gather = Err(Unready(0))
keep 0 0 3 0,0,-1,0 = Ok(())
keep 0 0 3 0,0,-1,0 = Err(Double)
entries = [Kept { tile: 0, stamp: 0 }]
gather = Ok(0)";

#[test]
fn a_forged_result_changes_nothing(rt: HostRuntime) {
    answered(&rt, rt.alloc(), WEIGHED, 64, FORGED);
}
