use crate::top_rows::judge;

/// Rows as in the table of `top_rows`, each value of which was computed by hand.
const ROWS: &str = "\
-- A full turn with a face of 3. Its edges above and at the right weigh 5, so their margin is 2; those below and at the left weigh
-- 3, and their margin is 0, whichever of them is cut.
parts|P2 2 2 65535 0 16384 49152 32768 P2 2 2 9 5 5 3 9;end;^2 2;rule least;ramp 0 0;steep 1;cost 3;ncols 2;nrows 2;%0 16384;49152 32768;faces 3;end;|0|parts 2 0 1;part 0 0 3;part 0 1 1;ncols 2;nrows 2;%1 1;2 1;
parts|P2 2 2 65535 0 16384 49152 32768 P2 2 2 9 5 5 3 9;end;^2 2;rule least;ramp 0 0;steep 1;cost 3;ncols 2;nrows 2;%0 16384;-16384 32768;faces 3;end;|0|parts 2 0 1;part 0 0 3;part 0 1 1;ncols 2;nrows 2;%1 1;2 1;
parts --least 2 --margin 1|P2 2 2 65535 0 16384 49152 32768 P2 2 2 9 5 5 3 9;end;^2 2;rule least;ramp 0 0;steep 1;cost 3;ncols 2;nrows 2;%0 16384;49152 32768;faces 3;end;|0|parts 1 1 2;part 0 0 3;ncols 2;nrows 2;%1 1;0 1;
parts --margin 2|P2 2 2 65535 0 16384 49152 32768 P2 2 2 9 5 5 3 9;end;^2 2;rule least;ramp 0 0;steep 1;cost 3;ncols 2;nrows 2;%0 16384;49152 32768;faces 3;end;|0|parts 4 2 1;part 0 0 1;part 1 0 1;part 0 1 1;part 1 1 1;ncols 2;nrows 2;%1 2;3 4;
parts --least 4|P2 2 2 65535 0 16384 49152 32768 P2 2 2 9 5 5 3 9;end;^2 2;rule least;ramp 0 0;steep 1;cost 3;ncols 2;nrows 2;%0 16384;49152 32768;faces 3;end;|0|parts 0 0 4;ncols 2;nrows 2;%0 0;0 0;
-- A residue of 1 beside one of -1, over a smooth row: the faces are 1 and -1 above, and 0 below. The margin is 0 between the two,
-- 1 at the edges above them, 2 at those in the middle row, 4 at those of weight 4 round the lower cells, and 3 at the others.
parts --margin 1|P2 3 3 65535 0 16384 0 49152 32768 49152 49152 32768 49152 P2 3 3 4 4 2 4 4 3 4 4 4 4;end;^3 3;rule least;ramp 0 0;steep 1;cost 2;ncols 3;nrows 3;%0 16384 0;-16384 -32768 -16384;-16384 -32768 -16384;faces 1 -1;faces 0 0;end;|0|parts 2 1 1;part 0 0 8;part 1 0 1;ncols 3;nrows 3;%1 2 1;1 1 1;1 1 1;
parts --margin 3|P2 3 3 65535 0 16384 0 49152 32768 49152 49152 32768 49152 P2 3 3 4 4 2 4 4 3 4 4 4 4;end;^3 3;rule least;ramp 0 0;steep 1;cost 2;ncols 3;nrows 3;%0 16384 0;-16384 -32768 -16384;-16384 -32768 -16384;faces 1 -1;faces 0 0;end;|0|parts 5 3 1;part 0 0 1;part 1 0 1;part 2 0 1;part 0 1 5;part 1 1 1;ncols 3;nrows 3;%1 2 3;4 5 4;4 4 4;
parts --margin 3 --least 2|P2 3 3 65535 0 16384 0 49152 32768 49152 49152 32768 49152 P2 3 3 4 4 2 4 4 3 4 4 4 4;end;^3 3;rule least;ramp 0 0;steep 1;cost 2;ncols 3;nrows 3;%0 16384 0;-16384 -32768 -16384;-16384 -32768 -16384;faces 1 -1;faces 0 0;end;|0|parts 1 3 2;part 0 1 5;ncols 3;nrows 3;%0 0 0;1 0 1;1 1 1;
-- A ring with a full turn: edges of weight 3 at the left, of which one is cut, and of weight 5 elsewhere.
parts|P2 3 3 65535 0 8192 16384 57344 0 24576 49152 40960 32768 P2 3 3 9 5 5 5 3 5 5 5 5 5 P2 3 3 1 1 1 1 1 0 1 1 1 1;end;^3 3;rule least;ramp 0 0;steep 1;cost 3;ncols 3;nrows 3;%0 8192 16384;57344 ~ 24576;49152 40960 32768;faces 3 3;faces 3 3;end;|0|parts 2 0 1;part 0 0 7;part 0 1 1;ncols 3;nrows 3;%1 1 1;2 ~ 1;1 1 1;
-- Nothing joins over a masked pixel or an edge of weight 0; and all is masked.
parts --steep 3|P2 3 2 65535 0 0 0 0 0 0 P2 3 2 9 4 0 4 4 0 4 P2 3 2 1 1 1 1 1 0 1;end;^3 2;rule least;ramp 0 0;steep 3;cost 0;ncols 3;nrows 2;%0 0 0;0 ~ 0;faces 0 0;end;|0|parts 3 0 1;part 0 0 2;part 1 0 1;part 2 0 2;ncols 3;nrows 2;%1 2 3;1 ~ 3;
parts --least 2|P2 3 2 65535 0 0 0 0 0 0 P2 3 2 9 4 0 4 4 0 4 P2 3 2 1 1 1 1 1 0 1;end;^3 2;rule least;ramp 0 0;steep 1;cost 0;ncols 3;nrows 2;%0 0 0;0 ~ 0;faces 0 0;end;|0|parts 2 0 2;part 0 0 2;part 2 0 2;ncols 3;nrows 2;%1 0 2;1 ~ 2;
parts|P2 2 1 65535 0 0 P2 2 1 1 1 1 P2 2 1 1 0 0;end;^2 1;rule least;ramp 0 0;steep 1;cost 0;ncols 2;nrows 1;%~ ~;end;|0|parts 0 0 1;ncols 2;nrows 1;%~ ~;
-- Two residues of 1 that are both cut at the left, where the surface departs by two cycles. The faces are 2 and 6. So the margin is
-- 0 at the left and between the cells, 1 above and below the first, and more elsewhere.
parts --rule mean|P2 3 2 65535 0 16384 32768 40960 16384 57344 P2 3 2 20 2 4 20 2 4 20;end;^3 2;rule mean;ramp 0 0;steep 1;cost 8;ncols 3;nrows 2;%0 16384 32768;106496 81920 57344;faces 2 6;end;|0|parts 1 0 1;part 0 0 6;ncols 3;nrows 2;%1 1 1;1 1 1;
parts --rule mean --margin 1|P2 3 2 65535 0 16384 32768 40960 16384 57344 P2 3 2 20 2 4 20 2 4 20;end;^3 2;rule mean;ramp 0 0;steep 1;cost 8;ncols 3;nrows 2;%0 16384 32768;106496 81920 57344;faces 2 6;end;|0|parts 3 1 1;part 0 0 1;part 1 0 4;part 0 1 1;ncols 3;nrows 2;%1 2 2;3 2 2;
-- A turn whose further cycles cost thrice as much. Its face is 12 and its edge at the left, which is cut, weighs 6: one cycle less
-- has the excess 12 - 6, and one more 6 * 4 - 12 * 2 + 6. The margin is 1 above and below, and 8 at the right.
parts --steep 3 --rule mean --margin 1|P2 2 2 65535 0 16384 49152 32768 P2 2 2 20 6 20 6 20;end;^2 2;rule mean;ramp 0 0;steep 3;cost 6;ncols 2;nrows 2;%0 16384;49152 32768;faces 12;end;|0|parts 2 1 1;part 0 0 2;part 1 0 2;ncols 2;nrows 2;%1 2;1 2;
parts --steep 3 --rule mean --margin 6|P2 2 2 65535 0 16384 49152 32768 P2 2 2 20 6 20 6 20;end;^2 2;rule mean;ramp 0 0;steep 3;cost 6;ncols 2;nrows 2;%0 16384;49152 32768;faces 12;end;|0|parts 3 6 1;part 0 0 1;part 1 0 2;part 0 1 1;ncols 2;nrows 2;%1 2;3 2;
-- Around a ramp, with weights of 1; and the greatest numbers.
parts --ramp-x 30000|P2 4 1 65535 0 40000 14464 54464;end;^4 1;rule least;ramp 30000 0;steep 1;cost 0;ncols 4;nrows 1;%0 40000 80000 120000;end;|0|parts 1 0 1;part 0 0 4;ncols 4;nrows 1;%1 1 1 1;
parts --ramp-x 30000 --margin 4294967295|P2 4 1 65535 0 40000 14464 54464;end;^4 1;rule least;ramp 30000 0;steep 1;cost 0;ncols 4;nrows 1;%0 40000 80000 120000;end;|0|parts 4 4294967295 1;part 0 0 1;part 1 0 1;part 2 0 1;part 3 0 1;ncols 4;nrows 1;%1 2 3 4;
parts --ramp-x 30000 --least 4194304|P2 4 1 65535 0 40000 14464 54464;end;^4 1;rule least;ramp 30000 0;steep 1;cost 0;ncols 4;nrows 1;%0 40000 80000 120000;end;|0|parts 0 0 4194304;ncols 4;nrows 1;%0 0 0 0;
-- What is not accepted has the line of its verdict.
parts|P2 2 2 65535 0 16384 49152 32768 P2 2 2 9 5 5 3 9;end;^2 2;rule least;ramp 0 0;steep 1;cost 2;ncols 2;nrows 2;%0 16384;-16384 32768;faces 2;end;|1|refused cost;
parts|P2 2 2 65535 0 16384 49152 32768 P2 2 2 9 5 5 3 9;end;^2 2;rule least;ramp 0 0;steep 1;cost 4;ncols 2;nrows 2;%0 16384;-16384 32768;faces 3;end;|1|refused told;
parts --steep 2|P2 2 2 65535 0 16384 49152 32768 P2 2 2 9 5 5 3 9;end;^2 2;rule least;ramp 0 0;steep 1;cost 3;ncols 2;nrows 2;%0 16384;-16384 32768;faces 3;end;|1|refused header 5;
-- A session or a text that breaks its form, and words that are refused.
parts|P2 2 2 65535 0 16384 49152 32768 P2 2 2 9 5 5 3 9;end;^2 2;rule least;ramp 0 0;steep 1;cost 3;ncols 2;nrows 2;%0 16384;-16384 32768;faces 3;|3|report fault line 16;
parts|P2 4 1 65535 0 20000 40000 60000;analyst;settle;|3|input fault 14 no end;
parts --margin +07||3|input fault 1 magic phase;
parts --margin 4294967296||2|words refused;
parts --margin -1||2|words refused;
parts --least 0||2|words refused;
parts --least 4194305||2|words refused;
parts --tile 64||2|words refused;
parts --workers 2||2|words refused;
parts --rule max||2|words refused;
";

#[test]
fn parts_are_answered(rt: HostRuntime) {
    let mut count = 0u32;
    for row in ROWS.lines() {
        count = count.saturating_add(judge(&rt, row));
    }
    assert!(rt; count == 32);
}
