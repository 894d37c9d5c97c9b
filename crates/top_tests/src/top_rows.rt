use crate::running::{Ended, NOTHING, run};
use std::alloc::Global;
use std::process::Abort;
use std::sync::Wait;
use std::thread::Threads;
use tile_workers::OpenGate;
use worked_scenes::field;

/// A row has four fields: words, bytes, status, and what is written, which is the sink's text at status 0 and 1 or else
/// the line to `diag`. In a field `;` is LF, `.` is the byte 0, `~` is the NODATA value, `%` stands for the four
/// lines of a grid between its size and its rows, `!` for the head of a report up to its size, and `^` for that of a whole
/// surface. In what is written `*` is any text, and `/` splits two texts of which either may come. All values but those of
/// `trial 7` were computed by hand.
const ROWS: &str = "\
-- Lines, which have no cell: a commented header, a wrap, the exact half cycle, one pixel.
unwrap|P5;# by hand;2 1;65535;....|0|!2 1;tile 64;rule least;kept 0 0;published 1 0;costs 0 0;ncols 2;nrows 1;%0 0;faces 0;flows;shown 1 0;end;
unwrap|P2 2 1 65535 50000 10000|0|!2 1;tile 64;rule least;kept 0 0;published 1 0;costs 0 0;ncols 2;nrows 1;%50000 75536;faces 0;flows;shown 1 0;end;
unwrap|P2 2 1 65535 0 32768|0|!2 1;tile 64;rule least;kept 0 0;published 1 0;costs 0 0;ncols 2;nrows 1;%0 -32768;faces 0;flows;shown 1 0;end;
unwrap|P2 1 1 65535 65535|0|!1 1;tile 64;rule least;kept 0 0;published 1 0;costs 0 0;ncols 1;nrows 1;%65535;faces 0;flows;shown 1 0;end;
-- A square without a residue.
unwrap|P2 2 2 65535 0 20000 40000 60000|0|!2 2;tile 64;rule least;kept 0 0;published 1 0;costs 0 0;ncols 2;nrows 2;%0 20000;-25536 -5536;faces 0 *;flows;shown 1 0;end;
-- A full turn whose edges weigh 5 (top), 5 (right), 3 (bottom) and 3 (left), under masks. The face times the residue 1
-- is the cost.
unwrap|P2 2 2 65535 0 16384 49152 32768 P2 2 2 9 5 5 3 9|0|!2 2;tile 64;rule least;kept 0 0;published 1 0;costs 3 0;ncols 2;nrows 2;%0 16384;-16384 32768;faces 0 3;flows;shown 1 0;end;/!2 2;tile 64;rule least;kept 0 0;published 1 0;costs 3 0;ncols 2;nrows 2;%0 16384;49152 32768;faces 0 3;flows;shown 1 0;end;
unwrap|P2 2 2 65535 0 16384 49152 32768 P2 2 2 9 5 5 3 9 P2 2 2 1 0 1 1 1|0|!2 2;tile 64;rule least;kept 0 0;published 1 0;costs 0 0;ncols 2;nrows 2;%~ 16384;49152 32768;faces 0 0;flows;shown 1 0;end;
unwrap|P2 2 2 65535 0 16384 49152 32768 P2 2 2 9 5 5 3 9 P5;2 2;1;....|0|!2 2;tile 64;rule least;kept 0 0;published 1 0;costs 0 0;ncols 2;nrows 2;%~ ~;~ ~;faces 0 0;flows;shown 1 0;end;
-- By each rule a turn is cut at another edge: with the weights 2 9 / 8 4 the edges top, right, bottom and left have the
-- least 2 4 4 2, the means 5 6 6 5, and the products over the maxval 9 of 2 4 3 1.
unwrap --rule least|P2 2 2 65535 0 16384 49152 32768 P2 2 2 9 2 9 8 4|0|!2 2;tile 64;rule least;*costs 2 0;*%0 16384;49152 32768;faces 0 2;*/!2 2;tile 64;rule least;*costs 2 0;*%0 -49152;-16384 -32768;faces 0 2;*
unwrap --workers 8 --rule mean --tile 2|P2 2 2 65535 0 16384 49152 32768 P2 2 2 9 2 9 8 4|0|!2 2;tile 2;rule mean;*costs 5 0;*%0 16384;49152 32768;faces 0 5;*/!2 2;tile 2;rule mean;*costs 5 0;*%0 -49152;-16384 -32768;faces 0 5;*
unwrap --tile 128 --rule product --workers 1|P2 2 2 65535 0 16384 49152 32768 P2 2 2 9 2 9 8 4|0|!2 2;tile 128;rule product;*costs 1 0;*%0 16384;49152 32768;faces 0 1;*
-- Two tiles, of which the second lies a cycle lower than by itself; two light edges of a seam that give way to a heavy
-- one; a mask that separates a tile into two regions.
unwrap --tile 2|P2 4 1 65535 0 40000 14464 54464|0|!4 1;tile 2;rule least;kept * 0;kept * 0;published 1 0;costs 0 0;ncols 4;nrows 1;%0 -25536 -51072 -76608;faces 0;faces 1;flows 0;shown 1 0;end;
unwrap --tile 3|P2 4 3 65535 0 0 0 0 0 0 0 20000 0 0 0 40000 P2 4 3 9 4 4 4 4 4 4 4 4 9 9 9 9|0|!4 3;tile 3;rule least;kept * 0;kept * 0;published 1 0;costs 0 8;ncols 4;nrows 3;%0 0 0 -65536;0 0 0 -45536;0 0 0 -25536;faces 0 *;faces 1;flows -4 -4 8;shown 1 0;end;
unwrap --tile 3|P2 3 4 65535 0 20000 40000 10000 30000 50000 20000 40000 60000 30000 50000 4464 P2 3 4 1 1 1 1 1 1 1 1 1 1 1 1 1 P2 3 4 1 1 0 1 1 0 1 1 0 1 1 1 1|0|!3 4;tile 3;rule least;kept * 0;kept * 0;published 1 0;costs 0 0;ncols 3;nrows 4;%0 ~ 40000;10000 ~ 50000;20000 ~ 60000;30000 50000 70000;faces 0 *;faces 1;flows *;shown 1 0;end;
-- Around a ramp, which version 2 of a report tells: a turn has no residue by it.
unwrap --ramp-x 30000|P2 2 2 65535 0 16384 49152 32768|0|insar-report 2;size 2 2;tile 64;rule least;ramp 30000 0;steep 1;kept 0 0;published 1 0;costs 0 0;ncols 2;nrows 2;%0 16384;-16384 32768;faces 0 *;flows;shown 1 0;end;
unwrap --ramp-y 65535 --ramp-x 0|P2 1 1 65535 7|0|insar-report 2;size 1 1;tile 64;rule least;ramp 0 -1;steep 1;kept 0 0;published 1 0;costs 0 0;ncols 1;nrows 1;%7;faces 0;flows;shown 1 0;end;
-- Scripts: a look, two settle commands and a look; an edit that changes no pixel; an edit of a turn; a look alone,
-- where nothing is solved.
unwrap|P2 4 1 65535 0 20000 40000 60000;analyst;show;settle;settle;show;end;|0|!4 1;tile 64;rule least;shown 1 none;kept 0 0;published 1 0;costs 0 0;ncols 4;nrows 1;%0 20000 40000 60000;faces 0;flows;settled 1 0;shown 1 0;end;
unwrap|P2 4 1 65535 0 20000 40000 60000;analyst;settle;unmask 0 0 0 0;settle;show;end;|0|!4 1;tile 64;rule least;kept 0 0;published 1 0;costs 0 0;ncols 4;nrows 1;%0 20000 40000 60000;faces 0;flows;revised 1 unmask 0 0 0 0;published 1 1;costs 0 0;ncols 4;nrows 1;%0 20000 40000 60000;faces 0;flows;shown 1 1;end;
unwrap|P2 2 2 65535 0 16384 49152 32768;analyst;mask 0 0 0 0;settle;show;end;|0|!2 2;tile 64;rule least;revised 1 mask 0 0 0 0;kept 0 1;published 1 1;costs 0 0;ncols 2;nrows 2;%~ 16384;49152 32768;faces 0 0;flows;shown 1 1;end;
unwrap|P2 4 1 65535 0 20000 40000 60000;analyst;show;analyst;end;|0|!4 1;tile 64;rule least;shown 1 none;end;
-- Readers beside a script: one publication, two by an edit that changes no pixel, none, and eight readers.
watch --reads 1|P2 4 1 65535 0 20000 40000 60000;analyst;show;settle;settle;show;end;|0|published 0;reader 1 0;
watch --reads 1|P2 4 1 65535 0 20000 40000 60000;analyst;settle;unmask 0 0 0 0;settle;show;end;|0|published 0;published 1;reader 1 0 1;/published 0;published 1;reader 1 1;
watch|P2 4 1 65535 0 20000 40000 60000;analyst;show;end;|0|reader 1;
watch --readers 8 --reads 4096 --workers 1|P2 4 1 65535 0 20000 40000 60000;analyst;show;settle;settle;show;end;|0|published 0;reader 1 0;reader 2 0;reader 3 0;reader 4 0;reader 5 0;reader 6 0;reader 7 0;reader 8 0;
-- The first break of a session, by its number and place.
unwrap||3|input fault 1 magic phase;
unwrap|P3;|3|input fault 1 magic phase;
unwrap|P2 1 1 65535 0#|3|input fault 2 form phase byte 14;
unwrap|P2 1 1 65535 0 P5 1 1 0 |3|input fault 2 form weight byte 22;
unwrap|P5;4097 1;65535;|3|input fault 3 size phase 4097 1;
unwrap|P5;4096 1025;65535;|3|input fault 3 size phase 4096 1025;
unwrap|P5;2 1;65534;|3|input fault 4 maxval 65534;
unwrap|P2;2 1;65535;0 70000;|3|input fault 5 sample phase index 1 value 70000;
unwrap|P2 1 1 65535 0 P2 1 1 9 10|3|input fault 5 sample weight index 0 value 10;
unwrap|P5;2 1;65535;...|3|input fault 6 short phase samples 1;
unwrap|P2 1 1 65535 0 P2 1 1 9 1 P5 1 1 1 |3|input fault 6 short mask samples 0;
unwrap|P2 1 1 65535 0 P2 2 1 9 1 1|3|input fault 8 sizes weight;
unwrap|P2 1 1 65535 0 P2 1 1 9 1 P2 1 2 1 1 1|3|input fault 8 sizes mask;
unwrap|P2 1 1 65535 0 P2 1 1 9 1 P2 1 1 1 1 P;|3|input fault 9 line 1;
unwrap|P2 4 1 65535 0 20000 40000 60000;analyst;settel;|3|input fault 9 line 2;
unwrap|P2 4 1 65535 0 20000 40000 60000;settle;|3|input fault 9 line 1;
unwrap|P2 4 1 65535 0 20000 40000 60000;analyst;mask 0 0 4 0;|3|input fault 10 outside line 2;
unwrap|P2 4 1 65535 0 20000 40000 60000;analyst;unmask 2 0 1 0;|3|input fault 10 outside line 2;
unwrap|P2 1 1 65535 0;analyst;analyst;analyst;analyst;analyst;analyst;analyst;analyst;analyst;|3|input fault 11 analysts line 9;
unwrap|P2 4 1 65535 0 20000 40000 60000;analyst;settle;|3|input fault 14 no end;
unwrap|P5;2 1;65535;....end;x|3|input fault 15 after end byte 21;
-- A session and its report are judged; in each of the others one thing is changed.
check|P2 2 2 65535 0 16384 49152 32768;analyst;mask 0 0 0 0;settle;show;end;!2 2;tile 64;rule least;revised 1 mask 0 0 0 0;kept 0 1;published 1 1;costs 0 0;ncols 2;nrows 2;%~ 16384;49152 32768;faces 0 0;flows;shown 1 1;end;|0|accepted;
check|P2 2 2 65535 0 16384 49152 32768;analyst;mask 0 0 0 0;settle;show;end;!2 2;tile 64;rule least;revised 1 mask 0 0 0 0;kept 0 1;published 1 1;costs 0 0;ncols 2;nrows 2;%~ 16384;49152 32768;faces 0 1;flows;shown 1 1;end;|1|refused surface 1 tile 0 face right 0 0;
check|P2 2 2 65535 0 16384 49152 32768;analyst;mask 0 0 0 0;settle;show;end;!2 2;tile 64;rule least;revised 1 mask 0 0 0 0;published 1 1;costs 0 0;ncols 2;nrows 2;%~ 16384;49152 32768;faces 0 0;flows;shown 1 1;end;|1|refused history 2;
check|P2 2 2 65535 0 16384 49152 32768;analyst;mask 0 0 0 0;settle;show;end;!2 2;tile 64;rule least;revised 1 mask 0 0 0 0;kept 0 1;published 1 1;costs 0 0;ncols 2;nrows 2;%~ 16385;49152 32768;faces 0 0;flows;shown 1 1;end;|1|refused surface 1 value 1 0;
check|P2 2 2 65535 0 16384 49152 32768;analyst;mask 0 0 0 0;settle;show;end;!2 2;tile 64;rule least;revised 1 mask 0 0 0 0;kept 0 1;published 1 1;costs 1 0;ncols 2;nrows 2;%~ 16384;49152 32768;faces 0 0;flows;shown 1 1;end;|1|refused surface 1 tilecost 1 0;
check|P2 2 2 65535 0 16384 49152 32768;analyst;mask 0 0 0 0;settle;show;end;!2 2;tile 64;rule least;revised 1 mask 0 0 0 0;kept 0 1;published 1 1;costs 0 0;ncols 2;nrows 2;%~ 16384;49152 32768;faces 0 0;flows;shown 1 1;|3|report fault line 20;
check --tile 3|P2 4 3 65535 0 0 0 0 0 0 0 20000 0 0 0 40000 P2 4 3 9 4 4 4 4 4 4 4 4 9 9 9 9;end;!4 3;tile 3;rule mean;kept 0 0;kept 1 0;published 1 0;costs 0 8;ncols 4;nrows 3;%0 0 0 -65536;0 0 0 -45536;0 0 0 -25536;faces 0 0 0 0 0;faces 1;flows -4 -4 8;shown 1 0;end;|1|refused header 4;
check --tile 3|P2 4 3 65535 0 0 0 0 0 0 0 20000 0 0 0 40000 P2 4 3 9 4 4 4 4 4 4 4 4 9 9 9 9;end;!4 3;tile 4;rule least;kept 0 0;kept 1 0;published 1 0;costs 0 8;ncols 4;nrows 3;%0 0 0 -65536;0 0 0 -45536;0 0 0 -25536;faces 0 0 0 0 0;faces 1;flows -4 -4 8;shown 1 0;end;|3|report fault line 19;
check --tile 3|P2 4 3 65535 0 0 0 0 0 0 0 20000 0 0 0 40000 P2 4 3 9 4 4 4 4 4 4 4 4 9 9 9 9;end;!4 3;tile 3;rule least;kept 0 0;published 1 0;costs 0 8;ncols 4;nrows 3;%0 0 0 -65536;0 0 0 -45536;0 0 0 -25536;faces 0 0 0 0 0;faces 1;flows -4 -4 8;kept 1 0;shown 1 0;end;|1|refused history 2;
check --tile 3|P2 4 3 65535 0 0 0 0 0 0 0 20000 0 0 0 40000 P2 4 3 9 4 4 4 4 4 4 4 4 9 9 9 9;end;!4 3;tile 3;rule least;kept 0 0;kept 0 0;kept 1 0;published 1 0;costs 0 8;ncols 4;nrows 3;%0 0 0 -65536;0 0 0 -45536;0 0 0 -25536;faces 0 0 0 0 0;faces 1;flows -4 -4 8;shown 1 0;end;|1|refused history 2;
check --tile 3|P2 4 3 65535 0 0 0 0 0 0 0 20000 0 0 0 40000 P2 4 3 9 4 4 4 4 4 4 4 4 9 9 9 9;end;!4 3;tile 3;rule least;kept 0 0;kept 1 0;published 1 0;costs 0 8;ncols 4;nrows 3;%0 0 0 -65536;0 0 0 -45536;0 0 0 -25536;faces 0 0 0 0 0;faces 1;flows -4 -4 8;shown 1 none;end;|1|refused history 4;
check --tile 3|P2 4 3 65535 0 0 0 0 0 0 0 20000 0 0 0 40000 P2 4 3 9 4 4 4 4 4 4 4 4 9 9 9 9;end;!4 3;tile 3;rule least;kept 0 0;kept 1 0;published 1 0;costs 0 8;ncols 4;nrows 3;%0 0 0 -65536;0 0 0 -45536;0 0 0 -25536;faces 0 0 0 0 0;faces 1;flows -4 -4 8;end;|1|refused history 4;
check --tile 3|P2 4 3 65535 0 0 0 0 0 0 0 20000 0 0 0 40000 P2 4 3 9 4 4 4 4 4 4 4 4 9 9 9 9;end;!4 3;tile 3;rule least;kept 0 0;kept 1 0;published 1 0;costs 0 8;ncols 4;nrows 3;%0 0 0 -65536;0 0 0 -45536;0 0 0 -25536;faces 0 0 0 0 0;faces 1;flows -4 -4;shown 1 0;end;|1|refused surface 0 seams shape;
check --tile 3|P2 4 3 65535 0 0 0 0 0 0 0 20000 0 0 0 40000 P2 4 3 9 4 4 4 4 4 4 4 4 9 9 9 9;end;!4 3;tile 3;rule least;kept 0 0;kept 1 0;published 1 0;costs 0 8;ncols 4;nrows 3;%0 0 0 -65536;0 0 0 -45536;0 0 0 -25536;faces 0 0 0 0 0;faces 1;flows -5 -3 8;shown 1 0;end;|1|refused surface 0 seams flow right 2 0;
check --tile 3|P2 4 3 65535 0 0 0 0 0 0 0 20000 0 0 0 40000 P2 4 3 9 4 4 4 4 4 4 4 4 9 9 9 9;end;!4 3;tile 3;rule least;kept 0 0;kept 1 0;published 1 0;costs 0 8;ncols 4;nrows 3;%0 0 0 -65536;0 0 0 -45536;0 0 0 -25536;faces 0 0 0 0 0;faces 1;flows -4 -4 9;shown 1 0;end;|1|refused surface 0 seams unbalanced 0;
check --tile 3|P2 4 3 65535 0 0 0 0 0 0 0 20000 0 0 0 40000 P2 4 3 9 4 4 4 4 4 4 4 4 9 9 9 9;end;!4 3;tile 3;rule least;kept 0 0;kept 1 0;published 1 0;costs 0 8;ncols 4;nrows 3;%0 0 0 -65536;0 0 0 -45536;0 0 0 -25536;faces 0 0 0 0 0;faces 1;flows 0 0 0;shown 1 0;end;|1|refused surface 0 seams cost 8 bound 0;
check --tile 3|P2 4 3 65535 0 0 0 0 0 0 0 20000 0 0 0 40000 P2 4 3 9 4 4 4 4 4 4 4 4 9 9 9 9;end;!4 3;tile 3;rule least;kept 0 0;kept 1 0;published 1 0;costs 0 8;ncols 4;nrows 3;%0 0 0 0;0 0 0 20000;0 0 0 40000;faces 0 0 0 0 0;faces 1;flows -4 -4 8;shown 1 0;end;|1|refused surface 0 seams cost 9 bound 8;
check --tile 3|P2 4 3 65535 0 0 0 0 0 0 0 20000 0 0 0 40000 P2 4 3 9 4 4 4 4 4 4 4 4 9 9 9 9;end;!4 3;tile 3;rule least;kept 0 0;kept 1 0;published 1 0;costs 0 8;ncols 4;nrows 3;%65536 65536 65536 0;65536 65536 65536 20000;65536 65536 65536 40000;faces 0 0 0 0 0;faces 1;flows -4 -4 8;shown 1 0;end;|1|refused surface 0 seams anchor 1;
check --tile 3|P2 4 3 65535 0 0 0 0 0 0 0 20000 0 0 0 40000 P2 4 3 9 4 4 4 4 4 4 4 4 9 9 9 9;end;!4 3;tile 3;rule least;kept 0 0;kept 1 0;published 1 0;costs 0 7;ncols 4;nrows 3;%0 0 0 -65536;0 0 0 -45536;0 0 0 -25536;faces 0 0 0 0 0;faces 1;flows -4 -4 8;shown 1 0;end;|1|refused surface 0 seamcost 7 8;
check --tile 3|P2 4 3 65535 0 0 0 0 0 0 0 20000 0 0 0 40000 P2 4 3 9 4 4 4 4 4 4 4 4 9 9 9 9;end;!4 3;tile 3;rule least;kept 0 0;kept 1 0;published 1 0;costs 0 8;ncols 4;nrows 3;%9223372036854775808 0 0 -65536;0 0 0 -45536;0 0 0 -25536;faces 0 0 0 0 0;faces 1;flows -4 -4 8;shown 1 0;end;|3|report fault line 15;
check --rule mean --tile 3|P2 4 3 65535 0 0 0 0 0 0 0 20000 0 0 0 40000 P2 4 3 9 4 4 4 4 4 4 4 4 9 9 9 9;end;!4 3;tile 3;rule least;kept 0 0;kept 1 0;published 1 0;costs 0 8;ncols 4;nrows 3;%0 0 0 -65536;0 0 0 -45536;0 0 0 -25536;faces 0 0 0 0 0;faces 1;flows -4 -4 8;shown 1 0;end;|1|refused header 4;
check --tile 2|P2 4 3 65535 0 0 0 0 0 0 0 20000 0 0 0 40000 P2 4 3 9 4 4 4 4 4 4 4 4 9 9 9 9;end;!4 3;tile 3;rule least;kept 0 0;kept 1 0;published 1 0;costs 0 8;ncols 4;nrows 3;%0 0 0 -65536;0 0 0 -45536;0 0 0 -25536;faces 0 0 0 0 0;faces 1;flows -4 -4 8;shown 1 0;end;|1|refused header 3;
check|P2 4 1 65535 0 20000 40000 60000;analyst;settle;|3|input fault 14 no end;
-- The terms of a report are compared with those of the words; version 1 has the plain ones.
check|P2 4 1 65535 0 20000 40000 60000;end;insar-report 2;size 4 1;tile 64;rule least;ramp 0 0;steep 1;kept 0 0;published 1 0;costs 0 0;ncols 4;nrows 1;%0 20000 40000 60000;faces 0;flows;shown 1 0;end;|0|accepted;
check --ramp-x 30000|P2 4 1 65535 0 40000 14464 54464;end;insar-report 2;size 4 1;tile 64;rule least;ramp 30000 0;steep 1;kept 0 0;published 1 0;costs 0 0;ncols 4;nrows 1;%0 40000 80000 120000;faces 0;flows;shown 1 0;end;|0|accepted;
check --ramp-x 30000|P2 4 1 65535 0 40000 14464 54464;end;!4 1;tile 64;rule least;kept 0 0;published 1 0;costs 0 0;ncols 4;nrows 1;%0 40000 80000 120000;faces 0;flows;shown 1 0;end;|1|refused header 5;
check --ramp-x 30000 --ramp-y 1|P2 4 1 65535 0 40000 14464 54464;end;insar-report 2;size 4 1;tile 64;rule least;ramp 30000 0;steep 1;kept 0 0;published 1 0;costs 0 0;ncols 4;nrows 1;%0 40000 80000 120000;faces 0;flows;shown 1 0;end;|1|refused header 5;
check --ramp-x 30000|P2 4 1 65535 0 40000 14464 54464;end;insar-report 2;size 4 1;tile 64;rule least;ramp 30000 0;steep 2;kept 0 0;published 1 0;costs 0 0;ncols 4;nrows 1;%0 40000 80000 120000;faces 0;flows;shown 1 0;end;|1|refused header 6;
check --ramp-x 30000|P2 4 1 65535 0 40000 14464 54464;end;insar-report 2;size 4 1;tile 64;rule least;ramp 30000 0;steep 17;kept 0 0;published 1 0;costs 0 0;ncols 4;nrows 1;%0 40000 80000 120000;faces 0;flows;shown 1 0;end;|3|report fault line 6;
check|P2 4 1 65535 0 20000 40000 60000;end;insar-report 2;size 4 1;tile 64;rule least;ramp 32768 0;steep 1;end;|3|report fault line 5;
check|P2 4 1 65535 0 20000 40000 60000;end;insar-report 3;|3|report fault line 1;
-- The last surface alone, as a grid, and nothing where none was published.
grid --tile 2|P2 4 1 65535 0 40000 14464 54464|0|ncols 4;nrows 1;%0 -25536 -51072 -76608;
grid --tile 3|P2 4 3 65535 0 0 0 0 0 0 0 20000 0 0 0 40000 P2 4 3 9 4 4 4 4 4 4 4 4 9 9 9 9|0|ncols 4;nrows 3;%0 0 0 -65536;0 0 0 -45536;0 0 0 -25536;
grid --tile 3|P2 3 4 65535 0 20000 40000 10000 30000 50000 20000 40000 60000 30000 50000 4464 P2 3 4 1 1 1 1 1 1 1 1 1 1 1 1 1 P2 3 4 1 1 0 1 1 0 1 1 0 1 1 1 1|0|ncols 3;nrows 4;%0 ~ 40000;10000 ~ 50000;20000 ~ 60000;30000 50000 70000;
grid|P2 2 2 65535 0 16384 49152 32768;analyst;settle;mask 0 0 0 0;settle;end;|0|ncols 2;nrows 2;%~ 16384;49152 32768;
grid|P2 4 1 65535 0 20000 40000 60000;analyst;show;end;|0|
grid||3|input fault 1 magic phase;
-- Around a ramp, in one tile and in two, downwards, and at both ends of the range of slopes.
grid --ramp-x 30000|P2 4 1 65535 0 40000 14464 54464|0|ncols 4;nrows 1;%0 40000 80000 120000;
grid --tile 2 --ramp-x 30000|P2 4 1 65535 0 40000 14464 54464|0|ncols 4;nrows 1;%0 40000 80000 120000;
grid --ramp-y 30000 --tile 2|P2 1 4 65535 0 40000 14464 54464|0|ncols 1;nrows 4;%0;40000;80000;120000;
grid --ramp-x 32768|P2 2 1 65535 0 0|0|ncols 2;nrows 1;%0 -65536;
grid --ramp-x 32767|P2 2 1 65535 0 0|0|ncols 2;nrows 1;%0 0;
-- The four lines of a session that is made; how many workers there are changes none.
trial 0 1 1||0|pixels 1;residues 0;unmasked 1;cost 0;
trial 7 64 64 --tile 32||0|pixels 4096;residues 450;unmasked 3834;cost 16469;
trial 7 64 64 --tile 32 --workers 1||0|pixels 4096;residues 450;unmasked 3834;cost 16469;
trial 7 64 64 --workers 4 --tile 32||0|pixels 4096;residues 450;unmasked 3834;cost 16469;
trial 7 64 64 --tile 32 --ramp-x 32768||0|pixels 4096;residues 1807;unmasked 3834;cost 61500;
-- Departures of several cycles that cost more: a turn costs 3 as before, and its face 4 is above two weights by 1 in sum. Across
-- the seam of two tiles the last column departs by 0, 1 and 2 where edges weigh 9, 1 and 4, which costs 9; with the steepness 3
-- it is a cycle lower, which costs 13 in place of 17. A test session whose least costs a solver of linear programs found.
unwrap --steep 3|P2 2 2 65535 0 16384 49152 32768 P2 2 2 9 5 5 3 9|0|insar-report 2;size 2 2;tile 64;rule least;ramp 0 0;steep 3;kept 0 0;published 1 0;costs 3 0;ncols 2;nrows 2;%0 16384;-16384 32768;faces 0 3;flows;shown 1 0;end;/insar-report 2;size 2 2;tile 64;rule least;ramp 0 0;steep 3;kept 0 0;published 1 0;costs 3 0;ncols 2;nrows 2;%0 16384;49152 32768;faces 0 3;flows;shown 1 0;end;
check --steep 3|P2 2 2 65535 0 16384 49152 32768 P2 2 2 9 5 5 3 9;end;insar-report 2;size 2 2;tile 64;rule least;ramp 0 0;steep 3;kept 0 0;published 1 0;costs 3 0;ncols 2;nrows 2;%0 16384;-16384 32768;faces 0 3;flows;shown 1 0;end;|0|accepted;
check --steep 3|P2 2 2 65535 0 16384 49152 32768 P2 2 2 9 5 5 3 9;end;insar-report 2;size 2 2;tile 64;rule least;ramp 0 0;steep 3;kept 0 0;published 1 0;costs 3 0;ncols 2;nrows 2;%0 16384;-16384 32768;faces 0 4;flows;shown 1 0;end;|1|refused surface 0 tile 0 cost 3 bound 2;
check|P2 2 2 65535 0 16384 49152 32768 P2 2 2 9 5 5 3 9;end;insar-report 2;size 2 2;tile 64;rule least;ramp 0 0;steep 3;kept 0 0;published 1 0;costs 3 0;ncols 2;nrows 2;%0 16384;-16384 32768;faces 0 3;flows;shown 1 0;end;|1|refused header 6;
check --steep 3|P2 2 2 65535 0 16384 49152 32768 P2 2 2 9 5 5 3 9;end;insar-report 2;size 2 2;tile 64;rule least;ramp 0 0;steep 2;kept 0 0;published 1 0;costs 3 0;ncols 2;nrows 2;%0 16384;-16384 32768;faces 0 3;flows;shown 1 0;end;|1|refused header 6;
grid --tile 3|P2 4 3 65535 0 0 0 0 33536 33536 33536 32000 1536 1536 1536 64000 P2 4 3 9 9 9 9 9 1 1 1 1 4 4 4 4|0|ncols 4;nrows 3;%0 0 0 0;-32000 -32000 -32000 32000;-64000 -64000 -64000 64000;
grid --tile 3 --steep 3|P2 4 3 65535 0 0 0 0 33536 33536 33536 32000 1536 1536 1536 64000 P2 4 3 9 9 9 9 9 1 1 1 1 4 4 4 4|0|ncols 4;nrows 3;%0 0 0 -65536;-32000 -32000 -32000 -33536;-64000 -64000 -64000 -1536;
unwrap --tile 3 --steep 3|P2 4 3 65535 0 0 0 0 33536 33536 33536 32000 1536 1536 1536 64000 P2 4 3 9 9 9 9 9 1 1 1 1 4 4 4 4|0|insar-report 2;size 4 3;tile 3;rule least;ramp 0 0;steep 3;*costs 0 13;*
check --tile 3 --steep 3|P2 4 3 65535 0 0 0 0 33536 33536 33536 32000 1536 1536 1536 64000 P2 4 3 9 9 9 9 9 1 1 1 1 4 4 4 4;end;insar-report 2;size 4 3;tile 3;rule least;ramp 0 0;steep 3;kept 0 0;kept 1 0;published 1 0;costs 0 13;ncols 4;nrows 3;%0 0 0 -65536;-32000 -32000 -32000 -33536;-64000 -64000 -64000 -1536;faces 0 0 0 0 0;faces 1;flows -9 0 9;shown 1 0;end;|0|accepted;
trial 7 64 64 --tile 32 --ramp-x 32768 --steep 4||0|pixels 4096;residues 1807;unmasked 3834;cost 61525;
grid --steep 16|P2 1 1 65535 7|0|ncols 1;nrows 1;%7;
grid --steep 0|P2 1 1 65535 7|2|words refused;
grid --steep 17|P2 1 1 65535 7|2|words refused;
screen --steep 1|P2 1 1 65535 7|2|words refused;
-- A first mask screened: the middle pixel of three is weak, and each of the others is a patch of one pixel, with one strong
-- pixel within a column of it and two within two; nothing is dropped by default, and all by the greatest numbers.
screen --weight 2|P2 3 1 65535 0 0 0 P2 3 1 9 5 1 5|0|P5;3 1;65535;......P5;3 1;9;\x05\x01\x05P5;3 1;1;\x01.\x01analyst;settle;show;end;
screen --weight 2 --patch 2|P2 3 1 65535 0 0 0 P2 3 1 9 5 1 5|0|P5;3 1;65535;......P5;3 1;9;\x05\x01\x05P5;3 1;1;...analyst;settle;show;end;
screen --weight 2 --radius 1 --count 2|P2 3 1 65535 0 0 0 P2 3 1 9 5 1 5|0|P5;3 1;65535;......P5;3 1;9;\x05\x01\x05P5;3 1;1;...analyst;settle;show;end;
screen --weight 2 --radius 1 --count 1|P2 3 1 65535 0 0 0 P2 3 1 9 5 1 5|0|P5;3 1;65535;......P5;3 1;9;\x05\x01\x05P5;3 1;1;\x01.\x01analyst;settle;show;end;
screen --count 2 --weight 2 --radius 2|P2 3 1 65535 0 0 0 P2 3 1 9 5 1 5|0|P5;3 1;65535;......P5;3 1;9;\x05\x01\x05P5;3 1;1;\x01.\x01analyst;settle;show;end;
screen|P2 3 1 65535 0 0 0 P2 3 1 9 5 1 5|0|P5;3 1;65535;......P5;3 1;9;\x05\x01\x05P5;3 1;1;\x01\x01\x01analyst;settle;show;end;
screen|P2 3 1 65535 0 0 0 P2 3 1 9 5 1 5 P2 3 1 9 4 0 9|0|P5;3 1;65535;......P5;3 1;9;\x05\x01\x05P5;3 1;1;\x01.\x01analyst;settle;show;end;
screen --weight 65535 --radius 64 --count 16641 --patch 4194304 --tile 128|P2 3 1 65535 0 0 0 P2 3 1 9 5 1 5|0|P5;3 1;65535;......P5;3 1;9;\x05\x01\x05P5;3 1;1;...analyst;settle;show;end;
-- Of 3 by 3 pixels the corners have four near, the others six or nine: five in one patch. The script stays.
screen --radius 1 --count 6 --patch 5|P2 3 3 65535 0 0 0 0 0 0 0 0 0;analyst;mask 0 0 1 2;show;end;|0|P5;3 3;65535;..................P5;3 3;1;\x01\x01\x01\x01\x01\x01\x01\x01\x01P5;3 3;1;.\x01.\x01\x01\x01.\x01.analyst;mask 0 0 1 2;show;end;
screen --radius 1 --count 6 --patch 6|P2 3 3 65535 0 0 0 0 0 0 0 0 0;analyst;mask 0 0 1 2;show;end;|0|P5;3 3;65535;..................P5;3 3;1;\x01\x01\x01\x01\x01\x01\x01\x01\x01P5;3 3;1;.........analyst;mask 0 0 1 2;show;end;
screen|P2 1 1 65535 0;analyst;settle;|3|input fault 14 no end;
screen --tile 2|P5;2 1;65534;|3|input fault 4 maxval 65534;
-- Three grids around a loop: a whole cycle over half of a row; an exact half cycle; no value; three patches in a row; a
-- patch in the second row, beside a pixel without a value.
closure|ncols 4;nrows 1;%0 10 20 30;ncols 4;nrows 1;%0 0 0 0;ncols 4;nrows 1;%0 10 -65516 -65506;|0|closure 4 2 1;patch 2 0 2 1;ncols 4;nrows 1;%0 0 65536 65536;ncols 4;nrows 1;%0 0 1 1;
closure|ncols 2;nrows 1;%32768 -32768;ncols 2;nrows 1;%0 0;ncols 2;nrows 1;%0 0;|0|closure 2 1 1;patch 0 0 1 1;ncols 2;nrows 1;%32768 -32768;ncols 2;nrows 1;%1 0;
closure|ncols 2;nrows 1;%32768 -32768;ncols 2;nrows 1;%0 0;ncols 2;nrows 1;%~ ~;|0|closure 0 0 0;ncols 2;nrows 1;%~ ~;ncols 2;nrows 1;%~ ~;
closure|ncols 4;nrows 1;%65536 131072 32767 -65536;ncols 4;nrows 1;%0 0 0 0;ncols 4;nrows 1;%0 0 0 0;|0|closure 4 3 3;patch 0 0 1 1;patch 1 0 1 2;patch 3 0 1 -1;ncols 4;nrows 1;%65536 131072 32767 -65536;ncols 4;nrows 1;%1 2 0 -1;
closure|ncols 2;nrows 2;%0 ~;65536 65540;ncols 2;nrows 2;%0 0;0 0;ncols 2;nrows 2;%0 5;0 0;|0|closure 3 2 1;patch 0 1 2 1;ncols 2;nrows 2;%0 ~;65536 65540;ncols 2;nrows 2;%0 ~;1 1;
-- The first break of three grids, and a closure that does not fit.
closure||3|input fault 19 grid 1 line 1;
closure|ncols 1;nrows 1;%5;|3|input fault 19 grid 2 line 1;
closure|ncols 1;nrows 1;%5;ncols 1;nrows 1;%0;ncols 1;nrows 1;%9223372036854775808;|3|input fault 19 grid 3 line 7;
closure|ncols 2;nrows 1;%32768 -32768;ncols 2;nrows 1;%0 0;ncols 1;nrows 1;%0;|3|input fault 21 grid 3 sizes;
closure|ncols 1;nrows 1;%0;ncols 1;nrows 1;%0;ncols 1;nrows 1;%0;x|3|input fault 22 after grids byte 261;
closure|ncols 2;nrows 1;%9223372036854775807 0;ncols 2;nrows 1;%1 0;ncols 2;nrows 1;%0 0;|3|input fault 23 wide 0 0;
closure|ncols 1;nrows 2;%0;-9223372036854775807;ncols 1;nrows 2;%0;0;ncols 1;nrows 2;%0;1;|3|input fault 23 wide 0 1;
-- Displacements: four pixels, their blocks, thirds rounded down, a block without a value, and a reference below.
displacement --wavelength 56000000|ncols 4;nrows 1;%0 -25536 -51072 -76608;|0|ncols 4;nrows 1;%0 -10910157 -21820313 -32730469;
displacement --wavelength 56000000 --block 2|ncols 4;nrows 1;%0 -25536 -51072 -76608;|0|ncols 2;nrows 1;%-5455079 -27275391;
displacement --wavelength 131072 --block 64|ncols 3;nrows 1;%0 1 4;|0|ncols 1;nrows 1;%1;
displacement --wavelength 131072 --block 3|ncols 3;nrows 1;%0 -1 -4;|0|ncols 1;nrows 1;%-2;
displacement --block 2 --wavelength 131072|ncols 4;nrows 1;%7 ~ ~ ~;|0|ncols 2;nrows 1;%0 ~;
displacement --wavelength 1 --y 1|ncols 1;nrows 2;%5;131077;|0|ncols 1;nrows 2;%-1;0;
-- No reference pixel, which is told before a block that does not fit; such a block, by its column and row; broken grids.
displacement --wavelength 56000000 --x 4|ncols 4;nrows 1;%0 -25536 -51072 -76608;|3|input fault 24 reference;
displacement --wavelength 1000000000 --x 4095 --y 4095 --block 64|ncols 4;nrows 1;%0 -25536 -51072 -76608;|3|input fault 24 reference;
displacement --wavelength 1000000000 --x 1|ncols 2;nrows 1;%9223372036854775807 ~;|3|input fault 24 reference;
displacement --wavelength 1000000000 --block 2|ncols 2;nrows 3;%0 0;0 0;0 9223372036854775807;|3|input fault 23 wide 0 1;
displacement --wavelength 1||3|input fault 19 grid 1 line 1;
displacement --wavelength 1|ncols 1;nrows 1;%0;x|3|input fault 22 after grids byte 87;
-- The nearest surface: exact half cycles from above and from below, a larger step of either sign, a masked pixel, the ends of
-- 64 bits; a script that is not run.
nearest|P2 4 1 65535 0 20000 40000 60000;end;ncols 4;nrows 1;%32768 -12768 100000 -100000;|0|ncols 4;nrows 1;%0 -45536 105536 -71072;
nearest|P2 2 2 65535 0 0 65535 65535;end;ncols 2;nrows 2;%32767 32769;-32768 -32769;|0|ncols 2;nrows 2;%0 65536;-1 -65537;
nearest|P2 3 1 65535 5 65535 1 P2 3 1 1 1 1 1 P2 3 1 1 0 1 1;analyst;mask 1 0 2 0;settle;end;ncols 3;nrows 1;%~ 9223372036854775807 -9223372036854775807;|0|ncols 3;nrows 1;%~ 9223372036854775807 -9223372036854775807;
-- A fault of the session, the first break of the grid, another size, a missing value, and one that does not fit: in this order.
nearest|P2 1 1 65535 0|3|input fault 14 no end;
nearest|P2 1 1 65535 0;end;|3|input fault 19 grid 1 line 1;
nearest|P2 1 1 65535 0;end;ncols 2;nrows 1;%~ ~;x|3|input fault 22 after grids byte 146;
nearest|P2 1 1 65535 0;end;ncols 2;nrows 1;%~ ~;|3|input fault 21 grid 1 sizes;
nearest|P2 1 2 65535 0 0;end;ncols 2;nrows 1;%0 0;|3|input fault 21 grid 1 sizes;
nearest|P2 2 2 65535 0 0 0 0;end;ncols 2;nrows 2;%9223372036854775807 0;0 ~;|3|input fault 25 missing 1 1;
nearest|P2 2 2 65535 0 0 0 0;end;ncols 2;nrows 2;%0 0;9223372036854775807 9223372036854775807;|3|input fault 23 wide 0 1;
nearest|P2 2 1 65535 1 0;end;ncols 2;nrows 1;%-9223372036854775807 -9223372036854775807;|3|input fault 23 wide 1 0;
-- The least of all over the whole raster. No residue; a turn, with two surfaces that cost least; one of its pixels masked, and
-- all; rasters with no cell; a raster whose edges at the bottom, at the left and between two cells weigh 3, 4 and 3.
whole|P2 2 2 65535 0 20000 40000 60000|0|^2 2;rule least;ramp 0 0;steep 1;cost 0;ncols 2;nrows 2;%0 20000;-25536 -5536;faces *;end;
whole|P2 2 2 65535 0 16384 49152 32768 P2 2 2 9 5 5 3 9|0|^2 2;rule least;ramp 0 0;steep 1;cost 3;ncols 2;nrows 2;%0 16384;-16384 32768;faces 3;end;/^2 2;rule least;ramp 0 0;steep 1;cost 3;ncols 2;nrows 2;%0 16384;49152 32768;faces 3;end;
whole|P2 2 2 65535 0 16384 49152 32768 P2 2 2 9 5 5 3 9 P2 2 2 1 0 1 1 1|0|^2 2;rule least;ramp 0 0;steep 1;cost 0;ncols 2;nrows 2;%~ 16384;49152 32768;faces 0;end;
whole|P2 2 2 65535 0 16384 49152 32768 P2 2 2 9 5 5 3 9 P5;2 2;1;....|0|^2 2;rule least;ramp 0 0;steep 1;cost 0;ncols 2;nrows 2;%~ ~;~ ~;faces 0;end;
whole|P2 4 1 65535 0 40000 14464 54464|0|^4 1;rule least;ramp 0 0;steep 1;cost 0;ncols 4;nrows 1;%0 -25536 -51072 -76608;end;
whole --steep 16|P2 1 2 65535 0 32768|0|^1 2;rule least;ramp 0 0;steep 16;cost 0;ncols 1;nrows 2;%0;-32768;end;
whole --workers 8|P2 3 2 65535 0 16384 16384 49152 32768 32768 P2 3 2 9 5 5 2 4 3 9|0|^3 2;rule least;ramp 0 0;steep 1;cost 3;ncols 3;nrows 2;%0 16384 16384;-16384 32768 32768;faces 3 *;end;
whole --rule mean --workers 1|P2 2 2 65535 0 16384 49152 32768 P2 2 2 9 2 9 8 4|0|^2 2;rule mean;*cost 5;*faces 5;end;
whole --ramp-x 30000|P2 2 2 65535 0 16384 49152 32768|0|^2 2;rule least;ramp 30000 0;steep 1;cost 0;ncols 2;nrows 2;%0 16384;-16384 32768;faces *;end;
-- What costs 8 in two tiles costs 4 in all: the residue is cut at the edge of weight 4 beside it. The first mask is taken, and
-- the script that masks a pixel of a turn is not run.
whole|P2 4 3 65535 0 0 0 0 0 0 0 20000 0 0 0 40000 P2 4 3 9 4 4 4 4 4 4 4 4 9 9 9 9|0|^4 3;rule least;ramp 0 0;steep 1;cost 4;ncols 4;nrows 3;%0 0 0 0;0 0 0 20000;0 0 0 -25536;faces *;faces *;end;
whole|P2 2 2 65535 0 16384 49152 32768;analyst;mask 0 0 0 0;settle;show;end;|0|^2 2;*cost 1;*faces 1;end;
whole||3|input fault 1 magic phase;
whole|P2 4 1 65535 0 20000 40000 60000;analyst;settle;|3|input fault 14 no end;
whole|P5;2 1;65535;....end;x|3|input fault 15 after end byte 21;
-- A raster without tiles may have 65,535 pixels a side and 268,435,456 in all, and the text of its surface as well.
whole|P5;65535 4096;65535;|3|input fault 6 short phase samples 0;
whole|P5;65536 1;65535;|3|input fault 3 size phase 65536 1;
whole|P5;65535 4097;65535;|3|input fault 3 size phase 65535 4097;
check-whole|P5;1 65536;65535;|3|input fault 3 size phase 1 65536;
check-whole|P2 1 1 65535 0;end;^65535 4096;|3|report fault line 3;
check-whole|P2 1 1 65535 0;end;^65536 1;|3|report fault line 2;
check-whole|P2 1 1 65535 0;end;^65535 4097;|3|report fault line 2;
parts|P5;65536 1;65535;|3|input fault 3 size phase 65536 1;
-- A surface of the whole raster is judged; in each of the others one thing is changed. Faces that are wrong at two edges are
-- refused at the first, and a wrong line of the head before a wrong value.
check-whole|P2 2 2 65535 0 16384 49152 32768 P2 2 2 9 5 5 3 9;end;^2 2;rule least;ramp 0 0;steep 1;cost 3;ncols 2;nrows 2;%0 16384;-16384 32768;faces 3;end;|0|accepted;
check-whole|P2 2 2 65535 0 16384 49152 32768 P2 2 2 9 5 5 3 9;end;^2 2;rule least;ramp 0 0;steep 1;cost 3;ncols 2;nrows 2;%0 16384;49152 32768;faces 3;end;|0|accepted;
check-whole|P2 2 2 65535 0 16384 49152 32768 P2 2 2 9 5 5 3 9;end;^2 2;rule least;ramp 0 0;steep 1;cost 3;ncols 2;nrows 2;%0 16384;-16384 32768;faces 4;end;|1|refused face down 0 0;
check-whole|P2 2 2 65535 0 16384 49152 32768 P2 2 2 9 5 5 3 9;end;^2 2;rule least;ramp 0 0;steep 1;cost 2;ncols 2;nrows 2;%0 16384;-16384 32768;faces 2;end;|1|refused cost;
check-whole|P2 2 2 65535 0 16384 49152 32768 P2 2 2 9 5 5 3 9;end;^2 2;rule least;ramp 0 0;steep 1;cost 4;ncols 2;nrows 2;%0 16384;-16384 32768;faces 3;end;|1|refused told;
check-whole|P2 2 2 65535 0 16384 49152 32768 P2 2 2 9 5 5 3 9;end;^2 2;rule least;ramp 0 0;steep 1;cost 3;ncols 2;nrows 2;%0 16385;-16384 32768;faces 3;end;|1|refused value 1 0;
check-whole|P2 2 2 65535 0 16384 49152 32768 P2 2 2 9 5 5 3 9;end;^2 2;rule least;ramp 0 0;steep 1;cost 3;ncols 2;nrows 2;%0 16384;~ 32768;faces 3;end;|1|refused value 0 1;
check-whole|P2 2 2 65535 0 16384 49152 32768 P2 2 2 9 5 5 3 9 P2 2 2 1 0 1 1 1;end;^2 2;rule least;ramp 0 0;steep 1;cost 0;ncols 2;nrows 2;%0 16384;49152 32768;faces 0;end;|1|refused value 0 0;
check-whole|P2 2 2 65535 0 16384 49152 32768 P2 2 2 9 5 5 3 9;end;^2 2;rule least;ramp 0 0;steep 1;cost 3;ncols 2;nrows 2;%65536 81920;49152 98304;faces 3;end;|1|refused value 0 0;
check-whole|P2 2 2 65535 0 16384 49152 32768 P2 2 2 9 5 5 3 9;end;^1 2;rule mean;ramp 0 0;steep 1;cost 3;ncols 1;nrows 2;%0;-16384;end;|1|refused header 2;
check-whole|P2 2 2 65535 0 16384 49152 32768 P2 2 2 9 5 5 3 9;end;^2 2;rule mean;ramp 0 0;steep 1;cost 3;ncols 2;nrows 2;%1 16384;-16384 32768;faces 3;end;|1|refused header 3;
check-whole|P2 2 2 65535 0 16384 49152 32768 P2 2 2 9 5 5 3 9;end;^2 2;rule least;ramp 0 1;steep 1;cost 3;ncols 2;nrows 2;%0 16384;-16384 32768;faces 3;end;|1|refused header 4;
check-whole --steep 2|P2 2 2 65535 0 16384 49152 32768 P2 2 2 9 5 5 3 9;end;^2 2;rule least;ramp 0 0;steep 1;cost 3;ncols 2;nrows 2;%0 16384;-16384 32768;faces 3;end;|1|refused header 5;
check-whole|P2 3 2 65535 0 16384 16384 49152 32768 32768 P2 3 2 9 5 5 2 4 3 9;end;^3 2;rule least;ramp 0 0;steep 1;cost 3;ncols 3;nrows 2;%0 16384 16384;-16384 32768 32768;faces 3 0;end;|0|accepted;
check-whole|P2 3 2 65535 0 16384 16384 49152 32768 32768 P2 3 2 9 5 5 2 4 3 9;end;^3 2;rule least;ramp 0 0;steep 1;cost 3;ncols 3;nrows 2;%0 16384 16384;-16384 32768 32768;faces 0 3;end;|1|refused face right 1 0;
check-whole|P2 2 2 65535 0 16384 49152 32768 P2 2 2 9 5 5 3 9;end;^2 2;rule least;ramp 0 0;steep 1;cost 3;ncols 2;nrows 2;%0 16384;-16384 32768;faces 3 0;end;|3|report fault line 15;
check-whole|P2 2 2 65535 0 16384 49152 32768 P2 2 2 9 5 5 3 9;end;^2 2;rule least;ramp 0 0;steep 1;cost 3;ncols 2;nrows 2;%0 16384;-16384 32768;faces 3;|3|report fault line 16;
check-whole|P2 2 2 65535 0 16384 49152 32768 P2 2 2 9 5 5 3 9;end;^2 2;rule least;ramp 0 0;steep 1;cost 3;ncols 2;nrows 2;%0 16384;-16384 32768;faces 3;end;x|3|report fault line 17;
check-whole|P2 4 1 65535 0 20000 40000 60000;end;!4 1;tile 64;rule least;|3|report fault line 1;
check-whole|P2 4 1 65535 0 20000 40000 60000;analyst;settle;|3|input fault 14 no end;
-- Words that are read in other spellings, so that the missing source is what is refused.
unwrap --tile=64||3|input fault 1 magic phase;
unwrap --tile 02||3|input fault 1 magic phase;
unwrap --workers +2||3|input fault 1 magic phase;
-- Words that are refused, before the source is read.
||2|words refused;
--help||2|words refused;
help||2|words refused;
unwrap --help||2|words refused;
chec||2|words refused;
check check||2|words refused;
check --workers 2||2|words refused;
check --tile 129||2|words refused;
--tile 2 unwrap||2|words refused;
unwrap --rule||2|words refused;
unwrap --rule max||2|words refused;
unwrap --rule mean x||2|words refused;
unwrap --til 64||2|words refused;
unwrap --tile 64 --tile 64||2|words refused;
unwrap --tile 1||2|words refused;
unwrap --tile 129||2|words refused;
unwrap --tile --workers 2||2|words refused;
unwrap --ramp-x 65536||2|words refused;
check --ramp-y 65536||2|words refused;
grid --ramp-x -1||2|words refused;
unwrap --workers 0||2|words refused;
unwrap --workers 9||2|words refused;
grid --workers 2 --tile||2|words refused;
trial 0 1||2|words refused;
trial 0 4097 1||2|words refused;
trial 18446744073709551616 1 1||2|words refused;
trial 0 4096 4096||2|words refused;
screen --weight 65536||2|words refused;
screen --radius 65||2|words refused;
screen --count 16642||2|words refused;
screen --patch 4194305||2|words refused;
screen --tile 1||2|words refused;
screen --rule least||2|words refused;
screen --workers 1||2|words refused;
closure x||2|words refused;
closure --tile 2||2|words refused;
nearest x||2|words refused;
nearest --tile 2||2|words refused;
displacement||2|words refused;
displacement --x 1||2|words refused;
displacement --wavelength 0||2|words refused;
displacement --wavelength 1000000001||2|words refused;
displacement --wavelength 1 --x 4096||2|words refused;
displacement --wavelength 1 --y 4096||2|words refused;
displacement --wavelength 1 --block 0||2|words refused;
displacement --wavelength 1 --block 65||2|words refused;
watch --readers 9||2|words refused;
watch --reads 0||2|words refused;
watch --reads 4097||2|words refused;
whole --tile 64||2|words refused;
whole --workers 9||2|words refused;
whole --steep 17||2|words refused;
check-whole --tile 64||2|words refused;
check-whole --workers 2||2|words refused;
check-whole --rule max||2|words refused;
";

/// What a letter of the table stands for, if for more than itself.
fn meaning(letter: char) -> Option<&'static str> {
    match letter {
        ';' => Some("\n"),
        '.' => Some("\0"),
        '~' => Some("-9223372036854775808"),
        '%' => Some("xllcorner 0\nyllcorner 0\ncellsize 1\nNODATA_value -9223372036854775808\n"),
        '!' => Some("insar-report 1\nsize "),
        '^' => Some("insar-whole 1\nsize "),
        _ => None,
    }
}

/// What a text of the table stands for.
pub fn spelled(rt: &impl Abort, alloc: Global, text: &str) -> String {
    let mut whole = String::new(alloc);
    for letter in text.chars() {
        let added = match meaning(letter) {
            Some(piece) => whole.push_str(piece),
            None => whole.push(letter),
        };
        added.expect(rt, "memory");
    }
    whole
}

/// Whether a text is the pieces of a pattern, with any text at each `*`.
fn is_of(text: &str, pattern: &str) -> bool {
    let mut rest = text;
    for (place, piece) in pattern.split('*').enumerate() {
        match rest.split_once(piece) {
            Some((before, after)) if place > 0 || before.is_empty() => rest = after,
            _ => return false,
        }
    }
    rest.is_empty() || pattern.ends_with('*')
}

/// Whether a text is of one of the patterns.
pub fn is_one_of(text: &str, patterns: &str) -> bool {
    for pattern in patterns.split('/') {
        if is_of(text, pattern) {
            return true;
        }
    }
    false
}

/// Whether a run wrote this: to the sink at status 0 and 1, or else the line to `diag`.
fn has_written(done: &Ended, written: &str) -> bool {
    if done.status < 2 {
        done.line.is_empty() && is_one_of(&done.text, written)
    } else {
        done.text.is_empty() && done.line.as_str() == written
    }
}

/// Runs a row, if the line has one: then its words and bytes give its status and what it writes.
pub fn judge<R: Alloc<A = Global> + Threads + Wait + Sync + Abort>(rt: &R, row: &str) -> u32 {
    let Some((words, rest)) = row.split_once('|') else {
        return 0;
    };
    let mut fields = rest.split('|');
    let bytes = spelled(rt, rt.alloc(), field(&mut fields));
    let done = run(rt, words, bytes.as_bytes(), 7, &NOTHING, &OpenGate);
    let status = field(&mut fields).parse::<u8>().expect(rt, "a status");
    let written = spelled(rt, rt.alloc(), field(&mut fields));
    assert!(rt;
        done.status == status && has_written(&done, &written),
        "{row}"
    );
    1
}

#[test]
fn rows_are_answered(rt: HostRuntime) {
    let mut count = 0u32;
    for row in ROWS.lines() {
        count = count.saturating_add(judge(&rt, row));
    }
    assert!(rt; count == 253);
}
