//! Laws of the definitions. The functions do nothing; each contract is the law.

ghost use Rattle.grid_writer.specs.Grids.{GridTextsAreUnique, IsGridText};
ghost use Rattle.grid_writer.specs.Laws.{WrittenGridsAreGrids};
ghost use Rattle.grid_writer.specs.ManyGrids.{GridTextsDoNotBreak, OneGridsBreak};
ghost use Rattle.text_lines.specs.Reading.{OneBrokenLine, TextOrBreak};

/// No two grids have one text: grids with one text have one size and the same value at each pixel.
pub fn grid_texts_are_unique()
    ensures { GridTextsAreUnique }
{}

/// What `write_grid` writes is the text of a grid, which `read_grid` takes.
pub fn written_grids_are_grids()
    ensures { WrittenGridsAreGrids }
{}

/// Of bytes, so many of which are let out, a grid stands in front, or a line is the first that no grid has there, or the
/// limit cuts a line that a grid needs.
pub fn grid_or_broken_line()
    ensures either { TextOrBreak IsGridText }
    ensures one { OneBrokenLine IsGridText }
{}

/// Bytes that should be several grids of one size have one first break. The texts of such grids, if the limit lets them all
/// out, have none.
pub fn one_grids_break()
    ensures one { OneGridsBreak }
    ensures none { GridTextsDoNotBreak }
{}
