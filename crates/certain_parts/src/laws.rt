//! Laws of the definitions. The functions do nothing; each contract is the law.

ghost use Rattle.certain_parts.specs.Laws.{
  ExcessesAddUp,
  ExcessesAreLeastAtTheSurface,
  LabelsTellParts,
  MarginsBoundExcesses,
  OthersCostMore,
  PartsAreLarge,
  PartsAreUnique,
  PartsHaveOneText,
  SurfacesAgreeByLabels,
  SurfacesAgreeInParts,
  ToldIsCertified,
};

/// At each edge no departure has an excess below 0, and that of a certified surface is 0.
pub fn excesses_are_least_at_the_surface()
    ensures { ExcessesAreLeastAtTheSurface }
{}

/// Any congruent surface costs as much more than a certified one as the excesses of its departures sum to.
pub fn excesses_add_up()
    ensures { ExcessesAddUp }
{}

/// A departure that differs from that of a certified surface has at least the margin of its edge for its excess.
pub fn margins_bound_excesses()
    ensures { MarginsBoundExcesses }
{}

/// In each part all congruent surfaces that cost at most the limit more than a certified one agree with it, up to whole cycles
/// that are one constant; and a surface that does not costs more.
pub fn surfaces_agree_in_parts()
    ensures agree { SurfacesAgreeInParts }
    ensures dearer { OthersCostMore }
{}

/// Two open pixels of which one has a label above 0 have the same label exactly if they are in one part.
pub fn labels_tell_parts()
    ensures { LabelsTellParts }
{}

/// Each part has at least the number of pixels that is asked for.
pub fn parts_are_large()
    ensures { PartsAreLarge }
{}

/// All congruent surfaces that cost at most the limit more than a certified one agree with it, up to whole cycles that are one
/// constant, at the pixels with one label above 0.
pub fn surfaces_agree_by_labels()
    ensures { SurfacesAgreeByLabels }
{}

/// What the parts are is determined by the surface and its faces, the limit and the least number of pixels.
pub fn parts_are_unique()
    ensures { PartsAreUnique }
{}

/// The parts of a surface at a limit that have at least so many pixels have one text.
pub fn parts_have_one_text()
    ensures { PartsHaveOneText }
{}

/// What the text of a whole raster shows that `check_whole_text` accepts is certified, so the laws above hold of it.
pub fn told_is_certified()
    ensures { ToldIsCertified }
{}
