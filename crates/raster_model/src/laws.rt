//! Laws of the definitions. The functions do nothing; each contract is the law.

ghost use Rattle.raster_model.specs.Best.{
  BestIsWithinItsSeamCost,
  CertifiedIsBest,
  CertifiedSeamsAreLeast,
  CertifiedTilesAreLeast,
  NoDeparturesAreBest,
  NoneCostsLessThanTheTiles,
};
ghost use Rattle.raster_model.specs.EdgeList.{SumsTheList};
ghost use Rattle.raster_model.specs.Exact.{
  CyclesDepart,
  DepartureIsExact,
  FacesMeetDepartures,
  LiftedIsCongruent,
  ResidueIsExact,
  ResidueIsSmall,
};
ghost use Rattle.raster_model.specs.Order.{CellsFollowTheWindow, FlowsFollowEdgeOrder};
ghost use Rattle.raster_model.specs.Phase.{TurnsAreExact, WrappedHasNoSlope, WrappedIsIt, WrappedIsOnly};
ghost use Rattle.raster_model.specs.Seams.{RegionNumbersAreUnique};
ghost use Rattle.raster_model.specs.Tiles.{PixelsHaveOneWindow, TilesAreNumbered, TilesAreSquares};
ghost use Rattle.raster_model.specs.Tilings.{ScenesHaveTiles};
ghost use Rattle.raster_model.specs.Unsteep.{UnsteepCertificatesFit, UnsteepCostIsTheDeparture, UnsteepFacesCertify, UnsteepFlowsCertify, UnsteepSeamCertificatesFit};
ghost use Rattle.raster_model.specs.Whole.{BestBoundsTheLeastOfAll, CertifiedWholeIsLeast, WholeIsTilesAndSeams};

/// Two phases have one wrapped difference around each slope, and it leaves out whole cycles. Around the slope 0 it is the
/// number from -32768 to 32767.
pub fn wrapped_difference_is_unique()
    ensures found { WrappedIsIt }
    ensures only { WrappedIsOnly }
    ensures turns { TurnsAreExact }
    ensures no_slope { WrappedHasNoSlope }
{}

/// The whole cycles around a cell are its residue: -1, 0 or 1.
pub fn residue_is_exact()
    ensures exact { ResidueIsExact }
    ensures small { ResidueIsSmall }
{}

/// On an edge with open ends a congruent surface rises by the wrapped difference and as many cycles as the
/// departure.
pub fn departure_is_exact()
    ensures { DepartureIsExact }
{}

/// A surface of whole cycles above the phase is congruent, and departs as its cycles do.
pub fn cycles_make_surfaces()
    ensures congruent { LiftedIsCongruent }
    ensures departs { CyclesDepart }
{}

/// How the signs of faces, residues and departures go together.
pub fn faces_meet_departures()
    ensures { FacesMeetDepartures }
{}

/// A sum over the edges is the sum over the list of edges in edge order.
pub fn sums_follow_edge_order()
    ensures { SumsTheList }
{}

/// A list of faces follows the rows of the tile's window, and a list of flows follows edge order.
pub fn certificates_follow_row_order()
    ensures cells { CellsFollowTheWindow }
    ensures seams { FlowsFollowEdgeOrder }
{}

/// Each pixel of a raster lies in one tile and in one window.
pub fn pixels_have_one_tile()
    ensures numbered { TilesAreNumbered }
    ensures squares { TilesAreSquares }
    ensures windows { PixelsHaveOneWindow }
{}

/// The regions have one numbering in the row order of their first pixels.
pub fn region_numbers_are_unique()
    ensures { RegionNumbersAreUnique }
{}

/// At the steepness 1 an edge adds its weight times its absolute departure, and the sums of face times residue and of
/// flow times departure certify costs if no face difference and no flow is greater than the weight, and only then.
pub fn unsteep_costs_are_departures()
    ensures cost { UnsteepCostIsTheDeparture }
    ensures faces { UnsteepFacesCertify }
    ensures flows { UnsteepFlowsCertify }
    ensures faces_back { UnsteepCertificatesFit }
    ensures flows_back { UnsteepSeamCertificatesFit }
{}

/// A certified surface costs no more in the tile than any congruent one.
pub fn certified_tile_is_least()
    ensures { CertifiedTilesAreLeast }
{}

/// Certified seams of a congruent surface cost no more under any whole-cycle offsets of the regions.
pub fn certified_seams_are_least()
    ensures { CertifiedSeamsAreLeast }
{}

/// A surface with certificates for its tiles and its seams is the best.
pub fn certified_is_best()
    ensures { CertifiedIsBest }
{}

/// A congruent surface whose departures are all 0 is the best.
pub fn no_departures_are_best()
    ensures { NoDeparturesAreBest }
{}

/// No congruent surface costs less, over tiles and seams, than the tiles of the best surface do. So the best surface,
/// and with it each certified one, is within its own seam cost of the least of all.
pub fn best_is_within_its_seam_cost()
    ensures none { NoneCostsLessThanTheTiles }
    ensures within { BestIsWithinItsSeamCost }
{}

/// No congruent surface costs less over all edges than one whose faces are certified over the whole raster.
pub fn certified_whole_is_least()
    ensures { CertifiedWholeIsLeast }
{}

/// Each edge lies in one tile or is a seam edge, so a surface costs whole what its tiles and its seams cost.
pub fn whole_is_tiles_and_seams()
    ensures { WholeIsTilesAndSeams }
{}

/// How far the surface that is least in each tile and at the seams can be from the least of all.
pub fn best_bounds_the_least_of_all()
    ensures { BestBoundsTheLeastOfAll }
{}

/// Each pixel of a scene lies in one of its tiles.
pub fn every_pixel_has_a_tile()
    ensures { ScenesHaveTiles }
{}
