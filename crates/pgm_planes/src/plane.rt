ghost use Rattle.std.specs.Prelude.{◌≡◌, ℕ, List, IfOk, IfErr, IfSome};
ghost use Rattle.insar_ports.specs.Feeding.{left_of, source_name, limit_of};
ghost use Rattle.pgm_planes.specs.Planes.{HasMaxval, IsSize, IsSizeWithin, IsSoughtIn, PlaneOf, SpellsPlane, SpellsSought, IsPlaneIn, plane_of, sought_within};
ghost use Rattle.pgm_planes.specs.Asking.{AsksForMore, SoughtAsks};
ghost use Rattle.insar_ports.specs.Calls.{IsCutOff, call_of};
ghost use Rattle.pgm_planes.specs.Reading.{Reads, plane_at, sought_at};
ghost use Rattle.insar_ports.specs.Calls.{Moves, Takes};
ghost use Rattle.pgm_planes.specs.Causes.{HasPlaneCause, HasSoughtCause, IsCutShort, IsReadAsPlane};

use crate::extent::Extent;
use crate::fault::{ReadPlaneFault, Role};
use crate::header::{read_header, read_magic};
use crate::samples::read_raster;
use insar_ports::{Feed, Source};
use raster_model::Plane;
use std::alloc::Global;

/// Reads one PGM plane, raw or plain, from where the feed is (pgm(5), "The Format"). Comments may
/// stand only in the gaps of the header. Places of a fault count all bytes that the feed handed out.
/// Of several faults the first in order of bytes is reported.
/// What comes after the feed's limit changes nothing that is found within it.
///
/// After a refusal the feed is where it was met, and the caller ends.
pub fn read_plane<S: Source>(
    alloc: Global,
    feed: &mut Feed<S>,
    role: Role,
) -> Result<Plane, ReadPlaneFault>
    ensures same_source { source_name feed.new ≡ source_name feed.old }
    ensures limit { limit_of feed.new ≡ limit_of feed.old }
    // What was handed out is what the feed has no more.
    ensures moves { Moves (call_of S.left S.faults feed.old feed.new) }
    // What is read is spelled so, each byte of it.
    ensures read { IfOk result (λ plane. Takes (call_of S.left S.faults feed.old feed.new) (λ text rest. SpellsPlane role text (plane_of plane) rest)) }
    // What is spelled so is read, and what follows is left.
    ensures accepted { IfSome (left_of S.left feed.old) (λ bytes. (p : PlaneOf) (rest : List ℕ) → IsPlaneIn role bytes p rest → IsReadAsPlane (call_of S.left S.faults feed.old feed.new) p rest result) }
    // What asks for a byte after the limit is not judged.
    ensures cut { IfSome (left_of S.left feed.old) (λ bytes. IsCutOff (AsksForMore role) (call_of S.left S.faults feed.old feed.new) bytes → IsCutShort (call_of S.left S.faults feed.old feed.new) result) }
    // The first break, or why else a plane is not read.
    ensures refused { IfErr result (HasPlaneCause role (call_of S.left S.faults feed.old feed.new)) }
    // All of these say what a reader of the bytes that the limit lets out gives.
    ensures reads { Reads plane_of result (call_of S.left S.faults feed.old feed.new) (plane_at role) }
    ensures maxval { IfOk result (λ plane. HasMaxval role plane.maxval) }
    ensures sized { IfOk result (λ plane. IsSize plane.width plane.height) }
{
    read_plane_within(alloc, feed, role, Extent::Tiled)
}

/// Reads a plane as `read_plane` does, of a raster that may be as large as `extent` says.
pub fn read_plane_within<S: Source>(
    alloc: Global,
    feed: &mut Feed<S>,
    role: Role,
    extent: Extent,
) -> Result<Plane, ReadPlaneFault>
    ensures same_source { source_name feed.new ≡ source_name feed.old }
    ensures limit { limit_of feed.new ≡ limit_of feed.old }
    ensures moves { Moves (call_of S.left S.faults feed.old feed.new) }
    ensures read { IfOk result (λ plane. Takes (call_of S.left S.faults feed.old feed.new) (λ text rest. SpellsSought (sought_within extent role) text (plane_of plane) rest)) }
    ensures accepted { IfSome (left_of S.left feed.old) (λ bytes. (p : PlaneOf) (rest : List ℕ) → IsSoughtIn (sought_within extent role) bytes p rest → IsReadAsPlane (call_of S.left S.faults feed.old feed.new) p rest result) }
    ensures cut { IfSome (left_of S.left feed.old) (λ bytes. IsCutOff (SoughtAsks (sought_within extent role)) (call_of S.left S.faults feed.old feed.new) bytes → IsCutShort (call_of S.left S.faults feed.old feed.new) result) }
    ensures refused { IfErr result (HasSoughtCause (sought_within extent role) (call_of S.left S.faults feed.old feed.new)) }
    ensures reads { Reads plane_of result (call_of S.left S.faults feed.old feed.new) (sought_at (sought_within extent role)) }
    ensures maxval { IfOk result (λ plane. HasMaxval role plane.maxval) }
    ensures sized { IfOk result (λ plane. IsSizeWithin extent plane.width plane.height) }
{
    read_spelled(alloc, feed, role, extent)
}

fn read_spelled<S: Source>(
    alloc: Global,
    feed: &mut Feed<S>,
    role: Role,
    extent: Extent,
) -> Result<Plane, ReadPlaneFault>
    ensures same_source { source_name feed.new ≡ source_name feed.old }
    ensures limit { limit_of feed.new ≡ limit_of feed.old }
    ensures reads { Reads plane_of result (call_of S.left S.faults feed.old feed.new) (sought_at (sought_within extent role)) }
    ensures maxval { IfOk result (λ plane. HasMaxval role plane.maxval) }
    ensures sized { IfOk result (λ plane. IsSizeWithin extent plane.width plane.height) }
{
    let spelling = read_magic(feed)?;
    let header = read_header(feed, role, extent)?;
    let count = header.width * header.height;
    let samples = read_raster(alloc, feed, spelling, header.maxval, count)?;
    Ok(Plane {
        width: header.width,
        height: header.height,
        maxval: header.maxval,
        samples,
    })
}
