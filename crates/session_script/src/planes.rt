ghost use Rattle.insar_ports.specs.Calls.{call_of};
ghost use Rattle.insar_ports.specs.Feeding.{handed_of, limit_of, source_name};
ghost use Rattle.pgm_planes.specs.Planes.{IsSizeWithin, plane_of, sought_within};
ghost use Rattle.session_script.specs.Building.{planes_in};
ghost use Rattle.session_script.specs.Parsing.{Parses, is_begun, later_parser, peek_parser, planes_parser};
ghost use Rattle.session_script.specs.Sessions.{HasPlaneSize, ones_of};
ghost use Rattle.session_script.specs.declared.fault.SessionFault.TheVariants as session_faults;
ghost use Rattle.std.specs.Prelude.{◌≡◌, IfErr, IfOk};

use crate::fault::{SessionFault, in_session};
use crate::parts::Planes;
use insar_ports::{Feed, Source};
use pgm_planes::{Extent, InputFault, Role, read_plane_within};
use raster_model::Plane;
use std::alloc::Global;

/// Reads the phase plane, and the weights and the mask if they are there, of a raster of an extent.
pub fn read_planes<S: Source>(
    alloc: Global,
    feed: &mut Feed<S>,
    extent: Extent,
) -> Result<Planes, SessionFault>
    ensures same_source { source_name feed.new ≡ source_name feed.old }
    ensures limit { limit_of feed.new ≡ limit_of feed.old }
    ensures parses { Parses planes_in result (call_of S.left S.faults feed.old feed.new) (planes_parser extent) }
    ensures sized { IfOk result (λ planes. IsSizeWithin extent planes.phase.width planes.phase.height) }
{
    let phase = in_session(
        Role::Phase,
        read_plane_within(alloc, feed, Role::Phase, extent),
    )?;
    let weights = read_later(alloc, feed, Role::Weight, extent, &phase)?;
    let mask = read_later(alloc, feed, Role::Mask, extent, &phase)?;
    Ok(Planes {
        phase,
        weights,
        mask,
    })
}

/// Reads a later plane if one begins, and otherwise makes a plane of ones.
fn read_later<S: Source>(
    alloc: Global,
    feed: &mut Feed<S>,
    role: Role,
    extent: Extent,
    phase: &Plane,
) -> Result<Plane, SessionFault>
    ensures same_source { source_name feed.new ≡ source_name feed.old }
    ensures limit { limit_of feed.new ≡ limit_of feed.old }
    ensures sized { IfOk result (λ plane. HasPlaneSize (plane_of phase.now) (plane_of plane)) }
    ensures parses { Parses plane_of result (call_of S.left S.faults feed.old feed.new) (later_parser (sought_within extent role) (plane_of phase.now)) }
{
    if !begins_plane(see_byte(feed)?) {
        return ones(alloc, phase);
    }
    let plane = in_session(role, read_plane_within(alloc, feed, role, extent))?;
    if plane.width != phase.width || plane.height != phase.height {
        return Err(SessionFault::Input(InputFault::SizesDiffer(role)));
    }
    Ok(plane)
}

/// The next byte, which stays.
pub fn see_byte<S: Source>(feed: &mut Feed<S>) -> Result<Option<u8>, SessionFault>
    ensures same_source { source_name feed.new ≡ source_name feed.old }
    ensures limit { limit_of feed.new ≡ limit_of feed.old }
    ensures stays { handed_of feed.new ≡ handed_of feed.old }
    ensures parses { Parses (λ got. got) result (call_of S.left S.faults feed.old feed.new) peek_parser }
{
    Ok(feed.peek()?)
}

/// Whether a plane begins with the next byte: it is `P`.
fn begins_plane(got: Option<u8>) -> bool
    ensures { result ≡ is_begun got }
{
    match got {
        Some(byte) => byte == b'P',
        None => false,
    }
}

/// A plane of another's size whose samples are all 1.
fn ones(alloc: Global, phase: &Plane) -> Result<Plane, SessionFault>
    ensures made { IfOk result (λ plane. plane_of plane ≡ ones_of (plane_of phase.now)) }
    ensures starved { IfErr result (λ fault. fault ≡ session_faults.Memory) }
{
    let pixels = phase.width as usize * phase.height as usize;
    Ok(Plane {
        width: phase.width,
        height: phase.height,
        maxval: 1,
        samples: vec![in alloc; 1; pixels]?,
    })
}
