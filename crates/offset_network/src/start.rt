ghost use Rattle.offset_network.specs.Links.{AreLinks, IsLink, IsLinkIn};
ghost use Rattle.offset_network.specs.Starts.{AreMovedLinks, AreStartOffsets, IsStart, moved_departure as departure_moved, moved_link as link_moved};
ghost use Rattle.std.specs.Prelude.{◌≡◌, ◌≤◌, IfOk, IfSome, IsTrue, length, unsigned_abs};

use offset_guess::Link;
use raster_model::MAX_SEAM_DEPARTURE;
use std::alloc::{AllocError, Global};

/// The greatest absolute offset at the start, in whole cycles.
pub(crate) const MAX_START: u64 = 1 << 42;

/// Where the network starts.
#[derive(Drop)]
pub(crate) struct Start {
    /// An offset for each region.
    pub(crate) offsets: Vec<i64>,
    /// The links of the surface with these offsets.
    pub(crate) links: Vec<Option<Link>>,
}

impl Start {
    /// The start from offsets. It is from nothing, that is from offsets that are all 0, if there is not one for each of so
    /// many regions, or one is out of range, or a link departs by more than it can with them.
    pub(crate) fn from(
        alloc: Global,
        offsets: Vec<i64>,
        regions: u32,
        links: Vec<Option<Link>>,
    ) -> Result<Start, AllocError>
        requires { AreLinks regions links.items }
        ensures { IfOk result (IsStart regions links.items) }
    {
        if are_in_range(&offsets, regions) {
            if let Some(links) = moved(alloc, &links, &offsets)? {
                return Ok(Start { offsets, links });
            }
        }
        let offsets = vec![in alloc; 0; regions as usize]?;
        Ok(Start { offsets, links })
    }
}

/// Whether there is one offset for each of so many regions, and all are in range for a start.
fn are_in_range(offsets: &[i64], regions: u32) -> bool
    ensures { IsTrue result → AreStartOffsets regions offsets.now }
{
    offsets.len() == regions as usize
        && offsets
            .iter()
            .all(|&offset| offset.unsigned_abs() <= MAX_START)
}

/// The links of the surface with an offset more on each region; None if one departs by more than it can.
fn moved(
    alloc: Global,
    links: &[Option<Link>],
    offsets: &[i64],
) -> Result<Option<Vec<Option<Link>>>, AllocError>
    requires links { AreLinks (length offsets.now) links.now }
    requires small { AreStartOffsets (length offsets.now) offsets.now }
    ensures { IfOk result (λ found. IfSome found (λ moved. AreLinks (length offsets.now) moved.items × AreMovedLinks offsets.now links.now (length links.now) moved.items)) }
{
    let mut moved = Vec::with_capacity(alloc, links.len())?;
    for link in links {
        let Some(link) = moved_link(*link, offsets) else {
            return Ok(None);
        };
        moved.push(link)?;
    }
    Ok(Some(moved))
}

/// A link, or what stands in place of one, with an offset more on each region; None if it departs by more than it can.
fn moved_link(link: Option<Link>, offsets: &[i64]) -> Option<Option<Link>>
    requires fits { IsLinkIn (length offsets.now) link }
    requires small { AreStartOffsets (length offsets.now) offsets.now }
    ensures value { IfSome result (λ moved. moved ≡ link_moved offsets.now link) }
    ensures fits { IfSome result (IsLinkIn (length offsets.now)) }
{
    let Some(link) = link else {
        return Some(None);
    };
    let departure = moved_departure(link, offsets)?;
    Some(Some(Link { departure, ..link }))
}

/// By how many whole cycles the surface departs at a link with an offset more on each region; None if it is more than it
/// can be.
fn moved_departure(link: Link, offsets: &[i64]) -> Option<i32>
    requires fits { IsLink (length offsets.now) link }
    requires small { AreStartOffsets (length offsets.now) offsets.now }
    ensures value { IfSome result (λ departure. departure ≡ departure_moved offsets.now link) }
    ensures small { IfSome result (λ departure. unsigned_abs departure ≤ MAX_SEAM_DEPARTURE) }
{
    let rise = offsets[link.to as usize] - offsets[link.from as usize];
    let departure = i64::from(link.departure) + rise;
    if departure.unsigned_abs() > MAX_SEAM_DEPARTURE {
        return None;
    }
    Some(departure as i32)
}
