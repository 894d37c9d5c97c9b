ghost use Rattle.std.specs.Prelude.{◌≡◌, ◌+◌, ◌-◌, ◌≤◌, ◌<◌, ℕ, IfOk, length};
ghost use Rattle.text_lines.specs.Adding.{Adds};
ghost use Rattle.text_lines.specs.Views.{view_of};
ghost use Rattle.text_pages.specs.Dealing.{AreDealt, HasPassages, begin_of};
ghost use Rattle.text_pages.specs.Passages.{AddsAll, texts_from};
ghost use Rattle.text_pages.specs.Rooms.{AreBlank, ArePages};

use crate::deal::Deal;
use crate::page::Page;
use crate::passages::Passages;
use insar_ports::Sink;
use side_by_side::{for_each, for_each_after};
use std::alloc::{AllocError, Global};
use std::thread::Threads;
use text_lines::TextWriter;

/// The least and the most bytes of a page: 4 KiB and 2 MiB.
const LEAST_ROOM: u32 = 1 << 12;

const MOST_ROOM: u32 = 1 << 21;

/// Pages on which threads make the passages of a text, each on its own: while those of one list are filled, the others leave.
#[derive(Drop)]
pub struct Pages {
    pages: Vec<Page>,
    others: Vec<Page>,
    /// How many bytes each has room for.
    room: u32,
}

impl Pages {
    /// Two pages for each of so many threads, and none for one thread: of an eighth of `bytes` each, which is about what the text
    /// has, but of 4 KiB at least and of 2 MiB at most. It fails only for lack of memory.
    pub fn new(alloc: Global, threads: u32, bytes: u32) -> Result<Pages, AllocError>
        ensures { IfOk result (ArePages threads bytes) }
    {
        let room = (bytes / 8).clamp(LEAST_ROOM, MOST_ROOM);
        Ok(Pages {
            pages: blank(alloc, threads, room)?,
            others: blank(alloc, threads, room)?,
            room,
        })
    }
}

/// A blank page for each of so many threads, and none for one thread.
fn blank(alloc: Global, threads: u32, room: u32) -> Result<Vec<Page>, AllocError>
    ensures { IfOk result (λ pages. AreBlank threads room pages.items) }
{
    let mut pages = Vec::new(alloc);
    if threads > 1 {
        for _ in 0..threads {
            pages.push(Page::new(alloc, room)?)?;
        }
    }
    Ok(pages)
}

/// Adds all passages, in their order, by the caller's thread alone. It takes no memory.
pub fn add_all<K: Sink, P: Passages>(text: &mut TextWriter<K>, passages: &P)
    ensures { AddsAll (view_of K.held K.faults text.old) (view_of K.held K.faults text.new) (P.passages passages.now) (P.words passages.now) (P.known passages.now) }
{
    passages.add(text, 0, passages.count());
}

/// Adds all passages, in their order. If there are pages, a thread for each page but the last of a list makes a share of the
/// passages on it, while the caller's thread adds what the pages of the other list have, in order, and then makes the share of
/// the last page, until all have left. It takes no memory.
pub fn add_side_by_side<R: Threads + Sync, K: Sink, P: Passages + Sync>(
    rt: &R,
    pages: &mut Pages,
    text: &mut TextWriter<K>,
    passages: &P,
)
    ensures { AddsAll (view_of K.held K.faults text.old) (view_of K.held K.faults text.new) (P.passages passages.now) (P.words passages.now) (P.known passages.now) }
{
    if pages.pages.is_empty() || pages.others.is_empty() {
        add_all(text, passages);
    } else {
        let room = pages.room;
        add_rounds(
            rt,
            &mut pages.pages,
            &mut pages.others,
            room,
            text,
            passages,
        );
    }
}

/// Adds all passages over two lists of pages, each of which has some, and room for so many bytes on each.
fn add_rounds<R: Threads + Sync, K: Sink, P: Passages + Sync>(
    rt: &R,
    pages: &mut [Page],
    others: &mut [Page],
    room: u32,
    text: &mut TextWriter<K>,
    passages: &P,
)
    requires some { (0 < length pages.old) × (0 < length others.old) }
    ensures { AddsAll (view_of K.held K.faults text.old) (view_of K.held K.faults text.new) (P.passages passages.now) (P.words passages.now) (P.known passages.now) }
{
    let count = passages.count();
    let safe = (room / passages.longest().max(1)).max(1);
    let share = safe.min(even_share(count, pages.len()));
    let mut deal = Deal::of(0, share, pages.len(), count);
    fill_pages(rt, pages, passages, deal);
    while deal.start < count {
        let next = next_deal(pages, room, deal, safe, count);
        add_and_fill(rt, pages, others, text, passages, deal, next);
        deal = next_deal(others, room, next, safe, count);
        add_and_fill(rt, others, pages, text, passages, next, deal);
    }
}

/// What is dealt out after pages that are filled: as many to each as there is room for, but no more than an even share.
fn next_deal(pages: &[Page], room: u32, deal: Deal, safe: u32, count: u32) -> Deal
    requires share { 0 < deal.share }
    requires until { deal.until ≤ count }
    ensures start { result.start ≡ begin_of deal (length pages.now) }
    ensures share { 0 < result.share }
    ensures until { result.until ≤ count }
    ensures some { result.start < count → result.start < result.until }
{
    let start = deal.begin(pages.len());
    let most = next_share(pages, room, deal.share, safe);
    let share = most.min(even_share(count - start, pages.len()));
    Deal::of(start, share, pages.len(), count)
}

/// The share of each page if all that are left are dealt out to the pages at once, half of it to the last page.
fn even_share(left: u32, pages: usize) -> u32
    ensures { 0 < result }
{
    let halves = u64::from(u32::try_from(pages).unwrap_or(u32::MAX)) * 2;
    let share = (u64::from(left) * 2).div_ceil(halves.max(2) - 1);
    u32::try_from(share).unwrap_or(u32::MAX).max(1)
}

/// How many passages each page has in the next round: as many as fill seven eighths of it if they are as long as those of the
/// last round, in which it had `share` of them, and the safe number if there was a page that had no room for its share.
fn next_share(pages: &[Page], room: u32, share: u32, safe: u32) -> u32
    requires { 0 < share }
    ensures { 0 < result }
{
    let mut most = 0;
    for page in pages {
        if !page.whole {
            return safe.max(1);
        }
        most = most.max(page.written().len());
    }
    let each = (most / share as usize).saturating_add(1);
    let next = (room - room / 8) as usize / each;
    u32::try_from(next).unwrap_or(safe).max(1)
}

/// Adds what pages have, and has other pages filled as they are dealt out meanwhile, the last of them by the caller's thread.
fn add_and_fill<R: Threads + Sync, K: Sink, P: Passages + Sync>(
    rt: &R,
    pages: &[Page],
    others: &mut [Page],
    text: &mut TextWriter<K>,
    passages: &P,
    deal: Deal,
    next: Deal,
)
    requires until { (deal.until ≤ P.passages passages.now) × (next.until ≤ P.passages passages.now) }
    requires dealt { AreDealt (P.words passages.now) (P.known passages.now) deal pages.now }
    ensures same { length others.new ≡ length others.old }
    ensures filled { AreDealt (P.words passages.now) (P.known passages.now) next others.new }
    ensures added { Adds (view_of K.held K.faults text.old) (view_of K.held K.faults text.new) (texts_from (P.words passages.now) deal.start (begin_of deal (length pages.now) - deal.start)) }
    ensures known { (i : ℕ) → deal.start ≤ i → i < begin_of deal (length pages.now) → P.known passages.now i }
{
    for_each_after(
        rt,
        &|place: usize, page: &mut Page|
            requires { next.until ≤ P.passages passages.now }
            ensures { HasPassages (P.words passages.entry.now) (P.known passages.entry.now) (begin_of next place) (begin_of next (place + 1)) page.exit.now }
        {
            page.fill(passages, next.begin(place), next.end(place));
        },
        &mut ||
            requires { (deal.until ≤ P.passages passages.now) × AreDealt (P.words passages.now) (P.known passages.now) deal pages.now }
            ensures { Adds (view_of K.held K.faults text.entry.now) (view_of K.held K.faults text.exit.now) (texts_from (P.words passages.entry.now) deal.start (begin_of deal (length pages.entry.now) - deal.start)) × ((i : ℕ) → deal.start ≤ i → i < begin_of deal (length pages.entry.now) → P.known passages.entry.now i) }
        { add_pages(pages, text, passages, deal) },
        others,
    );
}

/// Has the pages filled as they are dealt out.
fn fill_pages<R: Threads + Sync, P: Passages + Sync>(
    rt: &R,
    pages: &mut [Page],
    passages: &P,
    deal: Deal,
)
    requires until { deal.until ≤ P.passages passages.now }
    ensures same { length pages.new ≡ length pages.old }
    ensures filled { AreDealt (P.words passages.now) (P.known passages.now) deal pages.new }
{
    for_each(
        rt,
        &|place: usize, page: &mut Page|
            requires { deal.until ≤ P.passages passages.now }
            ensures { HasPassages (P.words passages.entry.now) (P.known passages.entry.now) (begin_of deal place) (begin_of deal (place + 1)) page.exit.now }
        {
            page.fill(passages, deal.begin(place), deal.end(place));
        },
        pages,
    );
}

/// Adds the passages that are dealt out to pages, in order.
fn add_pages<K: Sink, P: Passages>(
    pages: &[Page],
    text: &mut TextWriter<K>,
    passages: &P,
    deal: Deal,
)
    requires until { deal.until ≤ P.passages passages.now }
    requires dealt { AreDealt (P.words passages.now) (P.known passages.now) deal pages.now }
    ensures added { Adds (view_of K.held K.faults text.old) (view_of K.held K.faults text.new) (texts_from (P.words passages.now) deal.start (begin_of deal (length pages.now) - deal.start)) }
    ensures known { (i : ℕ) → deal.start ≤ i → i < begin_of deal (length pages.now) → P.known passages.now i }
{
    for place in 0..pages.len() {
        add_page(
            &pages[place],
            text,
            passages,
            deal.begin(place),
            deal.end(place),
        );
    }
}

/// Adds the passages from `from` to before `end`: as they stand on a page if it has them whole, and else anew.
fn add_page<K: Sink, P: Passages>(
    page: &Page,
    text: &mut TextWriter<K>,
    passages: &P,
    from: u32,
    end: u32,
)
    requires order { from ≤ end }
    requires within { end ≤ P.passages passages.now }
    requires page { HasPassages (P.words passages.now) (P.known passages.now) from end page.now }
    ensures added { Adds (view_of K.held K.faults text.old) (view_of K.held K.faults text.new) (texts_from (P.words passages.now) from (end - from)) }
    ensures known { (i : ℕ) → from ≤ i → i < end → P.known passages.now i }
{
    if page.whole {
        text.bytes(page.written());
    } else {
        passages.add(text, from, end);
    }
}
