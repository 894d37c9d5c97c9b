//! Calls side by side, in threads that the caller's thread starts one after another.
#![tactic(auto)]

mod strips;

ghost use Rattle.side_by_side.specs.Chains.{AreDone, AreReady};
ghost use Rattle.std.specs.Fork.{AcceptsAt, AcceptsEach, ChangesAt, ChangesEach};
ghost use Rattle.std.specs.Prelude.{◌≡◌, ◌+◌, ◌≤◌, length};
ghost use Rattle.std.specs.Thread.{IsSend, IsSync};

pub use crate::strips::strip_rows;
use std::thread::{Threads, available_parallelism, join_mut};

/// How many threads can run at once for this program; more than can be counted if the system does not tell.
pub fn processors<R: Threads>(rt: &R) -> u32
    ensures { 1 ≤ result }
{
    match available_parallelism(rt) {
        Ok(count) => u32::try_from(count.get()).unwrap_or(u32::MAX),
        Err(_) => u32::MAX,
    }
}

/// Calls `f(place, &mut items[place])` at each place, all side by side: the caller's thread starts a thread for each item but
/// the last, and calls `f` at the last one itself. It starts them one after another, since systems spread threads that start
/// others at the same time badly over their processors. Where no thread can be started, calls follow one another.
pub fn for_each<R: Threads + Sync, T: Send, F: Fn(usize, &mut T) + Sync>(
    rt: &R,
    f: &F,
    items: &mut [T],
)
    requires accepts { AcceptsEach F.Fn f.now items.old }
    ensures { ChangesEach F.Fn f.now items.old items.new }
{
    for_each_after(rt, f, &mut || (), items);
}

/// Does this, and has the caller's thread call `own` once the others are started, before it calls `f` at the last item.
pub fn for_each_after<R: Threads + Sync, T: Send, F: Fn(usize, &mut T) + Sync, G: FnMut()>(
    rt: &R,
    f: &F,
    own: &mut G,
    items: &mut [T],
)
    requires accepts { AcceptsEach F.Fn f.now items.old }
    requires own { G.pre own.old }
    ensures each { ChangesEach F.Fn f.now items.old items.new }
    ensures own { G.step own.old tt own.new }
{
    let Some(place) = items.len().checked_sub(1) else {
        own();
        return;
    };
    let (others, last) = items.split_at_mut(place);
    last_beside(rt, f, place, own, last, others);
}

/// Calls `own` and then `f` at the last item, of this place, beside the others.
fn last_beside<R: Threads + Sync, T: Send, F: Fn(usize, &mut T) + Sync, G: FnMut()>(
    rt: &R,
    f: &F,
    place: usize,
    own: &mut G,
    last: &mut [T],
    others: &mut [T],
)
    requires one { length last.old ≡ 1 }
    requires last { AreReady (AcceptsAt F.Fn f.now) place last.old }
    requires others { AreReady (AcceptsAt F.Fn f.now) 0 others.old }
    requires own { G.pre own.old }
    ensures last { AreDone (ChangesAt F.Fn f.now) place last.old last.new }
    ensures others { AreDone (ChangesAt F.Fn f.now) 0 others.old others.new }
    ensures own { G.step own.old tt own.new }
{
    let mut both = ||
        requires { (length last.now ≡ 1) × AreReady (AcceptsAt F.Fn f.now) place last.now × G.pre own.now }
        ensures { AreDone (ChangesAt F.Fn f.entry.now) place last.entry.now last.exit.now × G.step own.entry.now tt own.exit.now }
    { own_and_one(f, place, own, last) };
    each_from(rt, f, 0, &mut both, others);
}

/// Calls `own` and then `f` at the only item.
fn own_and_one<T, F: Fn(usize, &mut T), G: FnMut()>(
    f: &F,
    place: usize,
    own: &mut G,
    items: &mut [T],
)
    requires one { length items.old ≡ 1 }
    requires ready { AreReady (AcceptsAt F.Fn f.now) place items.old }
    requires own { G.pre own.old }
    ensures done { AreDone (ChangesAt F.Fn f.now) place items.old items.new }
    ensures own { G.step own.old tt own.new }
{
    own();
    at_one(f, place, items);
}

/// Calls `f` at each item, in a thread of its own, where the first has this place, and `own` on the caller's thread.
#[cycle(chain)]
fn each_from<R: Threads + Sync, T: Send, F: Fn(usize, &mut T) + Sync, G: FnMut()>(
    rt: &R,
    f: &F,
    place: usize,
    own: &mut G,
    items: &mut [T],
)
    requires ready { AreReady (AcceptsAt F.Fn f.now) place items.old }
    requires own { G.pre own.old }
    ensures done { AreDone (ChangesAt F.Fn f.now) place items.old items.new }
    ensures own { G.step own.old tt own.new }
{
    if items.is_empty() {
        own();
        return;
    }
    let (first, rest) = items.split_at_mut(1);
    first_beside(rt, f, place, first, own, rest);
}

/// Calls `f` at the first item in a new thread, and does the others meanwhile.
#[cycle(chain)]
fn first_beside<R: Threads + Sync, T: Send, F: Fn(usize, &mut T) + Sync, G: FnMut()>(
    rt: &R,
    f: &F,
    place: usize,
    first: &mut [T],
    own: &mut G,
    rest: &mut [T],
)
    requires one { length first.old ≡ 1 }
    requires first { AreReady (AcceptsAt F.Fn f.now) place first.old }
    requires rest { AreReady (AcceptsAt F.Fn f.now) (place + 1) rest.old }
    requires own { G.pre own.old }
    ensures first { AreDone (ChangesAt F.Fn f.now) place first.old first.new }
    ensures rest { AreDone (ChangesAt F.Fn f.now) (place + 1) rest.old rest.new }
    ensures own { G.step own.old tt own.new }
{
    let next = place + 1;
    let mut front = ||
        requires { IsSync F.row × (length first.now ≡ 1) × AreReady (AcceptsAt F.Fn f.now) place first.now }
        ensures { AreDone (ChangesAt F.Fn f.entry.now) place first.entry.now first.exit.now }
    { at_one(f, place, first) };
    let mut back = ||
        requires { IsSync R.row × IsSync F.row × IsSend T.row × AreReady (AcceptsAt F.Fn f.now) next rest.now × G.pre own.now }
        ensures { AreDone (ChangesAt F.Fn f.entry.now) next rest.entry.now rest.exit.now × G.step own.entry.now tt own.exit.now }
    { each_from(rt, f, next, own, rest) };
    join_mut(rt, &mut front, &mut back);
}

/// Calls `f` at the only item.
fn at_one<T, F: Fn(usize, &mut T)>(f: &F, place: usize, items: &mut [T])
    requires one { length items.old ≡ 1 }
    requires ready { AreReady (AcceptsAt F.Fn f.now) place items.old }
    ensures { AreDone (ChangesAt F.Fn f.now) place items.old items.new }
{
    call(f, place, &mut items[0]);
}

/// Calls `f` at an item.
fn call<T, F: Fn(usize, &mut T)>(f: &F, place: usize, item: &mut T)
    requires { AcceptsAt F.Fn f.now place item.old }
    ensures { ChangesAt F.Fn f.now place item.old item.new }
{
    f(place, item);
}
