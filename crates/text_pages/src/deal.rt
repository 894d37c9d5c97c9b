ghost use Rattle.std.specs.Prelude.{◌≤◌, ◌<◌};

/// Which passages each page has: the pages one after another `share` of them, from `start` on and as far as `until`.
#[derive(Clone, Copy)]
pub(crate) struct Deal {
    pub(crate) start: u32,
    pub(crate) share: u32,
    /// Where the passages of the last page end.
    pub(crate) until: u32,
    pub ghost within: { start ≤ until },
}

impl Deal {
    ghost use Rattle.std.specs.Prelude.{◌≡◌, ◌+◌};
    ghost use Rattle.text_pages.specs.Dealing.{begin_of};

    /// What so many pages get of `count` passages, from `start` on: each `share` of them, but the last page half as many.
    pub(crate) fn of(start: u32, share: u32, pages: usize, count: u32) -> Deal
        requires start { start ≤ count }
        requires share { 0 < share }
        ensures start { result.start ≡ start }
        ensures share { result.share ≡ share }
        ensures until { result.until ≤ count }
        ensures some { start < count → start < result.until }
    {
        let all = u64::from(share).saturating_mul(pages as u64);
        let dealt = all.saturating_sub(u64::from(share / 2)).max(1);
        Deal {
            start,
            share,
            until: start + dealt.min(u64::from(count - start)) as u32,
        }
    }

    /// Where the passages of a page begin.
    pub(crate) fn begin(&self, place: usize) -> u32
        ensures { result ≡ begin_of self.now place }
    {
        let passed = u64::from(self.share).saturating_mul(place as u64);
        let begin = passed.saturating_add(u64::from(self.start));
        begin.min(u64::from(self.until)) as u32
    }

    /// Where they end.
    pub(crate) fn end(&self, place: usize) -> u32
        ensures { result ≡ begin_of self.now (place + 1) }
    {
        let begin = self.begin(place);
        begin + self.share.min(self.until - begin)
    }
}
