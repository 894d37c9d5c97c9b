use insar_ports::{
    Failed, Feed, FeedFault, Line, MemorySource, Source, StdSink, StdSource, WriteFault, put_all,
};
use std::alloc::Global;
use std::io;
use std::io::{ErrorKind, Read, Write};
use std::process::Abort;

/// A reader and a writer that never work.
#[derive(Drop)]
struct Broken;

impl Read for Broken {
    fn read(&mut self, _buf: &mut [u8]) -> io::Result<usize> {
        Err(ErrorKind::Other.into())
    }
}

impl Write for Broken {
    fn write(&mut self, _buf: &[u8]) -> io::Result<usize> {
        Ok(0)
    }

    fn flush(&mut self) -> io::Result<()> {
        Ok(())
    }
}

/// With room for two bytes, these bytes are these two lines.
fn has_lines(rt: &impl Abort, alloc: Global, bytes: &[u8], first: Line, second: Line) {
    let bytes = Vec::from_slice(alloc, bytes).expect(rt, "memory");
    let mut source = MemorySource::new(bytes, 1, Vec::new(alloc));
    let mut feed = Feed::new(alloc, &mut source, 100).expect(rt, "memory");
    let mut line = [0; 2];
    assert!(rt; feed.next_line(&mut line) == Ok(first));
    assert!(rt; feed.next_line(&mut line) == Ok(second));
}

#[test]
fn a_line_is_whole_cut_or_over(rt: HostRuntime) {
    has_lines(&rt, rt.alloc(), b"ab\ncd", Line::Whole(2), Line::Cut(2));
    has_lines(&rt, rt.alloc(), b"abc\nd", Line::Over, Line::Whole(1));
}

#[test]
fn a_feed_goes_on_once_its_limit_is_raised(rt: HostRuntime) {
    let bytes = Vec::from_slice(rt.alloc(), b"ab").expect(&rt, "memory");
    let mut source = MemorySource::new(bytes, 1, Vec::new(rt.alloc()));
    let mut feed = Feed::new(rt.alloc(), &mut source, 1).expect(&rt, "memory");
    let within = [feed.peek(), feed.next(), feed.next()];
    assert!(rt; feed.handed() <= 2);
    feed.set_limit(2);
    let first = Ok(Some(b'a'));
    let told = [first, first, Err(FeedFault::TooLong)];
    assert!(rt; within == told && feed.next() == Ok(Some(b'b')));
}

#[test]
fn a_source_fails_where_its_reader_does(rt: HostRuntime) {
    let mut into = [0; 2];
    let mut source = StdSource::new(b"abc".as_slice());
    let taken = [
        source.take(&mut into),
        source.take(&mut into),
        StdSource::new(Broken).take(&mut into),
    ];
    assert!(rt; taken == [Ok(2), Ok(1), Err(Failed)]);
}

#[test]
fn a_sink_fails_where_its_writer_does(rt: HostRuntime) {
    let mut written = Vec::new(rt.alloc());
    let put = [
        put_all(&mut StdSink::new(&mut written), b"abc"),
        put_all(&mut StdSink::new(Broken), b"abc"),
    ];
    assert!(rt; put == [Ok(()), Err(WriteFault)] && written.as_slice() == b"abc".as_slice());
}
