//! Readers and writers of std behind sources and sinks: which of their errors are faults.
use rb_outside::{PlainSource, Sink, Source, StdSink, StdSource, Unread, read_all, write_all};
use std::alloc::Global;
use std::io;
use std::io::{Cursor, ErrorKind, Read, Write};
use std::test::Fail;

const TEXT: &[u8] = b"frames";

/// Does one act a call, a flush too, and then moves all that it can. An act is `i` for an
/// interruption, `b` for a broken pipe, or how many bytes are moved at most.
#[derive(Drop)]
struct Fake<'a, I> {
    acts: &'a [u8],
    inner: I,
}

impl<I> Fake<'_, I> {
    fn next_act(&mut self) -> io::Result<usize> {
        let Some((act, rest)) = self.acts.split_first() else {
            return Ok(usize::MAX);
        };
        self.acts = rest;
        match *act {
            b'i' => Err(io::Error::from(ErrorKind::Interrupted)),
            b'b' => Err(io::Error::from(ErrorKind::BrokenPipe)),
            digit => Ok(usize::from(digit.saturating_sub(b'0'))),
        }
    }
}

impl<I: Read> Read for Fake<'_, I> {
    fn read(&mut self, buf: &mut [u8]) -> io::Result<usize> {
        let most = self.next_act()?.min(buf.len());
        self.inner.read(&mut buf[..most])
    }
}

impl<I: Write> Write for Fake<'_, I> {
    fn write(&mut self, buf: &[u8]) -> io::Result<usize> {
        let most = self.next_act()?.min(buf.len());
        self.inner.write(&buf[..most])
    }

    fn flush(&mut self) -> io::Result<()> {
        self.next_act()?;
        Ok(())
    }
}

// Whether the reader gave the text, within six bytes.
fn reads<R: Read + Drop>(alloc: Global, reader: R) -> Result<bool, Unread> {
    let bytes = read_all(alloc, &mut StdSource::new(reader), 6)?;
    Ok(bytes.as_slice() == TEXT)
}

// Whether a reader that acts so is read as it should be.
fn reads_acting(alloc: Global, acts: &[u8]) -> Result<bool, Unread> {
    reads(alloc, Fake { acts, inner: TEXT })
}

#[test]
fn readers_of_std(rt: HostRuntime) {
    let alloc = rt.alloc();
    let found = [
        reads(alloc, TEXT),
        reads(alloc, Cursor::new(b"frames!".as_slice())),
        reads_acting(alloc, b"i2ii"),
        reads_acting(alloc, b"2b"),
    ];
    let wanted = [Ok(true), Err(Unread::TooLong), Ok(true), Err(Unread::Fault)];
    assert_eq!(rt; found, wanted);
}

// A source that never fails gives its bytes in pieces as long as they are asked for, and then
// nothing more.
#[test]
fn a_source_that_never_fails(rt: HostRuntime) -> Result<(), Fail> {
    let mut source = PlainSource::new(TEXT.to_vec(rt.alloc())?);
    let mut piece = [0; 4];
    assert_eq!(rt; source.read(&mut piece), Ok(4));
    assert_eq!(rt; &piece, b"fram");
    assert_eq!(rt; source.read(&mut piece), Ok(2));
    assert_eq!(rt; &piece[..2], b"es".as_slice());
    assert_eq!(rt; source.read(&mut piece), Ok(0));
    Ok(())
}

// Whether the writer took the text.
fn takes<W: Write + Drop>(writer: W) -> bool {
    write_all(&mut StdSink::new(writer), TEXT).is_ok()
}

// Whether a vector takes the text.
fn is_filled(alloc: Global) -> bool {
    let mut bytes = Vec::new(alloc);
    takes(&mut bytes) && bytes.as_slice() == TEXT
}

// The acts of writes and flushes in turn, whether the writer takes the text, and what it has then.
const WRITERS: [(&str, bool, &str); 4] = [
    ("i2i0", true, "frames"),
    ("20b", false, "fr"),
    ("2b", false, "fr"),
    ("0", false, ""),
];

// Whether a writer that acts so takes the text or not, as it is said, and has this then.
fn writes_acting(alloc: Global, (acts, took, held): (&str, bool, &str)) -> bool {
    let mut inner = Vec::new(alloc);
    let taken = takes(Fake {
        acts: acts.as_bytes(),
        inner: &mut inner,
    });
    taken == took && inner.as_slice() == held.as_bytes()
}

#[test]
fn writers_of_std(rt: HostRuntime) {
    let alloc = rt.alloc();
    assert!(rt; is_filled(alloc));
    for row in WRITERS {
        assert!(rt; writes_acting(alloc, row), "{}", row.0);
    }
}
