//! Sources and sinks: those in memory, and those over a reader and a writer of std.
use io_edge::{
    CleanSink, CleanSource, EdgeSink, EdgeSource, Failed, LIMIT, MemSink, MemSource, NoMemory,
    ReadAllError, Sink, Source, read_all, write_all,
};
use std::alloc::Global;
use std::io;
use std::test::Fail;

/// A reader of std that gives a byte, fails, and then is at its end.
#[derive(Drop)]
struct Faulty {
    calls: u8,
}

impl io::Read for Faulty {
    fn read(&mut self, buf: &mut [u8]) -> io::Result<usize> {
        self.calls = self.calls.saturating_add(1);
        if self.calls == 2 {
            return Err(io::ErrorKind::Other.into());
        }
        if self.calls > 2 || buf.is_empty() {
            return Ok(0);
        }
        buf[0] = 7;
        Ok(1)
    }
}

/// A writer of std that has room for two bytes, and whose second flush fails.
#[derive(Drop)]
struct Narrow {
    taken: usize,
    flushes: u8,
}

impl io::Write for Narrow {
    fn write(&mut self, buf: &[u8]) -> io::Result<usize> {
        let count = buf.len().min(2usize.saturating_sub(self.taken));
        self.taken = self.taken.saturating_add(count);
        Ok(count)
    }

    fn flush(&mut self) -> io::Result<()> {
        self.flushes = self.flushes.saturating_add(1);
        if self.flushes == 2 {
            return Err(io::ErrorKind::Other.into());
        }
        Ok(())
    }
}

fn reads_a_reader(alloc: Global) -> bool {
    match read_all(alloc, &mut EdgeSource::new(b"abc".as_slice())) {
        Ok(bytes) => bytes.as_slice() == b"abc".as_slice(),
        Err(_) => false,
    }
}

fn has_a_read_fault(alloc: Global) -> bool {
    match read_all(alloc, &mut EdgeSource::new(Faulty { calls: 0 })) {
        Ok(_) => false,
        Err(error) => error == ReadAllError::Fault,
    }
}

fn writes_to_a_writer(alloc: Global) -> bool {
    let mut sink = EdgeSink::new(Vec::new(alloc));
    write_all(&mut sink, b"abc") == Ok(()) && sink.flush() == Ok(())
}

fn has_a_write_fault() -> bool {
    let mut sink = EdgeSink::new(Narrow {
        taken: 0,
        flushes: 0,
    });
    write_all(&mut sink, b"ab") == Ok(()) && write_all(&mut sink, b"c") == Err(Failed)
}

fn has_a_flush_fault() -> bool {
    let mut sink = EdgeSink::new(Narrow {
        taken: 0,
        flushes: 0,
    });
    sink.flush() == Ok(()) && sink.flush() == Err(Failed) && sink.flush() == Ok(())
}

#[test]
fn hands_on_what_a_reader_and_a_writer_answer(rt: HostRuntime) -> Result<(), Fail> {
    assert!(rt; reads_a_reader(rt.alloc()));
    assert!(rt; has_a_read_fault(rt.alloc()));
    assert!(rt; writes_to_a_writer(rt.alloc()));
    assert!(rt; has_a_write_fault());
    assert!(rt; has_a_flush_fault());
    Ok(())
}

/// How many bytes a source that was read to its end had, and why it was not.
fn read_len(alloc: Global, len: usize) -> Result<Result<usize, ReadAllError>, NoMemory> {
    let bytes = vec![in alloc; 3u8; len]?;
    match read_all(alloc, &mut CleanSource::new(bytes)) {
        Ok(bytes) => Ok(Ok(bytes.len())),
        Err(error) => Ok(Err(error)),
    }
}

#[test]
fn reads_to_the_limit(rt: HostRuntime) -> Result<(), Fail> {
    for len in [0, 1, 70_000, LIMIT] {
        assert!(rt; read_len(rt.alloc(), len)? == Ok(len), "at {len}");
    }
    Ok(())
}

#[test]
fn refuses_a_source_past_the_limit(rt: HostRuntime) -> Result<(), Fail> {
    let read = read_len(rt.alloc(), LIMIT + 1)?;
    assert!(rt; read == Err(ReadAllError::TooLong));
    Ok(())
}

fn reads_where_it_is_not_listed(alloc: Global) -> Result<bool, NoMemory> {
    let bytes = Vec::from_slice(alloc, b"abc")?;
    let mut source = MemSource::new(bytes, Vec::from_slice(alloc, &[1])?);
    let mut to = [0; 2];
    Ok(
        source.read(&mut to) == Ok(2)
            && source.read(&mut to) == Err(Failed)
            && source.read(&mut to) == Ok(1)
            && source.read(&mut to) == Ok(0),
    )
}

fn writes_where_it_is_not_listed(alloc: Global) -> Result<bool, NoMemory> {
    let mut sink = MemSink::new(alloc, 5, Vec::from_slice(alloc, &[2])?)?;
    let is_written = write_all(&mut sink, b"abc") == Ok(())
        && sink.flush() == Ok(())
        && write_all(&mut sink, b"d") == Err(Failed)
        && write_all(&mut sink, b"def") == Err(Failed)
        && write_all(&mut sink, b"de") == Ok(());
    Ok(is_written && sink.held() == b"abcde".as_slice())
}

#[test]
fn fails_where_listed(rt: HostRuntime) -> Result<(), Fail> {
    assert!(rt; reads_where_it_is_not_listed(rt.alloc())?);
    assert!(rt; writes_where_it_is_not_listed(rt.alloc())?);
    assert!(rt; write_all(&mut CleanSink::new(), b"abc") == Ok(()));
    Ok(())
}
