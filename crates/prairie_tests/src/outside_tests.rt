use pr_outside::{
    Bytes, Name, ReadError, Shelf, Sink, SureShelf, SureSink, read_up_to, write_whole,
};
use std::io;
use std::io::{Read, Write};

/// Gives one byte at a time, counting up from 0, and so many in all.
#[derive(Drop)]
struct Drops {
    given: u8,
    most: u8,
}

impl Read for Drops {
    fn read(&mut self, buf: &mut [u8]) -> io::Result<usize> {
        if self.given >= self.most || buf.is_empty() {
            return Ok(0);
        }
        buf[0] = self.given;
        self.given += 1;
        Ok(1)
    }
}

/// Takes one byte at a time, and so many in all.
#[derive(Drop)]
struct Sips {
    taken: Vec<u8>,
    most: usize,
}

impl Write for Sips {
    fn write(&mut self, buf: &[u8]) -> io::Result<usize> {
        if self.taken.len() >= self.most || buf.is_empty() {
            return Ok(0);
        }
        match self.taken.push(buf[0]) {
            Ok(()) => Ok(1),
            Err(_) => Err(io::Error::from(io::ErrorKind::OutOfMemory)),
        }
    }

    fn flush(&mut self) -> io::Result<()> {
        Ok(())
    }
}

#[test]
fn readers_may_give_a_byte_at_a_time(rt: HostRuntime) {
    for (held, most, wanted) in [(0, 5, 0), (3, 5, 3), (5, 5, 5), (6, 5, 6), (9, 5, 6)] {
        let mut bytes = Vec::new(rt.alloc());
        let mut drops = Drops {
            given: 0,
            most: held,
        };
        let read: Result<(), ReadError> = read_up_to(&mut drops, most, &mut bytes);
        assert!(rt; read.is_ok() && bytes.len() == wanted, "{held}");
    }
}

#[test]
fn writers_may_take_a_byte_at_a_time(rt: HostRuntime) {
    for (most, is_whole) in [(0, false), (2, false), (3, true), (9, true)] {
        let mut sips = Sips {
            taken: Vec::new(rt.alloc()),
            most,
        };
        let written = write_whole(&mut sips, b"abc");
        assert_eq!(rt; written.is_ok(), is_whole, "{most}");
        assert_eq!(rt; sips.taken.len(), most.min(3), "{most}");
    }
}

#[test]
fn what_is_sure_gives(rt: HostRuntime) {
    let alloc = rt.alloc();
    let mut shelf = SureShelf::new(alloc);
    let name = Name::new(alloc, "rules").expect(&rt, "memory");
    let bytes = Bytes::new(alloc, b"text").expect(&rt, "memory");
    shelf.hold(name, bytes).expect(&rt, "memory");
    let name = Name::new(alloc, "rules").expect(&rt, "memory");
    let fetched = shelf.fetch(alloc, &name, 4).expect(&rt, "fetch");
    assert_eq!(rt; fetched.as_slice(), b"text".as_slice());
}

#[test]
fn what_is_sure_takes(rt: HostRuntime) {
    let alloc = rt.alloc();
    let mut sink = SureSink::new(alloc);
    sink.put(alloc, b"a ").expect(&rt, "put");
    sink.put(alloc, b"line\n").expect(&rt, "put");
    assert_eq!(rt; sink.bytes(), b"a line\n".as_slice());
}
