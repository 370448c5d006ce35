use crate::read_full;
use std::io;
use std::io::Read;

// Gives the bytes one a call, and fails where none is left, if it is to.
#[derive(Drop)]
struct Pieces {
    bytes: &'static [u8],
    fails: bool,
}

impl Read for Pieces {
    fn read(&mut self, buf: &mut [u8]) -> io::Result<usize> {
        if self.bytes.is_empty() && self.fails {
            return Err(io::ErrorKind::Other.into());
        }
        if self.bytes.is_empty() || buf.is_empty() {
            return Ok(0);
        }
        buf[0] = self.bytes[0];
        self.bytes = &self.bytes[1..];
        Ok(1)
    }
}

#[test]
fn reads_in_pieces(rt: HostRuntime) {
    let mut buf = [0u8; 4];
    let mut reader = Pieces {
        bytes: b"abc",
        fails: false,
    };
    assert_eq!(rt; read_full(&mut reader, &mut buf).ok(), Some(3));
    assert_eq!(rt; buf, [97, 98, 99, 0]);
    assert_eq!(rt; read_full(&mut reader, &mut buf).ok(), Some(0));
    let mut reader = Pieces {
        bytes: b"defghi",
        fails: false,
    };
    assert_eq!(rt; read_full(&mut reader, &mut buf).ok(), Some(4));
    assert_eq!(rt; buf, [100, 101, 102, 103]);
    assert_eq!(rt; read_full(&mut reader, &mut buf).ok(), Some(2));
}

#[test]
fn tells_a_read_that_fails(rt: HostRuntime) {
    let mut buf = [0u8; 4];
    let mut reader = Pieces {
        bytes: b"abc",
        fails: true,
    };
    assert_eq!(rt;
        read_full(&mut reader, &mut buf).err().map(|e| e.kind()),
        Some(io::ErrorKind::Other)
    );
    let mut reader = Pieces {
        bytes: b"abcd",
        fails: true,
    };
    assert_eq!(rt; read_full(&mut reader, &mut buf).ok(), Some(4));
}
