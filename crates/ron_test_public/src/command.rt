//! `ronv` over streams that fail.
use ronv_command::run::run;
use std::io;
use std::io::{ErrorKind, Read, Write};
use std::test::Fail;

/// A stream that fails at once.
#[derive(Drop)]
struct Broken;

impl Read for Broken {
    fn read(&mut self, _buf: &mut [u8]) -> io::Result<usize> {
        Err(io::Error::from(ErrorKind::BrokenPipe))
    }
}

impl Write for Broken {
    fn write(&mut self, _buf: &[u8]) -> io::Result<usize> {
        Err(io::Error::from(ErrorKind::BrokenPipe))
    }

    fn flush(&mut self) -> io::Result<()> {
        Ok(())
    }
}

#[test]
fn answers_one_where_a_stream_fails(rt: HostRuntime) -> Result<(), Fail> {
    let alloc = rt.alloc();
    let words = vec![in alloc; String::from_str(alloc, "point")?]?;
    let words = words.as_slice();
    let mut written = Vec::new(alloc);
    let mut told = Vec::new(alloc);
    assert_eq!(rt; run(alloc, words, &mut Broken, &mut written, &mut told), 1);
    let mut latin = [b'(', 0xff].as_slice();
    assert_eq!(rt; run(alloc, words, &mut latin, &mut written, &mut told), 1);
    let mut short = "(x:3)".as_bytes();
    assert_eq!(rt; run(alloc, words, &mut short, &mut written, &mut Broken), 1);
    assert_eq!(rt; written.len(), 0);
    let mut point = "(x:3,y:-4)".as_bytes();
    assert_eq!(rt; run(alloc, words, &mut point, &mut Broken, &mut told), 1);
    let mut unread = "(x:3,y:-4)".as_bytes();
    assert_eq!(rt; run(alloc, &[], &mut unread, &mut written, &mut Broken), 2);
    assert_eq!(rt; unread.len(), 10);
    Ok(())
}
