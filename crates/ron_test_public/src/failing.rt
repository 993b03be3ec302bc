//! Writing types to writers that fail at any call, and by layouts that are refused.
use ron::Options;
use ron::error::Error;
use ron::extensions::Extensions;
use ron::ser::{PrettyConfig, Serializer, to_writer, to_writer_pretty};
use ron_example_types::types::point::Point;
use std::alloc::Global;
use std::io::ErrorKind;
use std::process::Abort;
use std::{fmt, io};

const COMPACT: &str = "(x:3,y:-4)";

const LINES: &str = "(\n    x: 3,\n    y: -4,\n)";

/// A writer that fails at the call of this number, and takes all that the others give.
#[derive(Drop)]
struct FailsOnce {
    taken: Vec<u8>,
    calls: usize,
    fails_at: usize,
}

impl FailsOnce {
    fn new(alloc: Global, fails_at: usize) -> Self {
        FailsOnce {
            taken: Vec::new(alloc),
            calls: 0,
            fails_at,
        }
    }

    fn has_failed(&self) -> bool {
        self.calls > self.fails_at
    }

    /// Whether the bytes were taken.
    fn take(&mut self, bytes: &[u8]) -> bool {
        let fails = self.calls == self.fails_at;
        self.calls = self.calls.saturating_add(1);
        !fails && self.taken.extend_from_slice(bytes).is_ok()
    }

    /// That all was taken; or that it failed, was called no more, and took a beginning.
    fn holds(&self, rt: &impl Abort, whole: &str) {
        let taken = self.taken.as_slice();
        if self.has_failed() {
            assert!(rt; self.calls.saturating_sub(1) == self.fails_at);
            assert!(rt; whole.as_bytes().starts_with(taken) && taken.len() < whole.len());
        } else {
            assert!(rt; taken == whole.as_bytes());
        }
    }
}

impl fmt::Write for FailsOnce {
    ghost use Rattle.std.specs.Bool.{⊤};

    ghost write_str_gives = { λ _ _ _. ⊤ };

    fn write_str(&mut self, text: &str) -> fmt::Result {
        if self.take(text.as_bytes()) {
            Ok(())
        } else {
            Err(fmt::Error)
        }
    }
}

/// A device that takes three bytes at most in a call.
#[derive(Drop)]
struct Narrow(FailsOnce);

impl io::Write for Narrow {
    fn write(&mut self, buffer: &[u8]) -> io::Result<usize> {
        let count = buffer.len().min(3);
        if self.0.take(&buffer[..count]) {
            Ok(count)
        } else {
            Err(io::Error::from(ErrorKind::BrokenPipe))
        }
    }

    fn flush(&mut self) -> io::Result<()> {
        Ok(())
    }
}

#[test]
fn a_writer_that_fails_at_any_call(rt: HostRuntime) {
    let point = Point { x: 3, y: -4 };
    for fails_at in 0..16 {
        let mut writer = FailsOnce::new(rt.alloc(), fails_at);
        let answer = to_writer(rt.alloc(), &mut writer, &point);
        assert!(rt; answer.is_ok() != writer.has_failed());
        assert!(rt; matches!(answer, Err(Error::Fmt)) == writer.has_failed());
        writer.holds(&rt, COMPACT);
    }
}

#[test]
fn a_writer_of_lines_that_fails_at_any_call(rt: HostRuntime) {
    let point = Point { x: 3, y: -4 };
    for fails_at in 0..32 {
        let mut writer = FailsOnce::new(rt.alloc(), fails_at);
        let answer = to_writer_pretty(rt.alloc(), &mut writer, &point, PrettyConfig::new());
        assert!(rt; answer.is_ok() != writer.has_failed());
        assert!(rt; matches!(answer, Err(Error::Fmt)) == writer.has_failed());
        writer.holds(&rt, LINES);
    }
}

#[test]
fn a_device_that_fails_at_any_call(rt: HostRuntime) {
    let point = Point { x: 3, y: -4 };
    for fails_at in 0..8 {
        let mut device = Narrow(FailsOnce::new(rt.alloc(), fails_at));
        let answer = Options::default().to_io_writer(rt.alloc(), &mut device, &point);
        assert!(rt; answer.is_ok() != device.0.has_failed());
        assert!(rt; matches!(answer, Err(Error::Io(_))) == device.0.has_failed());
        device.0.holds(&rt, COMPACT);
    }
}

/// A layout that announces an extension, with a text that isn't blank.
fn crooked() -> PrettyConfig {
    PrettyConfig::new()
        .new_line("x")
        .extensions(Extensions::UNWRAP_NEWTYPES)
}

#[test]
fn a_layout_that_is_refused_calls_no_writer(rt: HostRuntime) {
    let point = Point { x: 3, y: -4 };
    let mut writer = FailsOnce::new(rt.alloc(), 100);
    let answer = to_writer_pretty(rt.alloc(), &mut writer, &point, crooked());
    assert!(rt; matches!(answer, Err(Error::Message(_))));
    let made = Serializer::new(rt.alloc(), &mut writer, Some(crooked()));
    assert!(rt; matches!(made, Err(Error::Message(_))));
    drop(made);
    assert!(rt; writer.calls == 0);
}
