//! Serializers over texts, and over writers that fail.
use ron::error::Error;
use ron::options::Options;
use ron::schema::{Data, ParsedStr};
use ron::ser::{Serializer, ToText};
use std::fmt;
use std::process::Abort;

/// A writer that refuses its first piece, and counts those that it takes.
#[derive(Drop)]
struct Balking {
    has_refused: bool,
    taken: usize,
}

impl fmt::Write for Balking {
    ghost use Rattle.std.specs.Bool.{⊤};

    ghost write_str_gives = { λ _ _ _. ⊤ };

    fn write_str(&mut self, _text: &str) -> fmt::Result {
        if !self.has_refused {
            self.has_refused = true;
            return Err(fmt::Error);
        }
        self.taken = self.taken.saturating_add(1);
        Ok(())
    }
}

#[test]
fn writes_value_by_value(rt: HostRuntime) {
    let text = String::new(rt.alloc());
    let mut serializer = Serializer::new(rt.alloc(), text, None).expect(&rt, "memory");
    serializer.write(&Data::Bool(true)).expect(&rt, "memory");
    serializer.write(&Data::Unit).expect(&rt, "memory");
    assert!(rt; serializer.into_inner().as_str() == "true()");
}

#[test]
fn puts_text_into_memory(rt: HostRuntime) {
    let text = String::new(rt.alloc());
    let options = Options::default();
    let mut serializer = Serializer::through(rt.alloc(), text, ToText, None, &options).expect(
        &rt, "memory",
    );
    serializer.write(&Data::Char('x')).expect(&rt, "memory");
    assert!(rt; serializer.into_inner().as_str() == "'x'");
}

/// That the data is refused with this error.
fn refuses(rt: &impl Abort, serializer: &mut Serializer<Balking>, data: &Data, expected: Error) {
    let told = serializer.write(data);
    assert!(rt; told == Err(expected));
}

#[test]
fn leaves_a_writer_alone_that_failed(rt: HostRuntime) {
    let writer = Balking {
        has_refused: false,
        taken: 0,
    };
    let mut serializer = Serializer::new(rt.alloc(), writer, None).expect(&rt, "memory");
    let pieces = Data::Str(ParsedStr::Slice("one\ntwo"));
    refuses(&rt, &mut serializer, &pieces, Error::Fmt);
    refuses(&rt, &mut serializer, &pieces, Error::Failed);
    assert!(rt; serializer.into_inner().taken == 0);
}
