//! A place in a message, and the text inside an `Io`. Texts, places and sets are clauses already, and rows of `ron_test_rows`
//! compare messages with the Rust crate's.
use ron_base::error::{Error, Span, SpannedError, position_after};
use std::fmt::Display;
use std::process::Abort;

/// That the value shows this text.
fn shows<T: Display>(rt: &(impl AllocGlobal + Abort), value: &T, text: &str) {
    let shown = value.to_string(rt.alloc()).expect(rt, text);
    assert!(rt; shown.as_str() == text, "{shown} in place of {text}");
}

#[test]
fn errors_with_places(rt: HostRuntime) {
    let start = position_after("");
    let end = position_after("a\näö");
    let code = Error::InvalidIntegerDigit {
        digit: '\'',
        base: 10,
    };
    let span = Span { start, end };
    shows(
        &rt,
        &SpannedError { code, span },
        "1:1-2:3: Invalid digit '\\'' for base 10 integers",
    );
}

// Std's own text is not promised, so only that it is the text inside.
#[test]
fn errors_of_devices(rt: HostRuntime) {
    let kind = std::io::ErrorKind::NotFound;
    let told = std::io::Error::from(kind)
        .to_string(rt.alloc())
        .expect(&rt, "memory");
    let made = Error::io(rt.alloc(), std::io::Error::from(kind));
    assert!(rt; made == Error::Io(told), "{made}");
}
