//! Types as configurations have them, and bytes, ranges and raw texts: what is read, written, refused, and made again.
use ron::error::Error;
use ron::raw::RawValue;
use ron::schema::{Deserialize, Faithful, Serialize, made_again};
use ron::types::{
    Bytes, OwnedRaw, Range, RangeFrom, RangeFull, RangeInclusive, RangeTo, RangeToInclusive,
};
use ron::{from_str, to_string};
use ron_example_configurations::assets::Assets;
use ron_example_configurations::settings::Settings;
use std::process::Abort;

/// That a value of the type, read of this text, is written so.
fn is_written<'a, T: Serialize + Deserialize<'a>>(
    rt: &(impl AllocGlobal + Abort),
    text: &'a str,
    written: &str,
) {
    let read: T = from_str(rt.alloc(), text).expect(rt, "a value");
    let again = to_string(rt.alloc(), &read).expect(rt, "memory");
    assert!(rt; again.as_str() == written);
}

/// Why no value of the type is read of this text.
fn refusal<'a, T: Deserialize<'a>>(rt: &(impl AllocGlobal + Abort), text: &'a str) -> Error {
    let outcome = from_str::<T>(rt.alloc(), text);
    outcome.err().expect(rt, "a refusal").code
}

/// That an equal value is made of a value's data.
fn comes_back<'a, T: Faithful + Serialize + Deserialize<'a>>(
    rt: &(impl AllocGlobal + Abort),
    value: &'a T,
) {
    let again = made_again(rt.alloc(), value).ok().expect(rt, "a value");
    assert!(rt; again == *value);
}

#[test]
fn settings_that_leave_fields_out(rt: HostRuntime) {
    is_written::<Settings>(
        &rt,
        "(name: \"a\", listen: \"b\", roots: [], verbose: true)",
        "(name:\"a\",listen:\"b\",port:8080,log:None,roots:[],verbose:true)",
    );
}

#[test]
fn settings_by_other_names_in_another_order(rt: HostRuntime) {
    is_written::<Settings>(
        &rt,
        "(verbose: false, tcp_port: 9, workers: 4, bind: \"b\", roots: [\"/\"], log: Some(\"l\"), name: \"a\")",
        "(name:\"a\",listen:\"b\",port:9,workers:4,log:Some(\"l\"),roots:[\"/\"],verbose:false)",
    );
}

#[test]
fn settings_that_are_refused(rt: HostRuntime) {
    let error = refusal::<Settings>(&rt, "(name: \"a\", roots: [], verbose: true)");
    assert!(rt; matches!(error, Error::MissingStructField { .. }));
    let twice = "(name: \"a\", listen: \"b\", bind: \"c\", roots: [], verbose: true)";
    let error = refusal::<Settings>(&rt, twice);
    assert!(rt; matches!(error, Error::DuplicateStructField { .. }));
}

#[test]
fn assets_with_fields_that_are_not_known(rt: HostRuntime) {
    is_written::<Assets>(
        &rt,
        "([(file: \"a\", made: {1: [(), 'x']}, size: (2, 3)), (path: \"b\", tags: [\"c\"])])",
        "([(path:\"a\",size:(2,3),tags:[]),(path:\"b\",tags:[\"c\"])])",
    );
}

#[test]
fn ranges_bytes_and_raw_texts_are_written(rt: HostRuntime) {
    is_written::<Range<u32>>(&rt, "1..5", "(start:1,end:5)");
    is_written::<RangeFull>(&rt, "..", "()");
    is_written::<Bytes>(&rt, "[97, 255]", "b\"a\\xff\"");
    is_written::<OwnedRaw>(&rt, "[1,  2]", "[1,  2]");
}

#[test]
fn ranges_come_back(rt: HostRuntime) {
    let (start, end) = (1u8, 5u8);
    comes_back(&rt, &Range { start, end });
    comes_back(&rt, &RangeFrom { start });
    comes_back(&rt, &RangeTo { end });
    comes_back(&rt, &RangeInclusive { start, end });
    comes_back(&rt, &RangeToInclusive { end });
    comes_back(&rt, &RangeFull);
}

#[test]
fn bytes_and_raw_texts_come_back(rt: HostRuntime) {
    let bytes = vec![in rt.alloc(); 1u8, 255u8].expect(&rt, "memory");
    comes_back(&rt, &Bytes(bytes));
    let raw = RawValue::from_ron(rt.alloc(), " 'b' ").expect(&rt, "a raw text");
    comes_back(&rt, &OwnedRaw(raw));
}
