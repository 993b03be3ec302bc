//! Types by the calls that take them, with memory enough: what is written, what reads back, what is refused.
use ron::de::{from_bytes, from_reader, from_value};
use ron::error::Error;
use ron::raw::{RawValue, from_rust};
use ron::schema::{Deserialize, Serialize};
use ron::ser::{PrettyConfig, to_string_pretty, to_writer, to_writer_pretty};
use ron::value::{Map, Number, Value, into_rust};
use ron::{Options, from_str, to_string};
use ron_example_tree::tree::Tree;
use ron_example_types::types::borrowed::Borrowed;
use ron_example_types::types::point::Point;
use ron_example_types::types::shape::Shape;
use ron_example_types::types::window::Window;
use std::collections::BTreeMap;
use std::process::Abort;

fn owned(rt: &(impl AllocGlobal + Abort), text: &str) -> String {
    String::from_str(rt.alloc(), text).expect(rt, "memory")
}

fn number(number: Number) -> Value {
    Value::Number(number)
}

fn two(rt: &(impl AllocGlobal + Abort), one: Value, other: Value) -> Value {
    Value::Seq(vec![in rt.alloc(); one, other].expect(rt, "memory"))
}

/// A list of a list, and so on.
fn nested(rt: &(impl AllocGlobal + Abort), lists: usize) -> Value {
    let mut value = Value::Seq(Vec::new(rt.alloc()));
    for _ in 1..lists {
        value = Value::Seq(vec![in rt.alloc(); value].expect(rt, "memory"));
    }
    value
}

#[test]
fn a_struct_there_and_back(rt: HostRuntime) {
    let text = "Window ( title: \"Dragon\", size: (800, 600), fullscreen: false, )";
    let window: Window = from_str(rt.alloc(), text).expect(&rt, "a window");
    assert!(rt; window.title.as_str() == "Dragon");
    assert!(rt; window.size == (800, 600));
    let written = to_string(rt.alloc(), &window).expect(&rt, "memory");
    assert!(rt; written.as_str() == "(title:\"Dragon\",size:(800,600),fullscreen:false)");
    let again: Window = from_bytes(rt.alloc(), written.as_bytes()).expect(&rt, "a window");
    assert!(rt; again == window);
    let lines = to_string_pretty(rt.alloc(), &window, PrettyConfig::new()).expect(&rt, "memory");
    let again: Window = from_reader(rt.alloc(), &mut lines.as_bytes()).expect(&rt, "a window");
    assert!(rt; again == window);
}

#[test]
fn a_struct_to_writers(rt: HostRuntime) {
    let point = Point { x: 3, y: -4 };
    let lines = "(\n    x: 3,\n    y: -4,\n)";
    let mut text = String::new(rt.alloc());
    to_writer(rt.alloc(), &mut text, &point).expect(&rt, "memory");
    assert!(rt; text.as_str() == "(x:3,y:-4)");
    let mut text = String::new(rt.alloc());
    to_writer_pretty(rt.alloc(), &mut text, &point, PrettyConfig::new()).expect(&rt, "memory");
    assert!(rt; text.as_str() == lines);
    let options = Options::default();
    let mut bytes = Vec::new(rt.alloc());
    options
        .to_io_writer(rt.alloc(), &mut bytes, &point)
        .expect(&rt, "memory");
    assert!(rt; bytes.as_slice() == "(x:3,y:-4)".as_bytes());
    let mut bytes = Vec::new(rt.alloc());
    options
        .to_io_writer_pretty(rt.alloc(), &mut bytes, &point, PrettyConfig::new())
        .expect(&rt, "memory");
    assert!(rt; bytes.as_slice() == lines.as_bytes());
}

#[test]
fn a_struct_that_borrows(rt: HostRuntime) {
    let read: Borrowed = from_str(rt.alloc(), "Borrowed(value: \"test\")").expect(&rt, "a slice");
    assert!(rt; read.value == "test");
    let refused = from_str::<Borrowed>(rt.alloc(), "Borrowed(value: \"t\\nst\")")
        .err()
        .expect(&rt, "a refusal");
    let expected = owned(&rt, "a borrowed string");
    let found = owned(&rt, "the string \"t\\nst\"");
    assert!(rt; refused.code == Error::invalid_value(expected, found));
}

/// Reads a compact text as a value of the type, and writes it again.
fn again<'a, T: Serialize + Deserialize<'a>>(rt: &(impl AllocGlobal + Abort), text: &'a str) {
    let read: T = from_str(rt.alloc(), text).expect(rt, "a value");
    let written = to_string(rt.alloc(), &read).expect(rt, "memory");
    assert!(rt; written.as_str() == text);
}

#[test]
fn a_point_there_and_back(rt: HostRuntime) {
    again::<Point>(&rt, "(x:3,y:-4)");
}

#[test]
fn an_enum_there_and_back(rt: HostRuntime) {
    again::<Shape>(&rt, "Empty");
    again::<Shape>(&rt, "Named(\"square\")");
    again::<Shape>(&rt, "Size(3,4)");
    again::<Shape>(&rt, "At(x:-5,label:\"left\")");
    let refused = from_str::<Shape>(rt.alloc(), "Round")
        .err()
        .expect(&rt, "a refusal");
    assert!(rt; matches!(refused.code, Error::NoSuchEnumVariant { .. }));
}

#[test]
fn a_tree_there_and_back(rt: HostRuntime) {
    again::<Tree>(&rt, "(value:1,children:[],next:None)");
    again::<Tree>(
        &rt,
        "(value:1,children:[(value:2,children:[],next:None)],next:Some((value:-4,children:[],next:None)))",
    );
}

#[test]
fn lists_of_values(rt: HostRuntime) {
    let list = two(&rt, number(Number::U8(1)), number(Number::U8(2)));
    let read: Vec<u16> = into_rust(rt.alloc(), list).expect(&rt, "two numbers");
    assert!(rt; read.as_slice() == [1, 2].as_slice());
}

#[test]
fn values_that_do_not_fit(rt: HostRuntime) {
    let list = two(&rt, number(Number::U8(1)), number(Number::U8(2)));
    let refused = into_rust::<(u8, u8, u8)>(rt.alloc(), list).err();
    assert!(rt;
        refused.is_some_and(|error| matches!(
            error,
            Error::ExpectedDifferentLength { found: 2, .. }
        ))
    );
    let refused = into_rust::<u8>(rt.alloc(), number(Number::U16(300))).err();
    assert!(rt; refused.is_some_and(|error| matches!(error, Error::InvalidValueForType { .. })));
}

#[test]
fn maps_of_values(rt: HostRuntime) {
    let mut map = Map::new(rt.alloc());
    map.insert(number(Number::I8(5)), number(Number::U8(1)))
        .expect(&rt, "memory");
    map.insert(number(Number::U8(5)), number(Number::U8(2)))
        .expect(&rt, "memory");
    let read: BTreeMap<u8, u8> = into_rust(rt.alloc(), Value::Map(map)).expect(&rt, "a map");
    assert!(rt; read.len() == 1);
    assert!(rt; read.get(&5).is_some_and(|held| *held == 2));
}

#[test]
fn raw_texts_of_values(rt: HostRuntime) {
    let raw = from_rust(rt.alloc(), &nested(&rt, 64)).expect(&rt, "a raw text");
    assert!(rt; raw.get_ron().len() == 128);
    let refused = from_rust(rt.alloc(), &nested(&rt, 65))
        .err()
        .expect(&rt, "a refusal");
    assert!(rt; refused == Error::ExpectedRawValue);
    let five = RawValue::from_ron(rt.alloc(), " 5 ").expect(&rt, "a raw text");
    let read: u8 = ron::raw::into_rust(rt.alloc(), &five).expect(&rt, "a number");
    assert!(rt; read == 5);
    assert!(rt; five.as_borrowed().get_ron() == " 5 ");
    let owned = five.into_owned(rt.alloc()).expect(&rt, "memory");
    assert!(rt; owned.get_ron() == " 5 ");
}

#[test]
fn a_number_of_a_value(rt: HostRuntime) {
    let read: u16 = from_value(rt.alloc(), number(Number::U8(5))).expect(&rt, "a number");
    assert_eq!(rt; read, 5);
}
