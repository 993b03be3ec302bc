//! That memory is found where there is some: each type's schema, data, and value back; and what is refused.
use ron_base::error::Error;
use ron_data::data::Data;
use ron_de_raw::raw::RawValue;
use ron_lex_text::parsed::ParsedStr;
use ron_types::faithful::{Faithful, made_again};
use ron_types::traits::{Deserialize, Schematic, Serialize};
use ron_value::value::Value;
use ron_value_number::Number;
use std::collections::BTreeMap;
use std::process::Abort;

/// The value that is made of a value's data, where the type's schema has this many shapes.
fn again<'a, T: Serialize + Deserialize<'a>>(
    rt: &(impl AllocGlobal + Abort),
    shapes: usize,
    value: &'a T,
) -> T {
    let schema = T::schema(rt.alloc()).expect(rt, "a schema");
    assert!(rt; schema.len() == shapes);
    assert!(rt; schema.root() + 1 == shapes);
    let data = value.to_data(rt.alloc()).expect(rt, "data");
    T::from_data(rt.alloc(), data).expect(rt, "a value")
}

/// The error that refuses data.
fn refusal<'a, T: Deserialize<'a>>(rt: &(impl AllocGlobal + Abort), from: Data<'a>) -> Error {
    T::from_data(rt.alloc(), from).err().expect(rt, "a refusal")
}

/// That the data is refused as another kind than is expected. One comparison serves all tests, since each is proved.
fn refuses<'a, T: Deserialize<'a>>(
    rt: &(impl AllocGlobal + Abort),
    from: Data<'a>,
    expected: &str,
    found: &str,
) {
    let error = refusal::<T>(rt, from);
    assert!(rt; error == Error::invalid_value(owned(rt, expected), owned(rt, found)));
}

fn owned(rt: &(impl AllocGlobal + Abort), text: &str) -> String {
    String::from_str(rt.alloc(), text).expect(rt, "memory")
}

#[test]
fn signed_numbers(rt: HostRuntime) {
    assert!(rt; again(&rt, 1, &i8::MIN) == i8::MIN);
    assert!(rt; again(&rt, 1, &i16::MIN) == i16::MIN);
    assert!(rt; again(&rt, 1, &i32::MIN) == i32::MIN);
    assert!(rt; again(&rt, 1, &i64::MIN) == i64::MIN);
    assert!(rt; again(&rt, 1, &i128::MIN) == i128::MIN);
}

#[test]
fn unsigned_numbers(rt: HostRuntime) {
    assert!(rt; again(&rt, 1, &u8::MAX) == u8::MAX);
    assert!(rt; again(&rt, 1, &u16::MAX) == u16::MAX);
    assert!(rt; again(&rt, 1, &u32::MAX) == u32::MAX);
    assert!(rt; again(&rt, 1, &u64::MAX) == u64::MAX);
    assert!(rt; again(&rt, 1, &u128::MAX) == u128::MAX);
}

#[test]
fn numbers_of_another_width(rt: HostRuntime) {
    refuses::<i8>(
        &rt,
        Data::Int(Number::U8(3)),
        "i8",
        "the unsigned integer `3`",
    );
    refuses::<u128>(&rt, Data::Unit, "an integer", "a unit value");
}

#[test]
fn leaves(rt: HostRuntime) {
    assert!(rt; again(&rt, 1, &true));
    assert!(rt; again(&rt, 1, &'é') == 'é');
    again(&rt, 1, &());
    refuses::<bool>(&rt, Data::Char('t'), "a boolean", "a character");
    refuses::<char>(&rt, Data::Bool(true), "a character", "a boolean");
    refuses::<()>(&rt, Data::Bool(true), "a unit value", "a boolean");
}

#[test]
fn texts(rt: HostRuntime) {
    let text = owned(&rt, "a\"é");
    assert!(rt; again(&rt, 1, &text).as_str() == "a\"é");
    assert!(rt; again(&rt, 1, &"b") == "b");
    refuses::<String>(&rt, Data::Unit, "a string", "a unit value");
    refuses::<&str>(
        &rt,
        Data::Str(ParsedStr::Allocated(text)),
        "a borrowed string",
        "the string \"a\\\"é\"",
    );
}

#[test]
fn values(rt: HostRuntime) {
    let value = Value::string(rt.alloc(), "v").expect(&rt, "memory");
    assert!(rt; again(&rt, 1, &value) == value);
    refuses::<Value>(&rt, Data::Unit, "any value", "a unit value");
    let raw = RawValue::from_ron(rt.alloc(), " [1] ").expect(&rt, "a raw value");
    assert!(rt; again(&rt, 1, &raw).get_ron() == " [1] ");
    refuses::<RawValue>(&rt, Data::Unit, "a raw value", "a unit value");
}

#[test]
fn options_and_boxes(rt: HostRuntime) {
    assert!(rt; again(&rt, 2, &Some(3u8)) == Some(3u8));
    assert!(rt; again(&rt, 2, &None::<u8>).is_none());
    refuses::<Option<u8>>(&rt, Data::Unit, "an optional value", "a unit value");
    let boxed = Box::new(rt.alloc(), 4u8).expect(&rt, "memory");
    assert!(rt; *again(&rt, 1, &boxed) == 4);
}

#[test]
fn lists(rt: HostRuntime) {
    let list = vec![in rt.alloc(); true, false].expect(&rt, "memory");
    assert!(rt; again(&rt, 2, &list).as_slice() == [true, false].as_slice());
    refuses::<Vec<bool>>(&rt, Data::Unit, "a sequence", "a unit value");
    let items = vec![in rt.alloc(); Data::Bool(true), Data::Unit].expect(&rt, "memory");
    refuses::<Vec<bool>>(&rt, Data::Seq(items), "a boolean", "a unit value");
}

#[test]
fn tuples(rt: HostRuntime) {
    assert!(rt; again(&rt, 2, &(1u8,)) == (1,));
    assert!(rt; again(&rt, 3, &(1u8, true)) == (1, true));
    assert!(rt; again(&rt, 4, &(1u8, true, 'c')) == (1, true, 'c'));
    assert!(rt; again(&rt, 5, &(1u8, true, 'c', 2i8)) == (1, true, 'c', 2));
    let items = vec![in rt.alloc(); Data::Bool(true)].expect(&rt, "memory");
    let error = refusal::<(bool, bool)>(&rt, Data::Tuple(items));
    let expected = Error::invalid_length(1, owned(&rt, "a tuple of size 2"));
    assert!(rt; error == expected);
}

fn put<K: Ord + Drop>(
    rt: &impl Abort,
    map: &mut BTreeMap<K, Option<bool>>,
    key: K,
    value: Option<bool>,
) {
    let put: Result<_, _> = map.insert(key, value);
    let _ = put.expect(rt, "memory");
}

#[test]
fn maps(rt: HostRuntime) {
    let mut map = BTreeMap::new(rt.alloc());
    put(&rt, &mut map, 7u8, Some(true));
    put(&rt, &mut map, 3u8, None);
    let back = again(&rt, 4, &map);
    assert!(rt; back.len() == 2);
    assert!(rt; back.get(&7u8) == Some(&Some(true)));
    refuses::<BTreeMap<u8, bool>>(&rt, Data::Unit, "a map", "a unit value");
}

#[test]
fn maps_by_text(rt: HostRuntime) {
    let mut map = BTreeMap::new(rt.alloc());
    put(&rt, &mut map, owned(&rt, "b"), None);
    put(&rt, &mut map, owned(&rt, "a"), Some(false));
    let back = again(&rt, 4, &map);
    assert!(rt; back.len() == 2);
    assert!(rt; back.get("a") == Some(&Some(false)));
}

#[test]
fn maps_by_units_and_values(rt: HostRuntime) {
    let mut by_units = BTreeMap::new(rt.alloc());
    put(&rt, &mut by_units, (), Some(true));
    assert!(rt; again(&rt, 4, &by_units).get(&()) == Some(&Some(true)));
    let mut by_values = BTreeMap::new(rt.alloc());
    let key = Value::string(rt.alloc(), "v").expect(&rt, "memory");
    put(&rt, &mut by_values, key, None);
    assert!(rt; again(&rt, 4, &by_values).len() == 1);
}

#[test]
fn maps_by_options_and_boxes(rt: HostRuntime) {
    let mut by_options = BTreeMap::new(rt.alloc());
    put(&rt, &mut by_options, Some('a'), Some(true));
    put(&rt, &mut by_options, None, None);
    let back = again(&rt, 5, &by_options);
    assert!(rt; back.len() == 2);
    assert!(rt; back.get(&Some('a')) == Some(&Some(true)));
    let mut by_boxes = BTreeMap::new(rt.alloc());
    put(
        &rt,
        &mut by_boxes,
        Box::new(rt.alloc(), 4u8).expect(&rt, "memory"),
        None,
    );
    assert!(rt; again(&rt, 4, &by_boxes).len() == 1);
}

#[test]
fn maps_by_lists(rt: HostRuntime) {
    let mut map = BTreeMap::new(rt.alloc());
    let short = vec![in rt.alloc(); 'b'].expect(&rt, "memory");
    let long = vec![in rt.alloc(); 'b', 'a'].expect(&rt, "memory");
    put(&rt, &mut map, long, None);
    put(&rt, &mut map, short, Some(true));
    assert!(rt; again(&rt, 5, &map).len() == 2);
}

#[test]
fn maps_by_tuples(rt: HostRuntime) {
    let mut by_one = BTreeMap::new(rt.alloc());
    put(&rt, &mut by_one, (1u8,), None);
    assert!(rt; again(&rt, 5, &by_one).get(&(1,)) == Some(&None));
    let mut by_two = BTreeMap::new(rt.alloc());
    put(&rt, &mut by_two, (1u8, 'b'), None);
    assert!(rt; again(&rt, 6, &by_two).get(&(1, 'b')) == Some(&None));
}

#[test]
fn maps_by_longer_tuples(rt: HostRuntime) {
    let mut by_three = BTreeMap::new(rt.alloc());
    put(&rt, &mut by_three, (1u8, true, 'c'), None);
    assert!(rt; again(&rt, 7, &by_three).get(&(1, true, 'c')) == Some(&None));
    let mut by_four = BTreeMap::new(rt.alloc());
    put(&rt, &mut by_four, (1u8, true, 'c', 2i8), None);
    assert!(rt; again(&rt, 8, &by_four).get(&(1, true, 'c', 2)) == Some(&None));
}

/// That an equal value is made of a value's data.
fn comes_back<'a, T: Faithful + Serialize + Deserialize<'a>>(
    rt: &(impl AllocGlobal + Abort),
    value: &'a T,
) {
    let again = made_again(rt.alloc(), value).expect(rt, "a value");
    assert!(rt; again == *value);
}

#[test]
fn leaves_come_back(rt: HostRuntime) {
    comes_back(&rt, &true);
    comes_back(&rt, &'c');
    comes_back(&rt, &());
    comes_back(&rt, &(7u8, -7i8));
    comes_back(&rt, &owned(&rt, "b"));
    comes_back(&rt, &"b");
    comes_back(
        &rt,
        &RawValue::from_ron(rt.alloc(), " 'b' ").expect(&rt, "raw"),
    );
}

#[test]
fn parts_come_back(rt: HostRuntime) {
    comes_back(
        &rt,
        &(Some(true), ('a',), (1u8, 2u8, 3u8), (1u8, 2u8, 3u8, 4u8)),
    );
    comes_back(&rt, &vec![in rt.alloc(); 1u8, 2u8].expect(&rt, "memory"));
    comes_back(&rt, &Box::new(rt.alloc(), 4u8).expect(&rt, "memory"));
    comes_back(&rt, &Value::string(rt.alloc(), "v").expect(&rt, "memory"));
    let mut map = BTreeMap::new(rt.alloc());
    put(&rt, &mut map, 7u8, Some(true));
    comes_back(&rt, &map);
}
