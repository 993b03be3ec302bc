//! What no clause says: that memory is found where there is some.
use ron_value::Map;
use ron_value::value::Value;
use std::process::Abort;

fn byte(n: u8) -> Value {
    Value::from(n)
}

fn is_unit(held: Option<&Value>) -> bool {
    matches!(held, Some(Value::Unit))
}

fn put(rt: &impl Abort, map: &mut Map, key: Value, value: Value) {
    map.insert(key, value).expect(rt, "memory");
}

#[test]
fn a_copy_shares_nothing(rt: HostRuntime) {
    let mut first = Map::new(rt.alloc());
    put(&rt, &mut first, byte(1), Value::Unit);
    let mut copy = first.try_clone().expect(&rt, "memory");
    assert!(rt; first == copy);
    assert!(rt; is_unit(copy.remove(&byte(1)).as_ref()) && copy.is_empty());
    assert!(rt; first.len() == 1 && is_unit(first.get(&byte(1))));
}

#[test]
fn a_list_is_copied(rt: HostRuntime) {
    let list = Value::seq(rt.alloc(), &[Value::Unit]).expect(&rt, "memory");
    assert!(rt; matches!(&list, Value::Seq(items) if is_unit(items.first())));
}

#[test]
fn keys_that_are_there_are_indices(rt: HostRuntime) {
    let key = Value::Bool(true);
    let mut map = Map::new(rt.alloc());
    map.insert(Value::Bool(true), Value::Unit)
        .expect(&rt, "memory");
    assert!(rt; map.get(&key).is_some());
    assert!(rt; map[&key] == Value::Unit);
    map[&key] = Value::Bool(false);
    assert!(rt; map.get(&key) == Some(&Value::Bool(false)));
}
