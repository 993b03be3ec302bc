//! What no clause says: that memory is found where there is some, and that long chains take little time.

mod imports;
mod shapes;

use ron_data_schema::schema::Shape;
use shapes::{newtype, one, schema};
use std::process::Abort;

fn chain(rt: &impl Abort, shapes: Vec<Shape>) -> usize {
    schema(rt, shapes, 0).chain()
}

/// A chain of so many newtypes, each the content of the one before it.
fn forwards(rt: &(impl Abort + AllocGlobal), count: usize) -> Vec<Shape> {
    let mut shapes = Vec::new(rt.alloc());
    for index in 0..count {
        shapes
            .push(newtype(rt, index.saturating_add(1)))
            .expect(rt, "memory");
    }
    shapes.push(Shape::Unit).expect(rt, "memory");
    shapes
}

/// A chain of so many newtypes, each the content of the one behind it.
fn backwards(rt: &(impl Abort + AllocGlobal), count: usize) -> Vec<Shape> {
    let mut shapes = one(rt, Shape::Unit);
    for index in 0..count {
        shapes.push(newtype(rt, index)).expect(rt, "memory");
    }
    shapes
}

// Following each chain to its end would take minutes.
#[test]
fn long_chains_take_little_time(rt: HostRuntime) {
    assert!(rt; chain(&rt, forwards(&rt, 100_000)) == 100_000);
    assert!(rt; chain(&rt, backwards(&rt, 100_000)) == 100_000);
}
