//! Shapes and tables that the tests share. Want of memory ends the test.
use ron_data_schema::schema::{FieldList, FieldShape, Schema, Shape};
use std::process::Abort;

pub fn text(rt: &(impl Abort + AllocGlobal), held: &str) -> String {
    String::from_str(rt.alloc(), held).expect(rt, "memory")
}

pub fn newtype(rt: &(impl Abort + AllocGlobal), content: usize) -> Shape {
    Shape::Newtype(text(rt, "N"), content)
}

fn field(rt: &(impl Abort + AllocGlobal), name: &str, shape: usize) -> FieldShape {
    FieldShape {
        name: text(rt, name),
        aliases: Vec::new(rt.alloc()),
        shape,
        may_be_missing: true,
    }
}

/// Two fields with these names, both of one shape.
pub fn fields(
    rt: &(impl Abort + AllocGlobal),
    first: &str,
    second: &str,
    shape: usize,
) -> FieldList {
    let fields = vec![in rt.alloc(); field(rt, first, shape), field(rt, second, shape)].expect(
        rt, "memory",
    );
    FieldList {
        fields,
        skip_unknown: false,
    }
}

pub fn one(rt: &(impl Abort + AllocGlobal), shape: Shape) -> Vec<Shape> {
    vec![in rt.alloc(); shape].expect(rt, "memory")
}

pub fn two(rt: &(impl Abort + AllocGlobal), first: Shape, second: Shape) -> Vec<Shape> {
    vec![in rt.alloc(); first, second].expect(rt, "memory")
}

pub fn schema(rt: &impl Abort, shapes: Vec<Shape>, root: usize) -> Schema {
    Schema::new(shapes, root).expect(rt, "a well-formed table")
}
