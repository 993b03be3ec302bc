//! Tables that are put behind others.
use super::shapes::{fields, one, schema, text, two};
use ron_data_schema::schema::{Schema, Shape, VariantShape};
use std::process::Abort;

fn indices(rt: &(impl Abort + AllocGlobal), first: usize, second: usize) -> Vec<usize> {
    vec![in rt.alloc(); first, second].expect(rt, "memory")
}

fn holds(rt: &impl Abort, schema: &Schema, index: usize, shape: &Shape) {
    assert!(rt; schema.shape(index) == Some(shape));
}

/// The list with the schema's table behind it, whose root then stands at this index.
fn import(rt: &impl Abort, shapes: &mut Vec<Shape>, schema: &Schema, root: usize) {
    assert!(rt; Schema::import(shapes, schema) == Ok(root));
}

fn variant(
    rt: &impl Abort,
    list: &mut Vec<(String, VariantShape)>,
    name: String,
    content: VariantShape,
) {
    list.push((name, content)).expect(rt, "memory");
}

/// An enum with a variant of each form, each index of which is this one.
fn each_variant(rt: &(impl Abort + AllocGlobal), index: usize) -> Shape {
    let mut list = Vec::new(rt.alloc());
    variant(rt, &mut list, text(rt, "A"), VariantShape::Unit);
    variant(rt, &mut list, text(rt, "B"), VariantShape::Newtype(index));
    variant(
        rt,
        &mut list,
        text(rt, "C"),
        VariantShape::Tuple(indices(rt, index, index)),
    );
    variant(
        rt,
        &mut list,
        text(rt, "D"),
        VariantShape::Struct(fields(rt, "a", "b", index)),
    );
    Shape::Enum(text(rt, "E"), list)
}

fn behind_an_option(rt: &(impl Abort + AllocGlobal)) -> Schema {
    let held = schema(rt, two(rt, Shape::Map(0, 1), each_variant(rt, 1)), 1);
    let mut shapes = one(rt, Shape::Option(1));
    import(rt, &mut shapes, &held, 2);
    schema(rt, shapes, 0)
}

#[test]
fn imports_maps_and_enums(rt: HostRuntime) {
    let all = behind_an_option(&rt);
    assert!(rt; all.chain() == 1);
    holds(&rt, &all, 0, &Shape::Option(1));
    holds(&rt, &all, 1, &Shape::Map(1, 2));
    holds(&rt, &all, 2, &each_variant(&rt, 2));
}
