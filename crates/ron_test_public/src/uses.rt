//! The callers, with memory enough.
use ron::options::Options;
use ron::schema::{Schema, Shape, Width};
use ron_example_types::documented::document_point;
use ron_example_types::point::tell_point;
use ron_example_types::round_trip::read_back;

#[test]
fn tells_a_point(rt: HostRuntime) {
    let told = tell_point(rt.alloc(), "Point ( x : 3, y: -4, )").expect(&rt, "memory");
    assert!(rt; told.as_str() == "3 right and -4 up: (x:3,y:-4)");
    let told = tell_point(rt.alloc(), "(x: 3, z: 4)").expect(&rt, "memory");
    assert!(rt;
        told.as_str()
            == "refused at 1:8-1:9: Unexpected field named `z` in `Point`, expected either `x` or `y` instead"
    );
}

#[test]
fn reads_a_number_back(rt: HostRuntime) {
    let shapes = vec![in rt.alloc(); Shape::Int(Width::I128)].expect(&rt, "memory");
    let schema = Schema::new(shapes, 0).expect(&rt, "a schema");
    let options = Options::default();
    let written = read_back(rt.alloc(), &options, &schema, " -0127 ").expect(&rt, "memory");
    assert!(rt; written.as_str() == "-127");
}

#[test]
fn documents_a_point(rt: HostRuntime) {
    let written = document_point(rt.alloc(), "(x: 3, y: -4)").expect(&rt, "memory");
    let lines = "(\n    /// How far right it lies.\n    x: 3,\n    y: -4,\n)";
    assert!(rt; written.as_str() == lines);
}
