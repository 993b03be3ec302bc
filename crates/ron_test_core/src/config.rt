//! Configurations. What they are by default and what each setter sets are clauses, and a row of `ron_test_rows` runs each setter.
use ron_ser_config::config::PrettyConfig;
use ron_ser_config::path_meta::{Field, Fields};

#[test]
fn a_copy_is_equal(rt: HostRuntime) {
    let mut config = PrettyConfig::new().separator(String::from_str(rt.alloc(), "  ").expect(
        &rt, "memory",
    ));
    config.path_meta = Some(Field::new(String::new(rt.alloc()), Some(Fields::new(rt.alloc()))));
    let copy = config.try_clone(rt.alloc()).expect(&rt, "memory");
    assert!(rt; copy == config);
    assert!(rt; copy.depth_limit(1) != config);
}
