//! What neither a clause nor a row of `ron_test_rows` says: that a clone of options takes no memory that isn't there. That the
//! other calls find memory where there is some, and how broken texts are answered, the rows show.
//!
//! A test fails by `expect` and `assert!`. With no `?` it has one path, and is proved quickly.
use ron::options::Options;

#[test]
fn clones_options(rt: HostRuntime) {
    let options = Options::default().with_recursion_limit(5);
    let copy = options.clone().expect(&rt, "options");
    assert_eq!(rt; copy.recursion_limit, Some(5));
}
