//! Raw texts that are owned already.
use ron_de_raw::raw::RawValue;

#[test]
fn refusals_are_those_of_a_slice(rt: HostRuntime) {
    for text in ["5 // c", "#![enable(implicit_some)] 5", "5 5", ""] {
        let owned = String::from_str(rt.alloc(), text).expect(&rt, text);
        let refused = RawValue::from_boxed_ron(owned).expect_err(&rt, text);
        assert!(rt; refused == RawValue::from_ron(rt.alloc(), text).expect_err(&rt, text));
    }
}
