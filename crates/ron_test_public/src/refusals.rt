//! What types' refusals of data tell: names as they are wanted and as they were found, and kinds.
use ron::error::Error;
use ron::raw::RawValue;
use ron::schema::{AnyValue, Data, Deserialize, ParsedByteStr, ParsedStr, VariantData};
use ron::value::{Number, Value};
use ron_example_types::types::point::Point;
use ron_example_types::types::shape::Shape;
use std::process::Abort;

fn owned(rt: &(impl AllocGlobal + Abort), text: &str) -> String {
    String::from_str(rt.alloc(), text).expect(rt, "memory")
}

/// That the type refuses the data with this error. One comparison serves all tests, since each is proved.
fn refuses<'a, T: Deserialize<'a>>(
    rt: &(impl AllocGlobal + Abort),
    from: Data<'a>,
    expected: Error,
) {
    let error = T::from_data(rt.alloc(), from).err().expect(rt, "a refusal");
    assert!(rt; error == expected, "{error} in place of {expected}");
}

/// A struct of this name whose fields have these names.
fn struct_of<'a>(rt: &(impl AllocGlobal + Abort), name: &str, names: &[&str]) -> Data<'a> {
    let mut fields = Vec::new(rt.alloc());
    for name in names {
        fields
            .push((owned(rt, name), Data::Int(Number::I32(1))))
            .expect(rt, "memory");
    }
    Data::Struct(owned(rt, name), fields)
}

/// A variant of this name, of a `Shape`.
fn variant_of<'a>(
    rt: &(impl AllocGlobal + Abort),
    variant: &str,
    content: VariantData<'a>,
) -> Data<'a> {
    Data::Variant {
        name: owned(rt, "Shape"),
        variant: owned(rt, variant),
        content,
    }
}

#[test]
fn names_of_types(rt: HostRuntime) {
    let expected = Error::ExpectedDifferentStructName {
        expected: owned(&rt, "Point"),
        found: owned(&rt, "Line"),
    };
    refuses::<Point>(&rt, struct_of(&rt, "Line", &["x", "y"]), expected);
    let expected = Error::ExpectedDifferentStructName {
        expected: owned(&rt, "Shape"),
        found: owned(&rt, "Form"),
    };
    let form = Data::Variant {
        name: owned(&rt, "Form"),
        variant: owned(&rt, "Empty"),
        content: VariantData::Unit,
    };
    refuses::<Shape>(&rt, form, expected);
}

fn lacks(rt: &(impl AllocGlobal + Abort), names: &[&str], lacking: &str) {
    refuses::<Point>(
        rt,
        struct_of(rt, "Point", names),
        Error::missing_field(owned(rt, lacking)),
    );
}

#[test]
fn names_of_fields(rt: HostRuntime) {
    lacks(&rt, &[], "x");
    lacks(&rt, &["x"], "y");
    lacks(&rt, &["y", "x"], "x");
    lacks(&rt, &["x", "z"], "y");
    refuses::<Point>(
        &rt,
        struct_of(&rt, "Point", &["x", "y", "z"]),
        Error::invalid_length(1, owned(&rt, "no further field")),
    );
}

#[test]
fn names_of_variants(rt: HostRuntime) {
    let mut known = Vec::new(rt.alloc());
    for name in ["Empty", "Named", "Size", "At"] {
        known.push(owned(&rt, name)).expect(&rt, "memory");
    }
    refuses::<Shape>(
        &rt,
        variant_of(&rt, "Round", VariantData::Unit),
        Error::unknown_variant(owned(&rt, "Round"), known),
    );
}

/// That this variant of a `Shape` is refused for what it holds.
fn holds(
    rt: &(impl AllocGlobal + Abort),
    variant: &str,
    content: VariantData,
    expected: &str,
    found: &str,
) {
    refuses::<Shape>(
        rt,
        variant_of(rt, variant, content),
        Error::invalid_value(owned(rt, expected), owned(rt, found)),
    );
}

#[test]
fn contents_of_variants(rt: HostRuntime) {
    let held = Box::new(rt.alloc(), Data::Unit).expect(&rt, "memory");
    let newtype = VariantData::Newtype(held);
    holds(&rt, "Empty", newtype, "a unit variant", "a newtype variant");
    let unit = VariantData::Unit;
    holds(&rt, "Named", unit, "a newtype variant", "a unit variant");
    let fields = VariantData::Struct(Vec::new(rt.alloc()));
    holds(&rt, "Size", fields, "a tuple variant", "a struct variant");
    let items = VariantData::Tuple(Vec::new(rt.alloc()));
    holds(&rt, "At", items, "a struct variant", "a tuple variant");
}

/// That the data is told as of this kind.
fn is_kind(rt: &(impl AllocGlobal + Abort), from: Data, kind: &str) {
    refuses::<Shape>(
        rt,
        from,
        Error::invalid_value(owned(rt, "an enum"), owned(rt, kind)),
    );
}

#[test]
fn kinds_of_leaves(rt: HostRuntime) {
    is_kind(&rt, Data::Bool(true), "a boolean");
    is_kind(&rt, Data::Int(Number::U8(1)), "an integer");
    is_kind(&rt, Data::Char('c'), "a character");
    is_kind(&rt, Data::Str(ParsedStr::Slice("s")), "a string");
    is_kind(
        &rt,
        Data::Bytes(ParsedByteStr::Slice("b".as_bytes())),
        "bytes",
    );
    is_kind(&rt, Data::Unit, "a unit value");
    is_kind(&rt, Data::Value(AnyValue::Owned(Value::Unit)), "any value");
    let raw = RawValue::from_ron(rt.alloc(), "1").expect(&rt, "a raw value");
    is_kind(&rt, Data::Raw(raw), "a raw value");
}

#[test]
fn kinds_of_lists(rt: HostRuntime) {
    is_kind(&rt, Data::Option(None), "an optional value");
    is_kind(&rt, Data::Seq(Vec::new(rt.alloc())), "a sequence");
    is_kind(&rt, Data::Tuple(Vec::new(rt.alloc())), "a tuple");
    is_kind(&rt, Data::Map(Vec::new(rt.alloc())), "a map");
}

#[test]
fn kinds_of_structs(rt: HostRuntime) {
    is_kind(&rt, Data::UnitStruct(owned(&rt, "S")), "a unit struct");
    let items = Vec::new(rt.alloc());
    is_kind(
        &rt,
        Data::TupleStruct(owned(&rt, "S"), items),
        "a tuple struct",
    );
    let held = Box::new(rt.alloc(), Data::Unit).expect(&rt, "memory");
    is_kind(
        &rt,
        Data::Newtype(owned(&rt, "S"), held),
        "a newtype struct",
    );
    is_kind(&rt, struct_of(&rt, "S", &[]), "a struct");
    refuses::<Point>(
        &rt,
        variant_of(&rt, "Empty", VariantData::Unit),
        Error::invalid_value(owned(&rt, "a struct"), owned(&rt, "an enum")),
    );
}
