//! Fields and their doc comments.
use ron_base::error::{Error, Result};
use ron_ser_config::path_meta::{Field, Fields};
use std::process::Abort;

fn text(rt: &(impl AllocGlobal + Abort), held: &str) -> String {
    String::from_str(rt.alloc(), held).expect(rt, "memory")
}

fn told(rt: &(impl AllocGlobal + Abort), doc: &str) -> Field {
    Field::new(text(rt, doc), None)
}

fn put(rt: &(impl AllocGlobal + Abort), fields: &mut Fields, name: &str, doc: &str) {
    fields
        .insert(text(rt, name), told(rt, doc))
        .expect(rt, "memory");
}

/// The fields b, a and c, put in in this order.
fn three(rt: &(impl AllocGlobal + Abort)) -> Fields {
    let mut fields = Fields::new(rt.alloc());
    put(rt, &mut fields, "b", "second");
    put(rt, &mut fields, "a", "first");
    put(rt, &mut fields, "c", "third");
    fields
}

fn check_doc(rt: &impl Abort, fields: &Fields, name: &str, doc: &str) {
    let held = match fields.get(name) {
        Some(field) => field.doc(),
        None => "",
    };
    assert!(rt; held == doc);
}

#[test]
fn a_missing_field_is_made(rt: HostRuntime) {
    let mut fields = three(&rt);
    let made = fields.field(text(&rt, "d")).expect(&rt, "memory");
    assert!(rt; made.doc().is_empty() && !made.has_fields());
    made.with_doc(text(&rt, "fourth"));
    check_doc(&rt, &fields, "d", "fourth");
    let held = fields.field(text(&rt, "a")).expect(&rt, "memory");
    assert!(rt; held.doc() == "first");
}

#[test]
fn the_last_of_equal_names_stands(rt: HostRuntime) {
    let mut pairs = Vec::new(rt.alloc());
    pairs
        .push((text(&rt, "a"), told(&rt, "one")))
        .expect(&rt, "memory");
    pairs
        .push((text(&rt, "a"), told(&rt, "two")))
        .expect(&rt, "memory");
    let fields = Fields::from_pairs(pairs).expect(&rt, "memory");
    check_doc(&rt, &fields, "a", "two");
}

fn build_one(alloc: std::alloc::Global, fields: &mut Fields) -> Result<()> {
    let name = String::from_str(alloc, "inner")?;
    let doc = String::from_str(alloc, "of the inner one")?;
    fields.field(name)?.with_doc(doc);
    Ok(())
}

fn build_and_refuse(alloc: std::alloc::Global, fields: &mut Fields) -> Result<()> {
    build_one(alloc, fields)?;
    Err(Error::Eof)
}

#[test]
fn a_builder_makes_the_fields_within(rt: HostRuntime) {
    let mut field = told(&rt, "outer");
    let alloc = rt.alloc();
    field
        .build_fields(alloc, |fields: &mut Fields| build_one(alloc, fields))
        .expect(&rt, "memory");
    assert!(rt; field.doc() == "outer");
    assert!(rt;
        field
            .fields()
            .is_some_and(|within| within.contains("inner"))
    );
}

#[test]
fn a_builder_that_refuses_changes_nothing(rt: HostRuntime) {
    let mut field = Field::new(text(&rt, "outer"), Some(three(&rt)));
    let alloc = rt.alloc();
    let refused = field
        .build_fields(alloc, |fields: &mut Fields| build_and_refuse(alloc, fields))
        .expect_err(&rt, "a refusal");
    assert!(rt; refused == Error::Eof);
    assert!(rt; field == Field::new(text(&rt, "outer"), Some(three(&rt))));
}

#[test]
fn copies_are_equal(rt: HostRuntime) {
    let mut field = Field::new(text(&rt, "outer"), Some(three(&rt)));
    let copy = field.try_clone(rt.alloc()).expect(&rt, "memory");
    assert!(rt; copy == field);
    if let Some(within) = field.fields_mut() {
        put(&rt, within, "a", "changed");
    }
    assert!(rt; copy != field);
    let fields = three(&rt).try_clone(rt.alloc()).expect(&rt, "memory");
    assert!(rt; fields == three(&rt) && fields != Fields::new(rt.alloc()));
    assert!(rt; Field::empty(rt.alloc()) != Field::new(text(&rt, ""), Some(three(&rt))));
}
