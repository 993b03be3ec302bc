//! Calls that take no memory.
use crate::growths::is_written_as_it_stands;
use crate::refused::{refuse, was_refused};
use anyhow::{Result, bail};
use ron::error::{Error, Position};
use ron::extensions::Extensions;
use ron::schema::{Data, ParsedStr, Schema, Shape, Width};
use ron::ser::path_meta::{Field, Fields};
use ron::ser::{PrettyConfig, Serializer};
use ron::value::{Map, Number, RawValue, Value};
use ron::{Deserializer, Options};
use std::alloc::{AllocError, Global};
use std::fmt::Write;

/// Makes each of these calls while all growths of memory are refused. It appends, by what they are calls of, whether they
/// answered as they should and asked for none; of values, whether writing them asked for that of the text alone.
pub fn push_spare(json: &mut String, alloc: Global) -> Result<()> {
    let errors = errors_are_made(alloc)?;
    let fields = fields_are_used(alloc)?;
    let maps = maps_are_used(alloc)? && indices_are_used(alloc)?;
    let readers = readers_are_used(alloc)?;
    let schemas = schemas_are_used(alloc)?;
    let sets = sets_are_used(alloc)?;
    let settings = settings_are_used(alloc)?;
    let texts = texts_are_used(alloc)?;
    let values = is_written_as_it_stands(alloc)?;
    write!(
        json,
        "\"ok\":{{\"errors\":{errors},\"fields\":{fields},\"maps\":{maps},\"readers\":{readers},"
    )?;
    write!(
        json,
        "\"schemas\":{schemas},\"sets\":{sets},\"settings\":{settings},\"texts\":{texts},\"values\":{values}}}"
    )?;
    Ok(())
}

fn sets_are_used(alloc: Global) -> Result<bool, AllocError> {
    refuse(alloc, 0)?;
    let both = Extensions::UNWRAP_NEWTYPES | Extensions::IMPLICIT_SOME;
    let holds = Extensions::from_ident("implicit_some") == Some(Extensions::IMPLICIT_SOME)
        && both.complement() == Extensions::all() - both
        && (both & Extensions::IMPLICIT_SOME).bits() == 2
        && both.contains(Extensions::empty())
        && is_all_but_implicit_some(!Extensions::IMPLICIT_SOME)
        && Position { line: 1, col: 2 } < Position { line: 2, col: 1 }
        && Number::new(5u8) < Number::new(4u16)
        && are_ordered(&Value::from(5u8), &Value::from(6u8))
        && are_ordered(&Value::from(true), &Value::from('a'));
    Ok(!was_refused(alloc) && holds)
}

fn is_all_but_implicit_some(set: Extensions) -> bool {
    let others = Extensions::UNWRAP_NEWTYPES
        | Extensions::UNWRAP_VARIANT_NEWTYPES
        | Extensions::EXPLICIT_STRUCT_NAMES;
    set == others && set.bits() == 13
}

fn are_ordered(low: &Value, high: &Value) -> bool {
    low < high && low != high
}

fn settings_are_used(alloc: Global) -> Result<bool, AllocError> {
    refuse(alloc, 0)?;
    let options = Options::default()
        .with_default_extension(Extensions::all())
        .without_default_extension(Extensions::IMPLICIT_SOME)
        .with_recursion_limit(3)
        .without_recursion_limit();
    let config = PrettyConfig::new()
        .depth_limit(2)
        .new_line("\r\n")
        .indentor("\t")
        .separator("")
        .struct_names(true)
        .separate_tuple_members(true)
        .enumerate_arrays(true)
        .extensions(Extensions::IMPLICIT_SOME);
    let config = config
        .compact_arrays(true)
        .escape_strings(false)
        .compact_structs(true)
        .compact_maps(true)
        .number_suffixes(true)
        .compact_ranges(true);
    let holds = are_set(&options, &config);
    Ok(!was_refused(alloc) && holds)
}

fn are_set(options: &Options, config: &PrettyConfig) -> bool {
    !options
        .default_extensions
        .contains(Extensions::IMPLICIT_SOME)
        && options.recursion_limit.is_none()
        && config.depth_limit == 2
        && config.compact_ranges
        && *config != PrettyConfig::default()
}

fn errors_are_made(alloc: Global) -> Result<bool, AllocError> {
    let holds = values_are_refused(alloc)?
        && types_are_refused(alloc)?
        && names_are_refused(alloc)?
        && fields_are_refused(alloc)?;
    Ok(holds)
}

fn values_are_refused(alloc: Global) -> Result<bool, AllocError> {
    let own = String::from_str(alloc, "own")?;
    let (one, other) = (
        String::from_str(alloc, "one")?,
        String::from_str(alloc, "other")?,
    );
    refuse(alloc, 0)?;
    let (custom, value) = (Error::custom(own), Error::invalid_value(one, other));
    let holds = matches!(&custom, Error::Message(_))
        && is_invalid_value(&value)
        && Error::from(AllocError) == Error::OutOfMemory;
    Ok(!was_refused(alloc) && holds)
}

fn types_are_refused(alloc: Global) -> Result<bool, AllocError> {
    let (one, other) = (
        String::from_str(alloc, "one")?,
        String::from_str(alloc, "other")?,
    );
    let two = String::from_str(alloc, "two")?;
    refuse(alloc, 0)?;
    let (kind, length) = (
        Error::invalid_type(one, other),
        Error::invalid_length(3, two),
    );
    let holds = is_invalid_value(&kind)
        && matches!(&length, Error::ExpectedDifferentLength { found: 3, .. });
    Ok(!was_refused(alloc) && holds)
}

fn names_are_refused(alloc: Global) -> Result<bool, AllocError> {
    let (variant, field) = (String::from_str(alloc, "V")?, String::from_str(alloc, "x")?);
    let variants = vec![in alloc; String::from_str(alloc, "W")?]?;
    let fields = vec![in alloc; String::from_str(alloc, "y")?]?;
    refuse(alloc, 0)?;
    let (variant, field) = (
        Error::unknown_variant(variant, variants),
        Error::unknown_field(field, fields),
    );
    let holds = matches!(&variant, Error::NoSuchEnumVariant { outer: None, .. })
        && matches!(&field, Error::NoSuchStructField { outer: None, .. });
    Ok(!was_refused(alloc) && holds)
}

fn fields_are_refused(alloc: Global) -> Result<bool, AllocError> {
    let (one, other) = (String::from_str(alloc, "x")?, String::from_str(alloc, "y")?);
    refuse(alloc, 0)?;
    let (missing, twice) = (Error::missing_field(one), Error::duplicate_field(other));
    let holds = matches!(&missing, Error::MissingStructField { outer: None, .. })
        && matches!(&twice, Error::DuplicateStructField { outer: None, .. });
    Ok(!was_refused(alloc) && holds)
}

fn is_invalid_value(error: &Error) -> bool {
    matches!(error, Error::InvalidValueForType { .. })
}

fn maps_are_used(alloc: Global) -> Result<bool> {
    let mut map = Map::new(alloc);
    for key in [3u8, 1, 2] {
        map.insert(Value::from(key), Value::from(key))?;
    }
    refuse(alloc, 0)?;
    let holds = map_is_used(alloc, &mut map);
    Ok(!was_refused(alloc) && holds)
}

/// Of a map of three keys, 1 to 3, each at itself.
fn map_is_used(alloc: Global, map: &mut Map) -> bool {
    let are_walked = are_walked(map);
    set_to_unit(map, &Value::from(2u8));
    let is_replaced = holds_number(3, map.insert(Value::from(3u8), Value::from(true)));
    let is_removed = holds_number(1, Ok(map.remove(&Value::from(1u8))));
    map.retain(|key, _| !is_number(3, key));
    are_walked && is_replaced && is_removed && holds_two(map) && Map::new(alloc).is_empty()
}

/// Whether the keys are 1, 2 and 3, from the front and from the back.
fn are_walked(map: &Map) -> bool {
    let mut keys = map.keys();
    let mut back = map.keys();
    is_at(1, keys.next())
        && is_at(2, keys.next())
        && is_at(3, keys.next())
        && keys.next().is_none()
        && is_at(3, back.next_back())
        && is_at(2, back.next_back())
        && is_at(1, back.next_back())
        && back.next_back().is_none()
}

fn is_at(number: u8, key: Option<&Value>) -> bool {
    key.is_some_and(|key| is_number(number, key))
}

fn set_to_unit(map: &mut Map, key: &Value) {
    if let Some(value) = map.get_mut(key) {
        *value = Value::Unit;
    }
}

/// Whether the one key is 2, and the unit is at it.
fn holds_two(map: &Map) -> bool {
    map.len() == 1
        && map.get(&Value::from(1u8)).is_none()
        && map.keys().next().is_some_and(|key| is_number(2, key))
        && matches!(map.values().next_back(), Some(Value::Unit))
        && map.iter().next().is_some()
}

fn is_number(number: u8, value: &Value) -> bool {
    *value == Value::from(number)
}

fn holds_number(number: u8, held: Result<Option<Value>, Error>) -> bool {
    let holds = match &held {
        Ok(Some(value)) => is_number(number, value),
        _ => false,
    };
    drop(held);
    holds
}

fn indices_are_used(alloc: Global) -> Result<bool> {
    let key = Value::Bool(true);
    let mut map = Map::new(alloc);
    map.insert(Value::Bool(true), Value::Unit)?;
    refuse(alloc, 0)?;
    if map.get(&key).is_none() {
        return Ok(false);
    }
    let is_unit = map[&key] == Value::Unit;
    map[&key] = Value::Bool(false);
    let holds = is_unit && map.get(&key) == Some(&Value::Bool(false));
    Ok(!was_refused(alloc) && holds)
}

fn fields_are_used(alloc: Global) -> Result<bool> {
    let mut fields = Fields::new(alloc);
    fields.insert(String::from_str(alloc, "x")?, Field::empty(alloc))?;
    let doc = String::from_str(alloc, "Of x.")?;
    refuse(alloc, 0)?;
    let mut field = Field::new(doc, None);
    let within = Fields::new(alloc);
    let has_fields = field.with_fields(Some(within)).has_fields();
    let is_removed = holds_x(&mut fields) && fields.remove("x").is_some();
    let holds = has_fields && is_told(&mut field) && is_removed && fields.is_empty();
    Ok(!was_refused(alloc) && holds)
}

fn is_told(field: &mut Field) -> bool {
    field.fields_mut().is_some() && field.doc() == "Of x."
}

fn holds_x(fields: &mut Fields) -> bool {
    fields.contains("x") && fields.get_mut("x").is_some() && fields.get("y").is_none()
}

fn schemas_are_used(alloc: Global) -> Result<bool> {
    let newtype = Shape::Newtype(String::from_str(alloc, "N")?, 2);
    let shapes = vec![in alloc; Shape::Option(1), newtype, Shape::Int(Width::U8)]?;
    match Schema::new(shapes, 0) {
        Ok(schema) => Ok(is_schema_used(alloc, &schema)?),
        Err(_) => bail!("no schema"),
    }
}

fn is_schema_used(alloc: Global, schema: &Schema) -> Result<bool, AllocError> {
    refuse(alloc, 0)?;
    let holds = schema.root() == 0
        && schema.len() == 3
        && schema.chain() == 2
        && matches!(schema.shape(1), Some(Shape::Newtype(_, 2)));
    Ok(!was_refused(alloc) && holds)
}

fn readers_are_used(alloc: Global) -> Result<bool> {
    let holds = reads_spared(alloc, "true", Shape::Bool)?
        && reads_spared(alloc, "-5", Shape::Int(Width::I32))?
        && reads_spared(alloc, "'x'", Shape::Char)?
        && reads_spared(alloc, "()", Shape::Unit)?
        && reads_spared(alloc, "\"plain\"", Shape::Str)?
        && refuses_spared(alloc, "\"YQ==\"")?
        && refuses_spared(alloc, "")?;
    Ok(holds)
}

/// Whether the text is read by this one shape, and its end, without memory.
fn reads_spared(alloc: Global, text: &str, shape: Shape) -> Result<bool> {
    let schema = schema_of(alloc, shape)?;
    match Deserializer::from_str(alloc, text) {
        Ok(mut reader) => Ok(is_read_spared(alloc, &mut reader, &schema)?),
        Err(_) => bail!("no reader"),
    }
}

fn is_read_spared(
    alloc: Global,
    reader: &mut Deserializer,
    schema: &Schema,
) -> Result<bool, AllocError> {
    refuse(alloc, 0)?;
    let is_read = owns_no_text(reader.read(schema));
    let holds = is_read && is_at_end(reader);
    Ok(!was_refused(alloc) && holds)
}

fn is_at_end(reader: &mut Deserializer) -> bool {
    reader.end().is_ok()
        && reader.remainder().is_empty()
        && reader.extensions().is_empty()
        && reader.turns() != 0
}

/// Whether the text is refused as no bytes, without memory.
fn refuses_spared(alloc: Global, text: &str) -> Result<bool> {
    let schema = schema_of(alloc, Shape::Bytes)?;
    match Deserializer::from_str(alloc, text) {
        Ok(mut reader) => Ok(is_refused_spared(alloc, &mut reader, &schema)?),
        Err(_) => bail!("no reader"),
    }
}

fn is_refused_spared(
    alloc: Global,
    reader: &mut Deserializer,
    schema: &Schema,
) -> Result<bool, AllocError> {
    refuse(alloc, 0)?;
    let holds = wants_bytes(reader.read(schema));
    Ok(!was_refused(alloc) && holds)
}

fn wants_bytes(answer: Result<Data, Error>) -> bool {
    let wants_bytes = matches!(&answer, Err(Error::ExpectedByteString));
    drop(answer);
    wants_bytes
}

fn schema_of(alloc: Global, shape: Shape) -> Result<Schema> {
    match Schema::new(vec![in alloc; shape]?, 0) {
        Ok(schema) => Ok(schema),
        Err(_) => bail!("no schema"),
    }
}

fn owns_no_text(answer: Result<Data, Error>) -> bool {
    let owns_none = match &answer {
        Ok(Data::Str(text)) => matches!(text, ParsedStr::Slice(_)),
        Ok(_) => true,
        Err(_) => false,
    };
    drop(answer);
    owns_none
}

fn texts_are_used(alloc: Global) -> Result<bool> {
    let Ok(raw) = RawValue::from_ron(alloc, "[1]") else {
        bail!("no raw text");
    };
    is_raw_used(alloc, &raw)
}

fn is_raw_used(alloc: Global, raw: &RawValue) -> Result<bool> {
    let serializer = Serializer::new(alloc, String::new(alloc), None)?;
    refuse(alloc, 0)?;
    let holds = raw.get_ron() == "[1]" && serializer.into_inner().is_empty();
    Ok(!was_refused(alloc) && holds)
}
