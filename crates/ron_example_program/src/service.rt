//! A service's settings, read by a schema that is made while the program runs.
use crate::fault::ExampleFault;
use ron::Options;
use ron::error::Result as Made;
use ron::schema::{Data, FieldList, FieldShape, Schema, Shape, VariantShape, Width};
use ron::types::field_shape;
use ron::value::Number;
use std::alloc::Global;
use std::io::Read;

/// How many workers are asked for, and the settings as a compact text.
pub fn tell_service<R: Read>(alloc: Global, input: &mut R) -> Result<String, ExampleFault> {
    let schema = service_schema(alloc)?;
    let options = Options::default();
    let data = options.from_reader_seed(alloc, input, &schema)?;
    let told = tell_data(alloc, &options, &data);
    drop(data);
    told
}

fn tell_data(alloc: Global, options: &Options, data: &Data) -> Result<String, ExampleFault> {
    let written = options.to_string_data(alloc, data, None)?;
    match workers_of(data) {
        Some(workers) => Ok(format!(in alloc; "{workers} workers: {written}")?),
        None => Ok(written),
    }
}

fn workers_of(data: &Data<'_>) -> Option<u32> {
    let Data::Struct(_, fields) = data else {
        return None;
    };
    for (name, value) in fields.iter() {
        if name.as_str() == "workers"
            && let Data::Int(Number::U32(workers)) = value
        {
            return Some(*workers);
        }
    }
    None
}

/// Service(address: (&str, u16), workers?: u32, timeout_in_milliseconds or timeout?: u64, log?: Option<Log>, token?: bytes)
fn service_schema(alloc: Global) -> Made<Schema> {
    let service = Shape::Struct(String::from_str(alloc, "Service")?, service_fields(alloc)?);
    let address = Shape::Tuple(vec![in alloc; 7, 8]?);
    let log = log_shape(alloc)?;
    let level = level_shape(alloc)?;
    let shapes = vec![in alloc;
        service,
        address,
        Shape::Int(Width::U32),
        Shape::Int(Width::U64),
        Shape::Option(6),
        Shape::Bytes,
        log,
        Shape::Str,
        Shape::Int(Width::U16),
        level,
    ]?;
    Schema::new(shapes, 0)
}

fn service_fields(alloc: Global) -> Made<FieldList> {
    let mut fields = Vec::with_capacity(alloc, 5)?;
    fields.push(field_shape(alloc, "address", 1)?)?;
    fields.push(left_out(alloc, "workers", 2)?)?;
    fields.push(FieldShape {
        aliases: vec![in alloc; String::from_str(alloc, "timeout")?]?,
        ..left_out(alloc, "timeout_in_milliseconds", 3)?
    })?;
    fields.push(left_out(alloc, "log", 4)?)?;
    fields.push(left_out(alloc, "token", 5)?)?;
    Ok(FieldList {
        fields,
        skip_unknown: false,
    })
}

/// A field that a text may leave out.
fn left_out(alloc: Global, name: &str, shape: usize) -> Made<FieldShape> {
    Ok(FieldShape {
        may_be_missing: true,
        ..field_shape(alloc, name, shape)?
    })
}

/// enum Log { Console, File { path: &str, level: Level } }
fn log_shape(alloc: Global) -> Made<Shape> {
    let fields = vec![in alloc;
        field_shape(alloc, "path", 7)?,
        field_shape(alloc, "level", 9)?,
    ]?;
    let file = FieldList {
        fields,
        skip_unknown: false,
    };
    let variants = vec![in alloc;
        (String::from_str(alloc, "Console")?, VariantShape::Unit),
        (String::from_str(alloc, "File")?, VariantShape::Struct(file)),
    ]?;
    Ok(Shape::Enum(String::from_str(alloc, "Log")?, variants))
}

/// enum Level { Error, Warning, Debug }
fn level_shape(alloc: Global) -> Made<Shape> {
    let mut variants = Vec::new(alloc);
    for name in ["Error", "Warning", "Debug"] {
        variants.push((String::from_str(alloc, name)?, VariantShape::Unit))?;
    }
    Ok(Shape::Enum(String::from_str(alloc, "Level")?, variants))
}
