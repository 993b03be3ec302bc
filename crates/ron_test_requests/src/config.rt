//! Configurations of requests.
use crate::extensions::extensions_of;
use crate::json::{count_of, string_of};
use anyhow::{Result, bail};
use ron_ser_config::config::PrettyConfig;
use ron_ser_config::path_meta::{Field, Fields};
use serde_json::{Map, Value};
use std::alloc::Global;
use std::borrow::CowStr;

/// The request's `config`, where there is one: an object of what differs from the default configuration.
pub fn config_of(alloc: Global, request: &Value) -> Result<Option<PrettyConfig>> {
    match request.get("config") {
        None | Some(Value::Null) => Ok(None),
        Some(Value::Object(members)) => Ok(Some(changed(alloc, members)?)),
        Some(config) => bail!("no config: {config}"),
    }
}

/// The default configuration with these members in place of its own.
fn changed(alloc: Global, members: &Map<String, Value>) -> Result<PrettyConfig> {
    let mut config = PrettyConfig::new();
    for (name, value) in members.iter() {
        set_member(&mut config, alloc, name.as_str(), value)?;
    }
    Ok(config)
}

fn set_member(config: &mut PrettyConfig, alloc: Global, name: &str, value: &Value) -> Result<()> {
    match name {
        "depth_limit" => config.depth_limit = count_of(value)?,
        "new_line" => config.new_line = text_in(alloc, value)?,
        "indentor" => config.indentor = text_in(alloc, value)?,
        "separator" => config.separator = text_in(alloc, value)?,
        "extensions" => config.extensions = extensions_of(value)?,
        "path_meta" => config.path_meta = meta_in(alloc, value)?,
        _ => match value {
            Value::Bool(is_on) => set_switch(config, name, *is_on)?,
            _ => bail!("no config {name}: {value}"),
        },
    }
    Ok(())
}

fn text_in(alloc: Global, value: &Value) -> Result<CowStr<'static>> {
    Ok(CowStr::Owned(string_of(alloc, value)?))
}

fn set_switch(config: &mut PrettyConfig, name: &str, is_on: bool) -> Result<()> {
    match name {
        "struct_names" => config.struct_names = is_on,
        "separate_tuple_members" => config.separate_tuple_members = is_on,
        "enumerate_arrays" => config.enumerate_arrays = is_on,
        "compact_arrays" => config.compact_arrays = is_on,
        "escape_strings" => config.escape_strings = is_on,
        "compact_structs" => config.compact_structs = is_on,
        "compact_maps" => config.compact_maps = is_on,
        "number_suffixes" => config.number_suffixes = is_on,
        "compact_ranges" => config.compact_ranges = is_on,
        _ => bail!("no config {name}"),
    }
    Ok(())
}

fn meta_in(alloc: Global, value: &Value) -> Result<Option<Field>> {
    match value {
        Value::Null => Ok(None),
        Value::Object(members) => Ok(Some(meta_of(alloc, members)?)),
        _ => bail!("no doc comments: {value}"),
    }
}

/// What is said of a field: its `doc`, and the `fields` within it.
#[cycle(meta)]
fn meta_of(alloc: Global, members: &Map<String, Value>) -> Result<Field> {
    let mut field = Field::empty(alloc);
    for (name, value) in members.iter() {
        match (name.as_str(), value) {
            ("doc", _) => {
                field.with_doc(string_of(alloc, value)?);
            }
            ("fields", Value::Object(within)) => {
                field.with_fields(Some(fields_of(alloc, within)?));
            }
            _ => bail!("no part {name} of a field: {value}"),
        }
    }
    Ok(field)
}

/// Fields by their names.
#[cycle(meta)]
fn fields_of(alloc: Global, members: &Map<String, Value>) -> Result<Fields> {
    let mut fields = Fields::new(alloc);
    for (name, value) in members.iter() {
        match value {
            Value::Object(said) => {
                let name = name.clone()?;
                put(&mut fields, name, meta_of(alloc, said)?)?;
            }
            _ => bail!("no field {name}: {value}"),
        }
    }
    Ok(fields)
}

fn put(fields: &mut Fields, name: String, field: Field) -> Result<()> {
    match fields.insert(name, field) {
        Ok(_) => Ok(()),
        Err(refused) => bail!("{refused}"),
    }
}
