//! A list of assets, read as a value: nothing is known of it beforehand.
use crate::fault::ExampleFault;
use ron::Options;
use ron::value::Value;
use std::alloc::Global;
use std::io::Read;

/// How many assets a list holds, and the path of each that has one.
pub fn tell_assets<R: Read>(alloc: Global, input: &mut R) -> Result<String, ExampleFault> {
    let assets: Value = Options::default().from_reader(alloc, input)?;
    let Value::Seq(assets) = assets else {
        return Ok(String::from_str(alloc, "no list")?);
    };
    let key = Value::string(alloc, "path")?;
    let mut told = format!(in alloc; "{} assets:", assets.len())?;
    for asset in assets.iter() {
        if let Some(path) = text_at(asset, &key) {
            told.push(' ')?;
            told.push_str(path)?;
        }
    }
    Ok(told)
}

/// The text that a map has under a key.
fn text_at<'a>(value: &'a Value, key: &Value) -> Option<&'a str> {
    let Value::Map(map) = value else {
        return None;
    };
    match map.get(key)? {
        Value::String(text) => Some(text.as_str()),
        _ => None,
    }
}
