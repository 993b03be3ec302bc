//! A text over lines, with doc comments before its fields.
ghost use Rattle.std.specs.Prelude.{◌≡◌, codes, chars, string_bytes, IfOk, MatchResult, Some};
ghost use Rattle.ron.specs.Extensions.{no_extensions};
ghost use Rattle.ron.specs.Configurations.{config_view};
ghost use Rattle.ron.specs.Table.{table_of};
ghost use Rattle.ron_example_types.specs.LaidOut.{LaysOut};
ghost use Rattle.ron_example_types.specs.Point.{point_table, documented_layout};

use crate::point::point_schema;
use ron::error::{Error, Result};
use ron::options::Options;
use ron::schema::Schema;
use ron::ser::PrettyConfig;
use ron::ser::path_meta::{Field, Fields};
use std::alloc::Global;

/// A point over lines, with a doc comment before its first field.
pub fn document_point(alloc: Global, text: &str) -> Result<String>
    ensures { IfOk result (λ t. LaysOut no_extensions (Some 128) point_table
        (documented_layout (codes "x") (codes "How far right it lies.")) (chars text.now) (chars (string_bytes t))) }
{
    let schema = point_schema(alloc)?;
    let config = documented(alloc, "x", "How far right it lies.")?;
    lay_out(alloc, &Options::default(), &schema, text, config)
}

/// The default layout, with a doc comment before the fields of this name of the outermost struct.
fn documented(alloc: Global, name: &str, doc: &str) -> Result<PrettyConfig>
    ensures { MatchResult result (λ c. config_view c ≡ documented_layout name.now doc.now) (λ e. e ≡ Error.OutOfMemory) }
{
    let doc = String::from_str(alloc, doc)?;
    let name = String::from_str(alloc, name)?;
    let mut fields = Fields::new(alloc);
    fields.insert(name, Field::new(doc, None))?;
    let mut config = PrettyConfig::new();
    config.path_meta = Some(Field::new(String::new(alloc), Some(fields)));
    Ok(config)
}

/// A text of the schema laid out by a configuration, once the layout was read back by the same options.
pub fn lay_out(
    alloc: Global,
    options: &Options,
    schema: &Schema,
    text: &str,
    config: PrettyConfig,
) -> Result<String>
    ensures { IfOk result (λ t. LaysOut options.now.default_extensions options.now.recursion_limit
        (table_of schema.now) (config_view config) (chars text.now) (chars (string_bytes t))) }
{
    let data = match options.from_str_seed(alloc, text, schema) {
        Ok(data) => data,
        Err(refused) => return Err(refused.code),
    };
    let written = options.to_string_data(alloc, &data, Some(config));
    drop(data);
    let written = written?;
    match options.from_str_seed(alloc, written.as_str(), schema) {
        Ok(again) => drop(again),
        Err(unread) => return Err(unread.code),
    }
    Ok(written)
}
