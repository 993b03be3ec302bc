//! Reading, writing and reading again.
ghost use Rattle.std.specs.Prelude.{chars, string_bytes, MatchResult};
ghost use Rattle.ron.specs.Table.{table_of};
ghost use Rattle.ron_example_types.specs.RoundTrip.{RoundTrips, RefusesRoundTrip};

use ron::error::Result;
use ron::options::Options;
use ron::schema::Schema;
use std::alloc::Global;

/// The compact text of the data that the text spells, once it was read back by the same options. Besides what refuses
/// the reading, a name that can't be written is refused by `InvalidIdentifier`, and what nests deeper than the limit, as
/// data or as a written text, by `ExceededRecursionLimit`.
pub fn read_back(alloc: Global, options: &Options, schema: &Schema, text: &str) -> Result<String>
    ensures { MatchResult result
        (λ t. RoundTrips options.now.default_extensions options.now.recursion_limit (table_of schema.now)
        (chars text.now) (chars (string_bytes t)))
        (RefusesRoundTrip options.now.default_extensions options.now.recursion_limit (table_of schema.now)
        (chars text.now)) }
{
    let data = match options.from_str_seed(alloc, text, schema) {
        Ok(data) => data,
        Err(refused) => return Err(refused.code),
    };
    let written = options.to_string_data(alloc, &data, None);
    drop(data);
    let written = written?;
    match options.from_str_seed(alloc, written.as_str(), schema) {
        Ok(again) => drop(again),
        Err(unread) => return Err(unread.code),
    }
    Ok(written)
}
