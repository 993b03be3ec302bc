//! What stands before a layout: announcements of extensions.
ghost use Rattle.std.specs.Prelude.{◌≡◌, true, chars, encode_utf8_all, OnOk, IfErr};
ghost use Rattle.std.specs.List.{list_all};
ghost use Rattle.std.specs.Fmt.{WritesInCalls};
ghost use Rattle.ron_spec_words.specs.Characters.{is_blank};
ghost use Rattle.ron_spec_layout.specs.Config.{blank};
ghost use Rattle.ron_spec_layout.specs.Layout.{announcements};
ghost use Rattle.ron_ser_config.specs.View.{config_view};
ghost use Rattle.ron_ser.specs.Refusals.{RefusesBlank, IsMessageOr};
ghost use Rattle.ron_ser.specs.Written.{announced};

use ron_base::error::{Error, Result};
use ron_base::extensions::Extensions;
use ron_base_device::output::Output;
use ron_lex_text::text::Class;
use ron_ser_config::config::PrettyConfig;
use std::alloc::Global;

/// Refuses, by `Message`, a configuration of which a text holds anything but blanks; the message names the first.
pub fn check_blank(alloc: Global, config: &PrettyConfig) -> Result<()>
    ensures blank { OnOk result (blank (config_view config.now) ≡ true) }
    ensures refused { IfErr result (RefusesBlank (config_view config.now)) }
{
    if !is_blank(config.new_line.as_str()) {
        return refuse(alloc, "Invalid non-whitespace `PrettyConfig::new_line`");
    }
    if !is_blank(config.indentor.as_str()) {
        return refuse(alloc, "Invalid non-whitespace `PrettyConfig::indentor`");
    }
    if !is_blank(config.separator.as_str()) {
        return refuse(alloc, "Invalid non-whitespace `PrettyConfig::separator`");
    }
    Ok(())
}

/// Refuses by a message.
fn refuse(alloc: Global, message: &str) -> Result<()>
    ensures never { OnOk result ⊥ }
    ensures refused { IfErr result (IsMessageOr message.now) }
{
    Err(Error::Message(String::from_str(alloc, message)?))
}

/// Whether a text holds blanks alone.
fn is_blank(text: &str) -> bool
    ensures { result ≡ list_all is_blank (chars text.now) }
{
    text.chars().all(is_blank_character)
}

/// Whether a character is a blank.
fn is_blank_character(c: char) -> bool
    ensures { result ≡ is_blank c }
{
    Class::Blank.contains(c)
}

/// Writes an attribute for each extension of the configuration that is no default, and a new line behind it.
pub fn write_announcements<O: Output>(out: &mut O, defaults: Extensions, config: &PrettyConfig)
    ensures { WritesInCalls O.puts out.old
        (encode_utf8_all (announcements defaults (config_view config.now))) out.new }
{
    let added = config.extensions.difference(defaults);
    let new_line = config.new_line.as_str();
    let newtypes = added.contains(Extensions::UNWRAP_NEWTYPES);
    write_attribute(out, newtypes, "unwrap_newtypes", new_line);
    let somes = added.contains(Extensions::IMPLICIT_SOME);
    write_attribute(out, somes, "implicit_some", new_line);
    let variants = added.contains(Extensions::UNWRAP_VARIANT_NEWTYPES);
    write_attribute(out, variants, "unwrap_variant_newtypes", new_line);
    let names = added.contains(Extensions::EXPLICIT_STRUCT_NAMES);
    write_attribute(out, names, "explicit_struct_names", new_line);
}

/// Writes the attribute that announces the extension of a name, where that is taken.
fn write_attribute<O: Output>(out: &mut O, taken: bool, name: &str, new_line: &str)
    ensures { WritesInCalls O.puts out.old (announced taken name.now new_line.now) out.new }
{
    if !taken {
        return;
    }
    out.put("#![enable(");
    out.put(name);
    out.put(")]");
    out.put(new_line);
}
