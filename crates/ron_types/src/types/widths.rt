//! The numbers that values hold lie in their widths.
ghost use Rattle.ron_spec_grammar.specs.Values.Trees.{HasNumbersInWidth};
ghost use Rattle.ron_value.specs.View.{tree_of};

use ron_value::value::Value;

/// The numbers that a value holds, however deep, lie in their widths: there is nothing to do.
pub(crate) fn numbers_fit(value: &Value)
    ensures { HasNumbersInWidth (tree_of value.now) }
{}
