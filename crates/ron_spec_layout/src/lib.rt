//! The layout: the text that is written of data, as a function that contracts cite, and the law that it is read back.
//!
//! It promises the crates above that the layout by every configuration whose texts are blank, under every set of
//! extensions, spells the data's normal form (`layouts_are_read_back`), that of a value without a schema too
//! (`layouts_of_values_are_read_back`), and a range as its struct (`ranges_are_read_back`).
#![tactic(auto)]

ghost use Rattle.ron_spec_layout.specs.RangeStatement.{AreRangesSpelled};
ghost use Rattle.ron_spec_layout.specs.Statement.{AreAlike, FollowsLayout, IsAlone, IsAtAnyLevel, IsBackSame, IsDepth};
ghost use Rattle.ron_spec_layout.specs.Statement.{IsNormal, IsPastLimit, IsPending, IsReadBack, IsReadBackFirst, IsSpelled};
ghost use Rattle.ron_spec_layout.specs.ValueStatement.{IsLaidAsData, IsSpelledValue, IsValueKept, IsValueReadBack};

/// Under every configuration whose texts are blank, and whose new line ends the doc comments that are written, the
/// layout of data of a well-formed schema, that code can hold and whose names can be written, stands behind any gap for
/// data that is the same as the normal form, bare or not; and the whole text, with its announcements, is a document of
/// such data under the default extensions alone, where there are none of the data that is read back at the very start.
/// Of a configuration its suffixes alone bear on the normal form, and its compact ranges alone on a writer's depth.
/// Past the depth limit no level matters, and without a configuration none does.
pub fn layouts_are_read_back()
    ensures follows { FollowsLayout }
    ensures spelled { IsSpelled }
    ensures back { IsBackSame }
    ensures reads_back { IsReadBack }
    ensures first { IsReadBackFirst }
    ensures alike { AreAlike }
    ensures pending { IsPending }
    ensures past { IsPastLimit }
    ensures level { IsAtAnyLevel }
    ensures alone { IsAlone }
    ensures depth { IsDepth }
    ensures normal { IsNormal }
{}

/// Under every configuration whose texts are blank, the layout of a value without a schema, that code can hold and
/// whose Somes the text tells, stands for the normal form of the value, bare or not, and as a whole text it is a
/// document of it. With suffixes, where Somes are written, the value is read back as it is. In data it is laid out
/// likewise.
pub fn layouts_of_values_are_read_back()
    ensures spelled { IsSpelledValue }
    ensures reads_back { IsValueReadBack }
    ensures kept { IsValueKept }
    ensures laid { IsLaidAsData }
{}

/// The text of data as a compact range stands for its normal form, bare or not, and takes no level.
pub fn ranges_are_read_back()
    ensures spelled { AreRangesSpelled }
{}
