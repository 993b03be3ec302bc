//! The grammar of the format and its reader function, as definitions that contracts cite, and the laws that join the
//! two.
//!
//! It promises the crates above that whole texts, bodies and values at a place are read exactly where the grammar
//! relates them, by a schema and without one (`documents_are_read_exactly` and the others below), and that raw texts
//! are values by themselves. So a contract need only say that code answers what the reader function answers.
#![tactic(auto)]

ghost use Rattle.ron_spec_grammar.specs.Statement.{IsBareWalk, IsBounded, IsBoundedAtPlace, IsBoundedDocument, IsCompleteAtPlace};
ghost use Rattle.ron_spec_grammar.specs.Statement.{IsDeep};
ghost use Rattle.ron_spec_grammar.specs.Statement.{IsDeepAtPlace, IsDeepDocument, IsDepth, IsDocumentAlone, IsDocumentDepth};
ghost use Rattle.ron_spec_grammar.specs.Statement.{IsDocumentOfSchema, IsEnough, IsExact, IsExactDocument, IsExactHead};
ghost use Rattle.ron_spec_grammar.specs.Statement.{IsExactStart};
ghost use Rattle.ron_spec_grammar.specs.Statement.{IsMonotone, IsMonotoneAtPlace, IsMonotoneDocument};
ghost use Rattle.ron_spec_grammar.specs.Statement.{IsOfSchema};
ghost use Rattle.ron_spec_grammar.specs.Statement.{IsOfSchemaAtPlace, IsSoundAtPlace, IsUnique, IsUniqueAtPlace};
ghost use Rattle.ron_spec_grammar.specs.Statement.{IsUniqueDocument, IsWalkAtPlace, IsWithinAnyGaps};
ghost use Rattle.ron_spec_grammar.specs.Values.Statement.{BodiesAreValues, IsBoundedValueBody, IsDeepValueBody, IsExactValueBody, IsMonotoneValueBody};
ghost use Rattle.ron_spec_grammar.specs.Values.Statement.{IsNormalValue, NormalFormsAreValues, IsUniqueValueBody, IsValueWithinAnyGaps};
ghost use Rattle.ron_spec_grammar.specs.Values.Statement.{IsBareWalkOfValue, IsBoundedValue, IsCompleteBareValue, IsCompleteValue};
ghost use Rattle.ron_spec_grammar.specs.Values.Statement.{IsDeepValue, IsEnoughForValue, IsMonotoneValue, IsSoundBareValue};
ghost use Rattle.ron_spec_grammar.specs.Values.Statement.{IsSoundValue, IsUniqueValue, IsWalkOfValue, SpellsValues};
ghost use Rattle.ron_spec_grammar.specs.Values.Statement.{IsConverted};
ghost use Rattle.ron_spec_grammar.specs.Agreement.{AgreesWithConversion, DocumentsAgree};
ghost use Rattle.ron_spec_grammar.specs.RawStatement.{HasRawValue, IsTakenWithItsValue, IsValidExactly, SpellsValidTexts};
ghost use Rattle.ron_spec_grammar.specs.RawStatement.{TrimmedKeepsValue, ValuesMove, ValuesStandAlone, WithoutGapsKeepsValue};

/// A whole text is read exactly where the grammar relates it to a data, with the attributes at its head.
pub fn documents_are_read_exactly()
    ensures head { IsExactHead }
    ensures start { IsExactStart }
    ensures alone { IsDocumentAlone }
    ensures exact { IsExactDocument }
    ensures unique { IsUniqueDocument }
    ensures monotone { IsMonotoneDocument }
    ensures deep { IsDeepDocument }
    ensures bounded { IsBoundedDocument }
    ensures depth { IsDocumentDepth }
    ensures of_schema { IsDocumentOfSchema }
{}

/// A body, which is a value with gaps around it, is read exactly where the grammar relates it to a data.
pub fn bodies_are_read_exactly()
    ensures exact { IsExact }
    ensures any_gaps { IsWithinAnyGaps }
    ensures unique { IsUnique }
    ensures monotone { IsMonotone }
    ensures deep { IsDeep }
    ensures bounded { IsBounded }
    ensures depth { IsDepth }
    ensures of_schema { IsOfSchema }
{}

/// A front of a text is read exactly where the grammar relates it to a data and what follows it may follow a value.
pub fn values_are_read_exactly()
    ensures sound { IsSoundAtPlace }
    ensures complete { IsCompleteAtPlace }
    ensures unique { IsUniqueAtPlace }
    ensures monotone { IsMonotoneAtPlace }
    ensures deep { IsDeepAtPlace }
    ensures bounded { IsBoundedAtPlace }
    ensures enough { IsEnough }
    ensures of_schema { IsOfSchemaAtPlace }
    ensures walk { IsWalkAtPlace }
    ensures bare_walk { IsBareWalk }
{}

/// A front of a text is read exactly where the grammar relates it to a value without a schema, and bare content of a Some too.
pub fn untyped_values_are_read_exactly()
    ensures sound { IsSoundValue }
    ensures complete { IsCompleteValue }
    ensures unique { IsUniqueValue }
    ensures monotone { IsMonotoneValue }
    ensures deep { IsDeepValue }
    ensures bounded { IsBoundedValue }
    ensures enough { IsEnoughForValue }
    ensures values { SpellsValues }
    ensures walk { IsWalkOfValue }
    ensures bare_walk { IsBareWalkOfValue }
    ensures bare_sound { IsSoundBareValue }
    ensures bare_complete { IsCompleteBareValue }
{}

/// A body without a schema, which is a value with gaps around it, is read exactly.
pub fn value_bodies_are_read_exactly()
    ensures exact { IsExactValueBody }
    ensures any_gaps { IsValueWithinAnyGaps }
    ensures unique { IsUniqueValueBody }
    ensures monotone { IsMonotoneValueBody }
    ensures deep { IsDeepValueBody }
    ensures bounded { IsBoundedValueBody }
    ensures values { BodiesAreValues }
{}

/// A normal form of a value is its own.
pub fn values_have_normal_forms()
    ensures normal { IsNormalValue }
    ensures value { NormalFormsAreValues }
{}

/// By a well-formed schema, what a value becomes is data of the schema, and no deeper than the value.
pub fn values_become_data_of_the_schema()
    ensures converted { IsConverted }
{}

/// Which texts are raw texts, and that each keeps its value whatever it takes of the gaps around it.
pub fn raw_texts_are_values_by_themselves()
    ensures value { HasRawValue }
    ensures valid { IsValidExactly }
    ensures moves { ValuesMove }
    ensures alone { ValuesStandAlone }
    ensures taken { IsTakenWithItsValue }
    ensures spelled { SpellsValidTexts }
    ensures trimmed { TrimmedKeepsValue }
    ensures without_gaps { WithoutGapsKeepsValue }
{}

/// Under no extensions, by a schema without maps, newtypes, enums, values and raw texts, what the value of a text
/// becomes, if it becomes anything, is the data of the text.
pub fn values_become_the_data_of_the_text()
    ensures body { AgreesWithConversion }
    ensures document { DocumentsAgree }
{}
