//! Theorems about the grammar.
ghost use Rattle.std.specs.Prelude.{◌≡◌, ◌↔◌, List};
ghost use Rattle.graphql_core.specs.{Token};
ghost use Rattle.graphql_standard.specs.Document.{IsDocumentAsWritten};
ghost use Rattle.graphql_standard.specs.Recognizing.{IsDocument};
ghost use Rattle.graphql_standard.specs.Terminals.{IsTokenOf};
ghost use Rattle.graphql_standard.specs.declared.terminal.Terminal.{Terminal};
ghost use Rattle.graphql_standard.specs.examples.StandardExamples as example;

/// Some small documents, and some inputs that are none, with their first errors.
pub fn worked_examples()
    ensures described_operation { example.DescribedOperation }
    ensures described_fragment { example.DescribedFragment }
    ensures described_variable { example.DescribedVariable }
    ensures described_selection_set { example.DescribedSelectionSet }
    ensures described_extension { example.DescribedExtension }
    ensures mixed_document { example.MixedDocument }
    ensures fields_come_first { example.FieldsComeFirst }
    ensures selection_set_later { example.SelectionSetLater }
    ensures type_without_fields { example.TypeWithoutFields }
    ensures no_definition { example.NoDefinition }
    ensures empty_selection_set { example.EmptySelectionSet }
    ensures fragment_named_on { example.FragmentNamedOn }
    ensures keywords_as_names { example.KeywordsAsNames }
    ensures empty_fields { example.EmptyFields }
    ensures enum_value_true { example.EnumValueTrue }
    ensures interface_extension { example.InterfaceExtension }
    ensures two_types_for_one_operation { example.TwoTypesForOneOperation }
    ensures empty_schema { example.EmptySchema }
    ensures variable_in_type_directive { example.VariableInTypeDirective }
    ensures variable_in_variable_directive { example.VariableInVariableDirective }
    ensures empty_extension { example.EmptyExtension }
    ensures known_location { example.KnownLocation }
    ensures unknown_location { example.UnknownLocation }
{}

/// The grammar that a recognizer reads by derives the documents that the specification writes, with their lookahead
/// restrictions, and no others.
pub fn documents_are_as_written()
    ensures { (ts : List Token) → IsDocument ts ↔ IsDocumentAsWritten ts }
{}

/// Each token is of at most one terminal.
pub fn each_token_has_one_terminal()
    ensures { (j k : Terminal) (t : Token) → IsTokenOf j t → IsTokenOf k t → j ≡ k }
{}
