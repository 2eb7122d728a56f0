//! The symbols of the grammar: what each can begin with, and what comes after that token.
ghost use Rattle.std.specs.Prelude.{◌≡◌, MatchOption};
ghost use Rattle.graphql_standard.specs.steps.Fitting.{FitsRow, step_by};
ghost use Rattle.graphql_standard.specs.steps.Following.{Follows};
ghost use Rattle.graphql_standard.specs.steps.Groups.{has};

mod definitions;
mod executable;
mod tokens;
mod type_system;
mod values;

use crate::terminal::Terminal;

/// What can come next in a document.
#[derive(Clone, Copy, Debug, PartialEq, Eq)]
pub(crate) enum Symbol {
    /// A document.
    Document,
    /// More definitions, or none.
    Definitions,
    /// A definition that can have a description, and more definitions.
    DescribedDefinitions,
    /// Fields in braces, or none, and more definitions. A `{` begins fields.
    FieldsThenDefinitions,
    /// Enum values in braces, or none, and more definitions. A `{` begins enum values.
    EnumValuesThenDefinitions,
    /// Input fields in braces, or none, and more definitions. A `{` begins input fields.
    InputFieldsThenDefinitions,
    /// Root operation types in braces, or none, and more definitions. A `{` begins root operation types.
    RootOperationTypesThenDefinitions,
    /// What comes after `extend`, and more definitions.
    ExtensionThenDefinitions,
    /// What comes after `extend schema`, and more definitions.
    SchemaExtension,
    /// What comes after the name of an extended object or interface, and more definitions.
    ObjectExtension,
    /// What comes after the name of an extended union, and more definitions.
    UnionExtension,
    /// What comes after the name of an extended enum, and more definitions.
    EnumExtension,
    /// What comes after the name of an extended input object, and more definitions.
    InputObjectExtension,
    /// The name of an operation, or none.
    OperationName,
    /// Variable definitions in parentheses, or none.
    VariablesDefinition,
    /// One or more variable definitions, and `)`.
    FirstVariableDefinition,
    /// More variable definitions, or none, and `)`.
    MoreVariableDefinitions,
    /// Directives, or none.
    Directives,
    /// More directives, or none.
    MoreDirectives,
    /// Directives without variables, or none.
    ConstDirectives,
    /// More directives without variables, or none.
    MoreConstDirectives,
    /// One or more directives without variables.
    SomeConstDirectives,
    /// Arguments in parentheses, or none.
    Arguments,
    /// One or more arguments, and `)`.
    FirstArgument,
    /// More arguments, or none, and `)`.
    MoreArguments,
    /// Arguments without variables in parentheses, or none.
    ConstArguments,
    /// One or more arguments without variables, and `)`.
    FirstConstArgument,
    /// More arguments without variables, or none, and `)`.
    MoreConstArguments,
    /// A value.
    Value,
    /// More values of a list, or none, and `]`.
    MoreValues,
    /// More fields of an input object, or none, and `}`.
    MoreObjectFields,
    /// A value without variables.
    ConstValue,
    /// More values without variables, or none, and `]`.
    MoreConstValues,
    /// More fields without variables, or none, and `}`.
    MoreConstObjectFields,
    /// A type reference.
    Type,
    /// `!`, or nothing.
    NonNull,
    /// A default value, or none.
    DefaultValue,
    /// A selection set.
    SelectionSet,
    /// A selection set, or none.
    OptionalSelectionSet,
    /// One or more selections, and `}`.
    FirstSelection,
    /// More selections, or none, and `}`.
    MoreSelections,
    /// The name of a field after its alias, or nothing.
    AliasedName,
    /// What comes after `...`.
    Fragment,
    /// A name other than `on`.
    FragmentName,
    /// Root operation types in braces.
    RootOperationTypes,
    /// One or more root operation types, and `}`.
    FirstRootOperationType,
    /// More root operation types, or none, and `}`.
    MoreRootOperationTypes,
    /// Implemented interfaces, or none.
    ImplementsInterfaces,
    /// What comes after `implements`.
    FirstInterface,
    /// More interfaces, each after `&`, or none.
    MoreInterfaces,
    /// One or more field definitions, and `}`.
    FirstFieldDefinition,
    /// More field definitions, or none, and `}`.
    MoreFieldDefinitions,
    /// Argument definitions in parentheses, or none.
    ArgumentsDefinition,
    /// One or more argument definitions, and `)`.
    FirstArgumentDefinition,
    /// More argument definitions, or none, and `)`.
    MoreArgumentDefinitions,
    /// One or more input fields, and `}`.
    FirstInputField,
    /// More input fields, or none, and `}`.
    MoreInputFields,
    /// Member types of a union, or none.
    UnionMemberTypes,
    /// What comes after `=` in a union.
    FirstMemberType,
    /// More member types, each after a vertical bar, or none.
    MoreMemberTypes,
    /// One or more enum value definitions, and `}`.
    FirstEnumValue,
    /// More enum value definitions, or none, and `}`.
    MoreEnumValues,
    /// A name other than `true`, `false` and `null`.
    EnumValue,
    /// `repeatable`, or nothing.
    Repeatable,
    /// One or more directive locations.
    DirectiveLocations,
    /// More directive locations, each after a vertical bar, or none.
    MoreDirectiveLocations,
    /// A directive location.
    DirectiveLocation,
    /// A name.
    Name,
    /// `on`.
    On,
    /// `:`.
    Colon,
    /// `$`.
    Dollar,
    /// `@`.
    At,
    /// `]`.
    CloseBracket,
}

/// A group of terminals.
#[derive(Clone, Copy, Debug, PartialEq, Eq)]
pub(crate) enum Group {
    /// This one.
    Is(Terminal),
    /// Any name.
    Name,
    /// A name other than `on`.
    FragmentName,
    /// A name other than `true`, `false` and `null`.
    EnumValue,
    /// An integer or a float.
    Number,
    /// A string in quotes or in triple quotes.
    StringValue,
}

impl Group {
    /// Whether the terminal is in the group.
    pub(crate) fn has(self, terminal: Terminal) -> bool
        ensures { result ≡ has self terminal }
    {
        let number = terminal.number();
        match self {
            Group::Is(other) => other.number() == number,
            Group::Name => terminal.is_name(),
            Group::FragmentName => terminal.is_name() && number != Terminal::On.number(),
            Group::EnumValue => {
                let is_reserved = number >= Terminal::True.number()
                    && number <= Terminal::Null.number();
                terminal.is_name() && !is_reserved
            }
            Group::Number => {
                number == Terminal::IntValue.number() || number == Terminal::FloatValue.number()
            }
            Group::StringValue => {
                number == Terminal::StringValue.number() || number == Terminal::BlockString.number()
            }
        }
    }
}

/// A terminal of the group belongs to the symbol, and these symbols come after it.
pub(crate) type Rule = (Group, &'static [Symbol]);

/// What a symbol is at a terminal.
#[derive(Clone, Copy, Debug, PartialEq, Eq)]
pub(crate) enum Step {
    /// The terminal belongs to the symbol, and these symbols come after it.
    Take(&'static [Symbol]),
    /// The symbol is absent, and the terminal comes after it.
    Skip,
    /// The terminal is not allowed.
    Reject,
}

/// The rules of a symbol: the first that fits the terminal holds.
#[derive(Clone, Copy)]
pub(crate) struct Row {
    /// Whether the symbol can be absent.
    pub(crate) is_optional: bool,
    /// Its own rules.
    pub(crate) own: &'static [Rule],
    /// Rules that it shares with other symbols.
    pub(crate) shared: &'static [Rule],
}

/// The rules of a symbol.
pub(crate) fn row_of(symbol: Symbol) -> Row
    ensures { FitsRow symbol result }
{
    match symbol {
        Symbol::Document => definitions::DOCUMENT,
        Symbol::Definitions => definitions::DEFINITIONS,
        Symbol::DescribedDefinitions => definitions::DESCRIBED_DEFINITIONS,
        Symbol::FieldsThenDefinitions => definitions::FIELDS_THEN_DEFINITIONS,
        Symbol::EnumValuesThenDefinitions => definitions::ENUM_VALUES_THEN_DEFINITIONS,
        Symbol::InputFieldsThenDefinitions => definitions::INPUT_FIELDS_THEN_DEFINITIONS,
        Symbol::RootOperationTypesThenDefinitions =>
            definitions::ROOT_OPERATION_TYPES_THEN_DEFINITIONS,
        Symbol::ExtensionThenDefinitions => definitions::EXTENSION_THEN_DEFINITIONS,
        Symbol::SchemaExtension => definitions::SCHEMA_EXTENSION,
        Symbol::ObjectExtension => definitions::OBJECT_EXTENSION,
        Symbol::UnionExtension => definitions::UNION_EXTENSION,
        Symbol::EnumExtension => definitions::ENUM_EXTENSION,
        Symbol::InputObjectExtension => definitions::INPUT_OBJECT_EXTENSION,
        Symbol::OperationName => executable::OPERATION_NAME,
        Symbol::VariablesDefinition => executable::VARIABLES_DEFINITION,
        Symbol::FirstVariableDefinition => executable::FIRST_VARIABLE_DEFINITION,
        Symbol::MoreVariableDefinitions => executable::MORE_VARIABLE_DEFINITIONS,
        Symbol::Directives => values::DIRECTIVES,
        Symbol::MoreDirectives => values::MORE_DIRECTIVES,
        Symbol::ConstDirectives => values::CONST_DIRECTIVES,
        Symbol::MoreConstDirectives => values::MORE_CONST_DIRECTIVES,
        Symbol::SomeConstDirectives => values::SOME_CONST_DIRECTIVES,
        Symbol::Arguments => values::ARGUMENTS,
        Symbol::FirstArgument => values::FIRST_ARGUMENT,
        Symbol::MoreArguments => values::MORE_ARGUMENTS,
        Symbol::ConstArguments => values::CONST_ARGUMENTS,
        Symbol::FirstConstArgument => values::FIRST_CONST_ARGUMENT,
        Symbol::MoreConstArguments => values::MORE_CONST_ARGUMENTS,
        Symbol::Value => values::VALUE,
        Symbol::MoreValues => values::MORE_VALUES,
        Symbol::MoreObjectFields => values::MORE_OBJECT_FIELDS,
        Symbol::ConstValue => values::CONST_VALUE,
        Symbol::MoreConstValues => values::MORE_CONST_VALUES,
        Symbol::MoreConstObjectFields => values::MORE_CONST_OBJECT_FIELDS,
        Symbol::Type => values::TYPE,
        Symbol::NonNull => values::NON_NULL,
        Symbol::DefaultValue => values::DEFAULT_VALUE,
        Symbol::SelectionSet => executable::SELECTION_SET,
        Symbol::OptionalSelectionSet => executable::OPTIONAL_SELECTION_SET,
        Symbol::FirstSelection => executable::FIRST_SELECTION,
        Symbol::MoreSelections => executable::MORE_SELECTIONS,
        Symbol::AliasedName => executable::ALIASED_NAME,
        Symbol::Fragment => executable::FRAGMENT,
        Symbol::FragmentName => executable::FRAGMENT_NAME,
        Symbol::RootOperationTypes => type_system::ROOT_OPERATION_TYPES,
        Symbol::FirstRootOperationType => type_system::FIRST_ROOT_OPERATION_TYPE,
        Symbol::MoreRootOperationTypes => type_system::MORE_ROOT_OPERATION_TYPES,
        Symbol::ImplementsInterfaces => type_system::IMPLEMENTS_INTERFACES,
        Symbol::FirstInterface => type_system::FIRST_INTERFACE,
        Symbol::MoreInterfaces => type_system::MORE_INTERFACES,
        Symbol::FirstFieldDefinition => type_system::FIRST_FIELD_DEFINITION,
        Symbol::MoreFieldDefinitions => type_system::MORE_FIELD_DEFINITIONS,
        Symbol::ArgumentsDefinition => type_system::ARGUMENTS_DEFINITION,
        Symbol::FirstArgumentDefinition => type_system::FIRST_ARGUMENT_DEFINITION,
        Symbol::MoreArgumentDefinitions => type_system::MORE_ARGUMENT_DEFINITIONS,
        Symbol::FirstInputField => type_system::FIRST_INPUT_FIELD,
        Symbol::MoreInputFields => type_system::MORE_INPUT_FIELDS,
        Symbol::UnionMemberTypes => type_system::UNION_MEMBER_TYPES,
        Symbol::FirstMemberType => type_system::FIRST_MEMBER_TYPE,
        Symbol::MoreMemberTypes => type_system::MORE_MEMBER_TYPES,
        Symbol::FirstEnumValue => type_system::FIRST_ENUM_VALUE,
        Symbol::MoreEnumValues => type_system::MORE_ENUM_VALUES,
        Symbol::EnumValue => type_system::ENUM_VALUE,
        Symbol::Repeatable => type_system::REPEATABLE,
        Symbol::DirectiveLocations => type_system::DIRECTIVE_LOCATIONS,
        Symbol::MoreDirectiveLocations => type_system::MORE_DIRECTIVE_LOCATIONS,
        Symbol::DirectiveLocation => tokens::DIRECTIVE_LOCATION,
        Symbol::Name => tokens::NAME,
        Symbol::On => tokens::ON,
        Symbol::Colon => tokens::COLON,
        Symbol::Dollar => tokens::DOLLAR,
        Symbol::At => tokens::AT,
        Symbol::CloseBracket => tokens::CLOSE_BRACKET,
    }
}

/// The symbols after the terminal by the first rule that fits it.
fn first_fit(rules: &'static [Rule], terminal: Terminal) -> Option<&'static [Symbol]>
    ensures { MatchOption result ((other : Step) → step_by rules.now terminal other ≡ other)
        (λ x. (other : Step) → step_by rules.now terminal other ≡ Step.Take x) }
{
    for rule in rules {
        if rule.0.has(terminal) {
            return Some(rule.1);
        }
    }
    None
}

/// What a symbol is at a terminal.
pub(crate) fn after(symbol: Symbol, terminal: Terminal) -> Step
    ensures { Follows symbol terminal result }
{
    let row = row_of(symbol);
    if let Some(symbols) = first_fit(row.own, terminal) {
        return Step::Take(symbols);
    }
    if let Some(symbols) = first_fit(row.shared, terminal) {
        return Step::Take(symbols);
    }
    if row.is_optional {
        Step::Skip
    } else {
        Step::Reject
    }
}
