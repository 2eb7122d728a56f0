//! Formatting operations with a keyword, and their variables.
ghost use Rattle.std.specs.Prelude.{◌*◌, ◌^◌, ◌<◌, OnOk, option_map};
ghost use Rattle.graphql_core.specs.{text_of};
ghost use Rattle.graphql_query.specs.{variable_definition_view, variable_definitions_view, operation_seen};
ghost use Rattle.graphql_query.specs.{operation, IsWellFormedVariable, AreWellFormedVariables, IsWellFormedDefinition};
ghost use Rattle.graphql_query.specs.{operation_name_layout};
ghost use Rattle.graphql_query.specs.{variable_definition_layout, variable_definitions_layout, operation_layout};
ghost use Rattle.graphql_query.specs.{variable_definition_levels, variable_definitions_levels, operation_levels};

use crate::print::selection::write_selection_set;
use crate::read::keyword::Keyword;
use crate::tree::{SelectionSet, VariableDefinition};
use graphql_core::common::Names;
use graphql_core::common::tree::Directive;
use graphql_core::format::print::{
    Pretty, levels_in_default, levels_in_directives, levels_in_each, write_default,
    write_directives, write_joined, write_type,
};
use graphql_core::format::{Sink, Style};
use graphql_core::position::Pos;

/// Appends the name of an operation, if it has one.
fn write_operation_name<S: Sink, N: Names>(
    out: &mut S,
    name: &Option<N::Value>,
) -> Result<(), S::Error>
    ensures { OnOk result (S.took out.old (text_of (operation_name_layout (option_map N.bytes name.now))) out.new) }
{
    let Some(name) = name else {
        return Ok(());
    };
    out.push_two(" ", N::view(name))
}

impl<N: Names> Pretty for VariableDefinition<N> {
    ghost lines = { λ style _ v. variable_definition_layout style (variable_definition_view N.bytes v) };

    ghost opens = { λ style v. variable_definition_levels style (variable_definition_view N.bytes v) };

    ghost well_formed = { λ v. IsWellFormedVariable (variable_definition_view N.bytes v) };

    fn levels(&self, style: &Style) -> usize {
        let default_value = levels_in_default(&self.default_value, style);
        default_value.max(levels_in_directives(&self.directives, style))
    }

    fn write<S: Sink>(&self, out: &mut S, style: &Style, _margin: usize) -> Result<(), S::Error> {
        out.push_three("$", N::view(&self.name), ": ")?;
        write_type(out, &self.var_type)?;
        write_default(out, &self.default_value, style, 0)?;
        write_directives(out, &self.directives, style, 0)
    }
}

/// Appends the variables of an operation in parentheses, if it has any.
fn write_variable_definitions<S: Sink, N: Names>(
    out: &mut S,
    variables: &[VariableDefinition<N>],
    style: &Style,
) -> Result<(), S::Error>
    requires { variable_definitions_levels style.now (variable_definitions_view N.bytes variables.now)
        * style.now.indent < 2 ^ 32 }
    ensures text { OnOk result (S.took out.old
        (text_of (variable_definitions_layout style.now (variable_definitions_view N.bytes variables.now))) out.new) }
    ensures well_formed { OnOk result (AreWellFormedVariables (variable_definitions_view N.bytes variables.now)) }
{
    if variables.is_empty() {
        return Ok(());
    }
    out.push_str("(")?;
    write_joined(out, ", ", variables, style, 0)?;
    out.push_str(")")
}

/// An operation with a keyword, by references to the parts that are formatted.
#[derive(Drop)]
pub struct OperationParts<'a, N: Names> {
    pub keyword: Keyword,
    /// The position of the keyword.
    pub position: Pos,
    pub name: &'a Option<N::Value>,
    pub variables: &'a Vec<VariableDefinition<N>>,
    pub directives: &'a Vec<Directive<N>>,
    pub selected: &'a SelectionSet<N>,
}

impl<'a, N: Names> Pretty for OperationParts<'a, N> {
    ghost lines = { λ style _ o. operation_layout style (operation_seen N.bytes o) };

    ghost opens = { λ style o. operation_levels style (operation_seen N.bytes o) };

    ghost well_formed = { λ o. IsWellFormedDefinition (operation (operation_seen N.bytes o)) };

    fn levels(&self, style: &Style) -> usize {
        let variables = levels_in_each(self.variables, style);
        let around = variables.max(levels_in_directives(self.directives, style));
        around.max(self.selected.levels(style))
    }

    #[inline(always)]
    fn write<S: Sink>(&self, out: &mut S, style: &Style, _margin: usize) -> Result<(), S::Error> {
        out.push_str(self.keyword.word())?;
        write_operation_name::<S, N>(out, self.name)?;
        write_variable_definitions(out, self.variables, style)?;
        write_directives(out, self.directives, style, 0)?;
        write_selection_set(out, " ", self.selected, style, 0)
    }
}

// References to the parts of an operation with this keyword.
macro_rules! parts {
    ($keyword:ident, $of:expr) => {
        $crate::print::operation::OperationParts {
            keyword: $crate::read::keyword::Keyword::$keyword,
            position: $of.position,
            name: &$of.name,
            variables: &$of.variable_definitions,
            directives: &$of.directives,
            selected: &$of.selection_set,
        }
    };
}

pub(crate) use parts;
