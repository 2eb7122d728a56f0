//! The parts of documents, each as `Display` shows it.
use crate::report::Report;
use graphql_parser::query::{
    Definition, Directive, Document, Names, OperationDefinition, Selection, SelectionSet,
    VariableDefinition,
};

fn report_directives<N: Names>(report: &mut Report, directives: &[Directive<'_, N>]) {
    for directive in directives {
        report.show_line(directive);
    }
}

/// Reports a selection, the values of a field's arguments, the condition of an inline fragment, and the directives.
fn report_selection<N: Names>(report: &mut Report, selection: &Selection<'_, N>) {
    match selection {
        Selection::Field(field) => {
            report.show_line(field);
            for (_, value) in field.arguments.iter() {
                report.show_line(value);
            }
            report_directives(report, &field.directives);
        }
        Selection::FragmentSpread(spread) => {
            report.show_line(spread);
            report_directives(report, &spread.directives);
        }
        Selection::InlineFragment(inline) => {
            report.show_line(inline);
            if let Some(condition) = &inline.type_condition {
                report.show_line(condition);
            }
            report_directives(report, &inline.directives);
        }
    }
}

/// Reports a selection set, and each of its selections.
fn report_set<N: Names>(report: &mut Report, set: &SelectionSet<'_, N>) {
    report.show_line(set);
    for selection in set.items.iter() {
        report_selection(report, selection);
    }
}

/// Reports each variable, its type, its default value, and its directives.
fn report_variables<N: Names>(report: &mut Report, variables: &[VariableDefinition<'_, N>]) {
    for variable in variables {
        report.show_line(variable);
        report.show_line(&variable.var_type);
        if let Some(value) = &variable.default_value {
            report.show_line(value);
        }
        report_directives(report, &variable.directives);
    }
}

/// Reports a query, a mutation or a subscription, and its parts.
macro_rules! report_named {
    ($report:expr, $operation:expr) => {{
        $report.show_line($operation);
        report_variables($report, &$operation.variable_definitions);
        report_directives($report, &$operation.directives);
        report_set($report, &$operation.selection_set);
    }};
}

/// Reports an operation, the variant that is in it, and its parts.
fn report_operation<N: Names>(report: &mut Report, operation: &OperationDefinition<'_, N>) {
    report.show_line(operation);
    match operation {
        OperationDefinition::SelectionSet(set) => report_set(report, set),
        OperationDefinition::Query(query) => report_named!(report, query),
        OperationDefinition::Mutation(mutation) => report_named!(report, mutation),
        OperationDefinition::Subscription(subscription) => report_named!(report, subscription),
    }
}

/// Reports a definition, the variant that is in it, and its parts.
fn report_definition<N: Names>(report: &mut Report, definition: &Definition<'_, N>) {
    report.show_line(definition);
    match definition {
        Definition::Operation(operation) => report_operation(report, operation),
        Definition::Fragment(fragment) => {
            report.show_line(fragment);
            report.show_line(&fragment.type_condition);
            report_directives(report, &fragment.directives);
            report_set(report, &fragment.selection_set);
        }
    }
}

/// Reports a document and its parts down to the first selections, one after another.
pub fn report_parts<N: Names>(report: &mut Report, document: &Document<'_, N>) {
    report.show(document);
    for definition in document.definitions.iter() {
        report_definition(report, definition);
    }
}
