//! The parts of schema documents, each as `Display` shows it.
use crate::report::Report;
use graphql_parser::schema::{
    Definition, Document, Field, InputValue, Names, TypeDefinition, TypeExtension,
};

fn report_inputs<N: Names>(report: &mut Report, inputs: &[InputValue<'_, N>]) {
    for input in inputs {
        report.show_line(input);
    }
}

/// Reports fields and their arguments.
fn report_fields<N: Names>(report: &mut Report, fields: &[Field<'_, N>]) {
    for field in fields {
        report.show_line(field);
        report_inputs(report, &field.arguments);
    }
}

/// Reports the type of its kind that is in a type definition, and its parts.
fn report_type<N: Names>(report: &mut Report, definition: &TypeDefinition<'_, N>) {
    match definition {
        TypeDefinition::Scalar(scalar) => report.show_line(scalar),
        TypeDefinition::Object(object) => {
            report.show_line(object);
            report_fields(report, &object.fields);
        }
        TypeDefinition::Interface(interface) => {
            report.show_line(interface);
            report_fields(report, &interface.fields);
        }
        TypeDefinition::Union(union) => report.show_line(union),
        TypeDefinition::Enum(values) => report.show_line(values),
        TypeDefinition::InputObject(input) => {
            report.show_line(input);
            report_inputs(report, &input.fields);
        }
    }
}

/// Reports the extension of its kind that is in a type extension.
fn report_extension<N: Names>(report: &mut Report, extension: &TypeExtension<'_, N>) {
    match extension {
        TypeExtension::Scalar(scalar) => report.show_line(scalar),
        TypeExtension::Object(object) => report.show_line(object),
        TypeExtension::Interface(interface) => report.show_line(interface),
        TypeExtension::Union(union) => report.show_line(union),
        TypeExtension::Enum(values) => report.show_line(values),
        TypeExtension::InputObject(input) => report.show_line(input),
    }
}

/// Reports a definition, the variant that is in it, and its parts.
fn report_definition<N: Names>(report: &mut Report, definition: &Definition<'_, N>) {
    report.show_line(definition);
    match definition {
        Definition::SchemaDefinition(schema) => report.show_line(schema),
        Definition::TypeDefinition(definition) => {
            report.show_line(definition);
            report_type(report, definition);
        }
        Definition::TypeExtension(extension) => {
            report.show_line(extension);
            report_extension(report, extension);
        }
        Definition::SchemaExtension(extension) => report.show_line(extension),
        Definition::DirectiveDefinition(directive) => {
            report.show_line(directive);
            report_inputs(report, &directive.arguments);
        }
    }
}

/// Reports a document and its parts, one after another.
pub fn report_parts<N: Names>(report: &mut Report, document: &Document<'_, N>) {
    report.show(document);
    for definition in document.definitions.iter() {
        report_definition(report, definition);
    }
}
