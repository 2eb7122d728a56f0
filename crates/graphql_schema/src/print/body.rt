//! The common part of a type definition and a type extension: keyword, name, directives and parts.
ghost use Rattle.graphql_schema.specs.WellFormed.{IsWellFormedBody, IsWellFormedDefinition};
ghost use Rattle.graphql_schema.specs.Layout.{body_layout, body_levels, definition_layout, definition_levels};
ghost use Rattle.graphql_schema.specs.steps.Body.{body_seen, outline_seen};

use crate::print::description::{levels_in_description, write_description};
use crate::print::names::write_interfaces;
use crate::print::parts::Parts;
use graphql_core::common::Names;
use graphql_core::common::tree::Directive;
use graphql_core::format::print::{Pretty, levels_in_directives, write_directives};
use graphql_core::format::{Sink, Style};
use graphql_core::position::Pos;

/// What follows `extend` or a description.
#[derive(Drop)]
pub struct Body<'a, N: Names> {
    /// The position of the keyword.
    pub position: Pos,
    pub name: &'a N::Value,
    pub directives: &'a [Directive<N>],
    pub parts: Parts<'a, N>,
}

impl<'a, N: Names> Pretty for Body<'a, N> {
    ghost lines = { λ style _ b. body_layout style (body_seen N.bytes b) };

    ghost opens = { λ style b. body_levels style (body_seen N.bytes b) };

    ghost well_formed = { λ b. IsWellFormedBody (body_seen N.bytes b) };

    fn levels(&self, style: &Style) -> usize {
        levels_in_directives(self.directives, style).max(self.parts.levels(style))
    }

    #[inline(always)]
    fn write<S: Sink>(&self, out: &mut S, style: &Style, _margin: usize) -> Result<(), S::Error> {
        out.push_str(self.parts.keyword())?;
        out.push_str(N::view(self.name))?;
        write_interfaces::<S, N>(out, self.parts.interfaces())?;
        write_directives(out, self.directives, style, 0)?;
        self.parts.write(out, style, 0)
    }
}

/// A type definition or a type extension, by references to the parts that are formatted.
#[derive(Drop)]
pub enum Outline<'a, N: Names> {
    /// The description of the type, and its body.
    Definition(&'a Option<String>, Body<'a, N>),
    Extension(Body<'a, N>),
}

impl<'a, N: Names> Pretty for Outline<'a, N> {
    ghost lines = { λ style _ o. definition_layout style (outline_seen N.bytes o) };

    ghost opens = { λ style o. definition_levels style (outline_seen N.bytes o) };

    ghost well_formed = { λ o. IsWellFormedDefinition (outline_seen N.bytes o) };

    fn levels(&self, style: &Style) -> usize {
        match self {
            Outline::Definition(description, body) => {
                levels_in_description(description).max(body.levels(style))
            }
            Outline::Extension(body) => body.levels(style),
        }
    }

    #[inline(always)]
    fn write<S: Sink>(&self, out: &mut S, style: &Style, _margin: usize) -> Result<(), S::Error> {
        match self {
            Outline::Definition(description, body) => {
                write_description(out, description, style, 0)?;
                body.write(out, style, 0)
            }
            Outline::Extension(body) => {
                out.push_str("extend ")?;
                body.write(out, style, 0)
            }
        }
    }
}
