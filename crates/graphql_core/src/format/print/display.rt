//! `Display` of values, types and directives, in the default style.
ghost use Rattle.std.specs.Prelude.{Some};
ghost use Rattle.graphql_core.specs.{text_of, default_style, value_view, type_view, directive_view, value_layout};
ghost use Rattle.graphql_core.specs.{type_layout, directive_layout, value_levels, arguments_levels, Displays};

use crate::common::Names;
use crate::common::tree::{Directive, Type, Value};
use crate::format::Style;
use crate::format::print::directives::write_directive;
use crate::format::print::levels::{check_width, levels_in_arguments, levels_in_value};
use crate::format::print::types::write_type;
use crate::format::print::values::write_value;
use std::fmt;

/// Formats the value in the default style. If that is too wide, the result is `fmt::Error`.
impl<N: Names> fmt::Display for Value<N> {
    ghost output = { λ v. Some (text_of (value_layout default_style 0 (value_view N.bytes v))) };

    ghost styled_output = { λ v spec. Some (text_of (value_layout default_style 0 (value_view N.bytes v))) };

    fn fmt<W: fmt::Write>(&self, f: &mut fmt::Formatter<W>) -> fmt::Result
        ensures { Displays W.write_str_gives f.old result (λ s. value_layout s 0) value_levels
            (value_view N.bytes self.now) f.new }
    {
        let style = Style::default();
        check_width(levels_in_value(self, &style), &style)?;
        write_value(f, self, &style, 0)
    }
}

/// Formats the type, which is the same in every style.
impl<N: Names> fmt::Display for Type<N> {
    ghost output = { λ t. Some (text_of (type_layout (type_view N.bytes t))) };

    ghost styled_output = { λ t spec. Some (text_of (type_layout (type_view N.bytes t))) };

    fn fmt<W: fmt::Write>(&self, f: &mut fmt::Formatter<W>) -> fmt::Result {
        write_type(f, self)
    }
}

/// Formats the directive in the default style. If that is too wide, the result is `fmt::Error`.
impl<N: Names> fmt::Display for Directive<N> {
    ghost output = { λ d. Some (text_of (directive_layout default_style 0 (directive_view N.bytes d))) };

    ghost styled_output = { λ d spec. Some (text_of (directive_layout default_style 0 (directive_view N.bytes d))) };

    fn fmt<W: fmt::Write>(&self, f: &mut fmt::Formatter<W>) -> fmt::Result
        ensures { Displays W.write_str_gives f.old result (λ s. directive_layout s 0)
            (λ s d. arguments_levels s d.arguments) (directive_view N.bytes self.now) f.new }
    {
        let style = Style::default();
        check_width(levels_in_arguments(&self.arguments, &style), &style)?;
        write_directive(f, self, &style, 0)
    }
}
