//! The style of the output.
ghost use Rattle.std.specs.Prelude.{◌≡◌, ◌<◌, ◌^◌};
ghost use Rattle.graphql_core.specs.layouts.Style.{with_indent, with_multiline};

use std::marker::Model;

/// How documents are formatted. By default: two spaces for each level, and arguments in one line.
#[derive(Clone, Debug, PartialEq, Drop)]
pub struct Style {
    indent: u32,
    multiline_arguments: bool,
}

impl Model for Style {
    ghost use Rattle.std.specs.Prelude.{◌<◌, ◌^◌};
    ghost use Rattle.graphql_core.specs.layouts.Style as spec;

    ghost Value = { spec.StyleOptions };

    ghost view = { λ s. record { indent = s.indent; multiline = s.multiline_arguments } };

    ghost invariant = { λ s. s.indent < 2 ^ 32 };

    ghost inverse = { λ s. record { indent = s.indent; multiline_arguments = s.multiline } };
}

impl Default for Style {
    ghost use Rattle.std.specs.Prelude.{◌≡◌};
    ghost use Rattle.graphql_core.specs.layouts.Style.{default_style};

    ghost is_default = { λ s. s ≡ default_style };

    /// Two spaces for each level, and arguments in one line.
    fn default() -> Self {
        Style {
            indent: 2,
            multiline_arguments: false,
        }
    }
}

impl Style {
    /// Sets the number of spaces for each level, and returns the same style.
    pub fn indent(&mut self, indent: u32) -> &mut Self
        ensures same { result.ghost_name ≡ self.entry.ghost_name }
        ensures indent { result.now ≡ with_indent self.old indent }
    {
        self.indent = indent;
        self
    }

    /// Sets whether arguments, lists and objects take a line for each part, and returns the same style. Definitions of
    /// variables and of arguments never do.
    pub fn multiline_arguments(&mut self, multiline_arguments: bool) -> &mut Self
        ensures same { result.ghost_name ≡ self.entry.ghost_name }
        ensures multiline { result.now ≡ with_multiline self.old multiline_arguments }
    {
        self.multiline_arguments = multiline_arguments;
        self
    }

    /// Returns the number of spaces for each level.
    pub fn indentation(&self) -> u32
        ensures { result ≡ self.now.indent }
    {
        self.indent
    }

    /// Returns whether arguments, lists and objects take a line for each part.
    pub fn has_multiline_arguments(&self) -> bool
        ensures { result ≡ self.now.multiline }
    {
        self.multiline_arguments
    }
}
