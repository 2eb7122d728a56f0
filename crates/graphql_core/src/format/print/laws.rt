//! Laws of the layouts.
ghost use Rattle.std.specs.Prelude.{◌≡◌, ℕ};
ghost use Rattle.graphql_core.specs.{deepest, StyleOptions, value_brackets, type_brackets, directive_brackets};
ghost use Rattle.graphql_core.specs.{value_layout, type_layout, directive_layout, ValueTree, TypeTree, DirectiveTree};
ghost use Rattle.graphql_core.specs.examples.LayoutExamples as example;

/// The brackets counted on a tree are the most that are open at once in its layout, in each style.
pub fn brackets_are_those_of_layouts()
    ensures values { (style : StyleOptions) (margin : ℕ) (v : ValueTree)
        → deepest (value_layout style margin v) ≡ value_brackets v }
    ensures types { (t : TypeTree) → deepest (type_layout t) ≡ type_brackets t }
    ensures directives { (style : StyleOptions) (margin : ℕ) (d : DirectiveTree)
        → deepest (directive_layout style margin d) ≡ directive_brackets d }
{}

/// The layouts of some small values, types and directives.
pub fn worked_layouts()
    ensures indented { example.Indented }
    ensures line_end { example.LineEnd }
    ensures return_and_line_end { example.ReturnAndLineEnd }
    ensures blank_line { example.BlankLine }
    ensures past_the_plane { example.PastThePlane }
    ensures four_quotes { example.FourQuotes }
    ensures inner_indent { example.InnerIndent }
    ensures controls { example.Controls }
    ensures object { example.Object }
    ensures object_in_lines { example.ObjectInLines }
    ensures empty_list_in_lines { example.EmptyListInLines }
    ensures declared { example.Declared }
    ensures directive { example.Directive }
{}
