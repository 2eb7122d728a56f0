//! Laws of the lexical definitions alone.
ghost use Rattle.std.specs.Prelude.{◌≡◌, ℕ, List};
ghost use Rattle.graphql_core.specs.{Item, HasItems, EndsOnce};
ghost use Rattle.graphql_core.specs.examples.LexicalExamples as example;

/// Each input has exactly one list of items: its tokens, then its end or its first lexical error.
pub fn one_list_of_items()
    ensures some { (text : List ℕ) → (items : List Item) × HasItems text items }
    ensures one { (text : List ℕ) (items others : List Item) → HasItems text items
        → HasItems text others → items ≡ others }
    ensures last { (text : List ℕ) (items : List Item) → HasItems text items → EndsOnce items }
{}

/// The items of some small inputs.
pub fn worked_examples()
    ensures empty { example.EmptyInput }
    ensures ignored_alone { example.IgnoredAlone }
    ensures comment_return_feed { example.CommentReturnFeed }
    ensures comment_return { example.CommentReturn }
    ensures byte_order_mark { example.ByteOrderMark }
    ensures return_alone { example.ReturnAlone }
    ensures bad_character { example.BadCharacter }
    ensures too_deep { example.TooDeepAtLast }
    ensures closed_first { example.ClosedFirst }
    ensures integers { example.Integers }
    ensures bad_integers { example.BadIntegers }
    ensures floats { example.Floats }
    ensures bad_floats { example.BadFloats }
    ensures long_runs { example.LongRuns }
    ensures bare_dot { example.BareDot }
    ensures no_break_space { example.NoBreakSpace }
    ensures character_in_string { example.CharacterInString }
    ensures unterminated_string { example.UnterminatedString }
    ensures unterminated_block { example.UnterminatedBlock }
    ensures quote_in_block { example.QuoteInBlock }
    ensures quote_after_block { example.QuoteAfterBlock }
    ensures lines_in_block { example.LinesInBlock }
    ensures punctuators { example.Punctuators }
{}
