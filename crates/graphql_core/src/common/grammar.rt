//! Grammars as data, and theorems on parsing by them with one token of lookahead.
//!
//! This module has no code: its functions are the theorems.
ghost use Rattle.std.specs.Prelude.{◌≡◌, ℕ, List, Option, length, true};
ghost use Rattle.graphql_core.specs.{Expr, Empty, Then, Either, Sym, ParseTree, Row, Grammar, Fits, row_at, is_ll1};
ghost use Rattle.graphql_core.specs.{is_tight, is_productive, decides, has_samples, unchecked, lax, IsExact};
ghost use Rattle.graphql_core.specs.{ReadsAlike, IsWhole, IsWholeFor, Extends, TestsAlike, ReadsOn, LeavesAlone};
ghost use Rattle.graphql_core.specs.{is_below, Growth, Grows, DerivesOn, ReturnsFirstError, RejectsTokens, Change};
ghost use Rattle.graphql_core.specs.{change_at, unchanged, out_of_head, in_second, out_of_prefix, out_of_symbols};
ghost use Rattle.graphql_core.specs.{written, with_rows, IsFactored, AreFactored, EachIsFactored, IsExactFor};

/// If the tables of a grammar pass the LL(1) test, parsing with one token of lookahead is sound, complete and
/// unambiguous.
pub fn reading()
    ensures exact { (g : Grammar) → is_ll1 g.rows ≡ true → is_productive g ≡ true
        → (e : Expr) → decides g.rows e ≡ true → has_samples g e ≡ true → IsExact g e }
    ensures alike { (g : Grammar) → is_ll1 g.rows ≡ true → (e : Expr) → decides g.rows e ≡ true → ReadsAlike g e }
    ensures whole { (g : Grammar) → is_ll1 g.rows ≡ true → is_productive g ≡ true
        → (e : Expr) → decides g.rows e ≡ true → has_samples g e ≡ true → IsWhole g e }
{}

/// The same holds of a grammar as written, parsed by factored rules whose tables pass the LL(1) test.
pub fn factored()
    ensures exact { (g : Grammar) (rs : List Row) (cs : List Change)
        → EachIsFactored g rs cs → EachIsFactored (unchecked g) rs cs → EachIsFactored (lax g) rs cs
        → is_ll1 rs ≡ true → is_productive (with_rows g rs cs) ≡ true
        → (e : Expr) → decides rs e ≡ true → has_samples (with_rows g rs cs) e ≡ true → IsExactFor g rs cs e }
    ensures whole { (g : Grammar) (rs : List Row) (cs : List Change)
        → EachIsFactored g rs cs → EachIsFactored (unchecked g) rs cs → EachIsFactored (lax g) rs cs
        → is_ll1 rs ≡ true → is_productive (with_rows g rs cs) ≡ true
        → (e : Expr) → decides rs e ≡ true → has_samples (with_rows g rs cs) e ≡ true → IsWholeFor g rs cs e }
{}

/// If also no table claims more than its rule, and no node without tokens is rejected, parsing returns the first error:
/// the one at the lowest token index. This holds for both kinds of grammar.
pub fn least()
    ensures read { (g : Grammar) → is_ll1 g.rows ≡ true → is_tight g.rows ≡ true → is_productive g ≡ true
        → RejectsTokens g → (e : Expr) → decides g.rows e ≡ true → has_samples g e ≡ true → ReturnsFirstError g g e }
    ensures written { (g : Grammar) (rs : List Row) (cs : List Change) → EachIsFactored g rs cs
        → EachIsFactored (lax g) rs cs → is_ll1 rs ≡ true → is_tight rs ≡ true
        → is_productive (with_rows g rs cs) ≡ true → RejectsTokens g
        → (e : Expr) → decides rs e ≡ true → has_samples (with_rows g rs cs) e ≡ true
        → ReturnsFirstError g (with_rows g rs cs) e }
{}

/// Ways to factor a rule: no change, a head common to both alternatives, the second alternative, an optional prefix,
/// and a head common to two symbols.
pub fn factored_rules()
    ensures each { (g : Grammar) (rs : List Row) (cs : List Change) → AreFactored g rs cs g.rows rs cs
        → EachIsFactored g rs cs }
    ensures same { (g : Grammar) (rs : List Row) (cs : List Change) (e : Expr) → IsFactored g rs cs e e unchanged }
    ensures head { (g : Grammar) (rs : List Row) (cs : List Change) (d p q : Expr)
        → IsFactored g rs cs (Either (Then d p) (Then d q)) (Then d (Either p q)) out_of_head }
    ensures second { (g : Grammar) (rs : List Row) (cs : List Change) (a e q : Expr) (c : Change)
        → IsFactored g rs cs e q c → IsFactored g rs cs (Either a e) (Either a q) (in_second c) }
    ensures prefix { (g : Grammar) (rs : List Row) (cs : List Change) (k : ℕ) (n c r : Expr)
        → (row_at g.rows k).rule ≡ Then n c → (row_at rs k).rule ≡ Then n c
        → ((x : ParseTree) → (change_at cs k).to_written x ≡ x) → ((x : ParseTree) → g.check k x ≡ true)
        → IsFactored g rs cs (Then (Either (Sym k) Empty) (Then n r))
        (Then n (Then (Either (Then c n) Empty) r)) (out_of_prefix k) }
    ensures symbols { (g : Grammar) (rs : List Row) (cs : List Change) (j k : ℕ) (d p q : Expr)
        → (row_at g.rows j).rule ≡ Then d p
        → (row_at rs j).rule ≡ Then d p → (row_at g.rows k).rule ≡ Then d q → (row_at rs k).rule ≡ Then d q
        → ((x : ParseTree) → (change_at cs j).to_written x ≡ x) → ((x : ParseTree) → (change_at cs k).to_written x ≡ x)
        → ((x : ParseTree) → g.check j x ≡ true) → ((x : ParseTree) → g.check k x ≡ true)
        → IsFactored g rs cs (Either (Sym j) (Sym k)) (Then d (Either p q)) (out_of_symbols j k) }
{}

/// A grammar that extends another parses the expressions of the other alike. Factored rules for other symbols leave the
/// parse trees of these expressions unchanged.
pub fn extended()
    ensures on { (n : ℕ) (g h : Grammar) → Extends n g h → (e : Expr) → is_below n e ≡ true
        → TestsAlike g h e → ReadsOn g h e }
    ensures alone { (n : ℕ) (g : Grammar) (cs : List Change) → LeavesAlone n g cs → (e : Expr) → is_below n e ≡ true
        → (x : ParseTree) → Fits g e x → written cs x ≡ x }
{}

/// A grammar with new parts in its rules derives all that the original derives, with those parts empty.
pub fn growing()
    ensures on { (ps : List (Option Growth)) (g h : Grammar) → Grows ps g h → (e : Expr)
        → is_below (length g.rows) e ≡ true → DerivesOn ps g h e }
{}
