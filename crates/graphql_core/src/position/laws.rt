//! Laws of positions: what the derived impls return.
ghost use Rattle.std.specs.Prelude.{◌≡◌, ◌↔◌, IsTrue};
ghost use Rattle.std.specs.Ordering.{nat_cmp, ordering_then};

use crate::position::Pos;
use std::cmp::Ordering;
use std::hash::Hash;

/// Positions are ordered by line, then by column.
pub fn compare_positions(a: &Pos, b: &Pos) -> Ordering
    ensures derived { result ≡ ⟦<Pos as Ord>⟧.cmp a.now b.now }
    ensures order { result ≡ ordering_then (nat_cmp a.now.line b.now.line) (nat_cmp a.now.column b.now.column) }
{
    a.cmp(b)
}

/// `==` returns true only for the same position. Equal positions feed a hasher the same input.
pub fn are_same_position(a: &Pos, b: &Pos) -> bool
    ensures derived { result ≡ ⟦<Pos as PartialEq>⟧.eq a.now b.now }
    ensures same { IsTrue result ↔ (a.now ≡ b.now) }
    ensures hash { IsTrue result → ⟦<Pos as Hash>⟧.hash_input a.now ≡ ⟦<Pos as Hash>⟧.hash_input b.now }
{
    a == b
}

/// The default is 0:0, which is the position of no character.
pub fn default_position() -> Pos
    ensures derived { ⟦<Pos as Default>⟧.is_default result }
    ensures zero { (p : Pos) → ⟦<Pos as Default>⟧.is_default p → (p.line ≡ 0) × (p.column ≡ 0) }
{
    Pos::default()
}
