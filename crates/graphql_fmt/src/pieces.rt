//! An input as its tokens and its comments, and output made of them.

mod gap;
mod join;
mod piece;
mod raw;
mod source;

pub use gap::Gap;
pub use join::joined;
pub use piece::{Piece, PieceKind};
pub use source::{checked_pieces, pieces_of};
