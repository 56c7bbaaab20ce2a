//! Reading trees.
mod draft;
mod error;
mod form;
mod judge;
mod line;
mod rules;
mod text;
mod words;

pub use draft::Draft;
pub use error::TreeError;
pub use rules::Rule;
pub use text::read_tree;
