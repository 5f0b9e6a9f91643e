ghost use Rattle.std.specs.Prelude.{◌≡◌, []};

use sa_query::{Aggregate, Column};
use std::alloc::Global;

/// A column outside aggregates, and where it is named.
#[derive(Clone, Copy, Debug)]
pub(crate) struct Loose {
    pub(crate) place: usize,
    pub(crate) column: Column,
}

/// What an expression mentions, in the order of the text.
#[derive(Debug, Drop)]
pub(crate) struct Mentions {
    pub(crate) loose: Vec<Loose>,
    /// The outer ones alone.
    pub(crate) aggregates: Vec<Aggregate>,
    /// The places of numbers, texts and NULLs.
    pub(crate) literals: Vec<usize>,
}

impl Mentions {
    /// Nothing is mentioned.
    pub(crate) fn new(alloc: Global) -> Mentions
        ensures loose { result.loose.items ≡ [] }
        ensures aggregates { result.aggregates.items ≡ [] }
        ensures literals { result.literals.items ≡ [] }
    {
        Mentions {
            loose: Vec::new(alloc),
            aggregates: Vec::new(alloc),
            literals: Vec::new(alloc),
        }
    }
}
