//! The law is a function that does nothing: its contract states the law, which its proof shows once and for all.

ghost use Rattle.sa_parser.specs.Canonical.{CanonicalTextIsUnique};

/// The tokens of a canonical text spell the tree that it was made of, places left aside, and no other.
pub fn canonical_text_is_unique()
    ensures { CanonicalTextIsUnique }
{}
