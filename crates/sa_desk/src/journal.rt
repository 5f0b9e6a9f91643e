use crate::entry::Entry;
use sa_value::Sequence;

/// The journal of one desk.
pub type Entries = Sequence<Entry>;

/// The journals of all desks, in the order of their numbers.
pub type Journals = Sequence<Entries>;
