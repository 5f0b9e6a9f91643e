use std::cmp::Ordering;

/// The truth of a condition in SQL, with UNKNOWN for what NULL leaves open.
///
/// Source: MariaDB Knowledge Base, "NULL Values in MariaDB".
#[derive(Clone, Copy, Debug, PartialEq, Eq)]
pub enum Truth {
    False,
    Unknown,
    True,
}

/// The seven comparisons of SQL.
///
/// Source: MariaDB Knowledge Base, "Comparison Operators".
#[derive(Clone, Copy, Debug, PartialEq, Eq)]
pub enum CompareOp {
    /// `=`
    Eq,
    /// `<=>`, which also answers for NULL.
    NullEq,
    /// `<>`, also written `!=`.
    Ne,
    /// `<`
    Lt,
    /// `<=`
    Le,
    /// `>`
    Gt,
    /// `>=`
    Ge,
}

impl CompareOp {
    ghost use Rattle.std.specs.Prelude.{◌≡◌};
    ghost use Rattle.sa_value.specs.Compare.{holds_at};

    /// Whether the comparison holds of two values that stand in this order.
    pub(crate) fn holds_at(self, order: Ordering) -> bool
        ensures { result ≡ holds_at self order }
    {
        match self {
            CompareOp::Eq | CompareOp::NullEq => order == Ordering::Equal,
            CompareOp::Ne => order != Ordering::Equal,
            CompareOp::Lt => order == Ordering::Less,
            CompareOp::Le => order != Ordering::Greater,
            CompareOp::Gt => order == Ordering::Greater,
            CompareOp::Ge => order != Ordering::Less,
        }
    }
}

impl Truth {
    ghost use Rattle.std.specs.Prelude.{◌≡◌};
    ghost use Rattle.sa_value.specs.Compare.{known};
    ghost use Rattle.sa_value.specs.Logic.{conjunction, disjunction, negation};

    /// `self AND other`: FALSE where one is FALSE, else UNKNOWN where one is UNKNOWN.
    ///
    /// Source: MariaDB Knowledge Base, "AND".
    pub fn and(self, other: Truth) -> Truth
        ensures { result ≡ conjunction self other }
    {
        match (self, other) {
            (Truth::False, _) | (_, Truth::False) => Truth::False,
            (Truth::Unknown, _) | (_, Truth::Unknown) => Truth::Unknown,
            (Truth::True, Truth::True) => Truth::True,
        }
    }

    /// `self OR other`: TRUE where one is TRUE, else UNKNOWN where one is UNKNOWN.
    ///
    /// Source: MariaDB Knowledge Base, "OR".
    pub fn or(self, other: Truth) -> Truth
        ensures { result ≡ disjunction self other }
    {
        match (self, other) {
            (Truth::True, _) | (_, Truth::True) => Truth::True,
            (Truth::Unknown, _) | (_, Truth::Unknown) => Truth::Unknown,
            (Truth::False, Truth::False) => Truth::False,
        }
    }

    /// `NOT self`, which is UNKNOWN where it is UNKNOWN.
    ///
    /// Source: MariaDB Knowledge Base, "NOT".
    pub fn not(self) -> Truth
        ensures { result ≡ negation self }
    {
        match self {
            Truth::False => Truth::True,
            Truth::Unknown => Truth::Unknown,
            Truth::True => Truth::False,
        }
    }

    /// The truth of what is known to hold or not.
    pub(crate) fn known(holds: bool) -> Truth
        ensures { result ≡ known holds }
    {
        if holds { Truth::True } else { Truth::False }
    }
}
