ghost use Rattle.std.specs.Prelude.{◌≡◌};

/// The signs of the language.
#[derive(Clone, Copy, Debug, PartialEq, Eq)]
pub enum Sign {
    /// `<=>`
    NullSafeEqual,
    /// `<>`
    NotEqual,
    /// `!=`
    BangEqual,
    /// `<=`
    LessEqual,
    /// `>=`
    GreaterEqual,
    /// `&&`
    AndAnd,
    /// `||`
    OrOr,
    /// `(`
    LeftParen,
    /// `)`
    RightParen,
    /// `,`
    Comma,
    /// `.`
    Dot,
    /// `*`
    Star,
    /// `+`
    Plus,
    /// `-`
    Minus,
    /// `/`
    Slash,
    /// `%`
    Percent,
    /// `=`
    Equal,
    /// `<`
    Less,
    /// `>`
    Greater,
}

impl Sign {
    ghost use Rattle.sa_lexer.specs.Sign.{spelling, sign_at};

    /// How the sign is written.
    pub fn spelling(self) -> &'static str
        ensures { result.now ≡ spelling self }
    {
        match self {
            Sign::NullSafeEqual => "<=>",
            Sign::NotEqual => "<>",
            Sign::BangEqual => "!=",
            Sign::LessEqual => "<=",
            Sign::GreaterEqual => ">=",
            Sign::AndAnd => "&&",
            Sign::OrOr => "||",
            Sign::LeftParen => "(",
            Sign::RightParen => ")",
            Sign::Comma => ",",
            Sign::Dot => ".",
            Sign::Star => "*",
            Sign::Plus => "+",
            Sign::Minus => "-",
            Sign::Slash => "/",
            Sign::Percent => "%",
            Sign::Equal => "=",
            Sign::Less => "<",
            Sign::Greater => ">",
        }
    }

    /// The longest sign that the bytes begin with.
    #[tactic(auto, unfolding(crate::specs::Sign::sign_at))]
    pub(crate) fn first(bytes: &[u8]) -> Option<Sign>
        ensures { result ≡ sign_at bytes.now }
    {
        Some(match bytes {
            [b'<', b'=', b'>', ..] => Sign::NullSafeEqual,
            [b'<', b'=', ..] => Sign::LessEqual,
            [b'<', b'>', ..] => Sign::NotEqual,
            [b'<', ..] => Sign::Less,
            [b'>', b'=', ..] => Sign::GreaterEqual,
            [b'>', ..] => Sign::Greater,
            [b'!', b'=', ..] => Sign::BangEqual,
            [b'&', b'&', ..] => Sign::AndAnd,
            [b'|', b'|', ..] => Sign::OrOr,
            [b'(', ..] => Sign::LeftParen,
            [b')', ..] => Sign::RightParen,
            [b',', ..] => Sign::Comma,
            [b'.', ..] => Sign::Dot,
            [b'*', ..] => Sign::Star,
            [b'+', ..] => Sign::Plus,
            [b'-', ..] => Sign::Minus,
            [b'/', ..] => Sign::Slash,
            [b'%', ..] => Sign::Percent,
            [b'=', ..] => Sign::Equal,
            _ => return None,
        })
    }
}
