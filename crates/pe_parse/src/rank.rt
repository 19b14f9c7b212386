ghost use Rattle.std.specs.Prelude.{◌≡◌};
ghost use Rattle.pe_parse.specs.Grammar.{rank_of};

use crate::tree::Sign;

/// How tightly signs between operands bind, from the loosest to the tightest.
#[derive(Clone, Copy, Debug, PartialEq, Eq)]
pub enum Rank {
    /// `||`
    Disjunction,
    /// `&&`
    Conjunction,
    /// `<`, `<=`, `>`, `>=`, `==` and `!=`
    Comparison,
    /// `+` and `-`
    Sum,
    /// `*`, `/` and `%`
    Product,
}

impl Sign {
    /// How tightly the sign binds.
    pub fn rank(self) -> Rank
        ensures { result ≡ rank_of self }
    {
        match self {
            Sign::Or => Rank::Disjunction,
            Sign::And => Rank::Conjunction,
            Sign::Less
            | Sign::LessOrEqual
            | Sign::Greater
            | Sign::GreaterOrEqual
            | Sign::Equal
            | Sign::NotEqual => Rank::Comparison,
            Sign::Plus | Sign::Minus => Rank::Sum,
            Sign::Times | Sign::Over | Sign::Modulo => Rank::Product,
        }
    }
}
