//! The operators of terms.

ghost use Rattle.std.specs.Prelude.{◌≡◌, ◌↔◌, IsTrue, true};
ghost use Rattle.gv_terms.specs.Places.{place_of, literal_of};
ghost use Rattle.gv_terms.specs.Ranges.{is_word_if_number};

/// An operator with its literal, where it has one. This project's own.
#[derive(Clone, Copy, Debug, PartialEq, Eq)]
pub enum Operator {
    /// A number.
    Number(u64),
    True,
    False,
    /// The reference 0.
    Nil,
    /// The slice of no object.
    NilSlice,
    /// The call 0.
    NoCall,
    /// The empty map from words to words.
    MapWW,
    /// The empty map from words to byte strings.
    MapWB,
    /// `!p`
    Not,
    /// `^a`
    Complement,
    /// `p || q`
    Or,
    /// `p && q`
    And,
    /// `x == y`
    Equal,
    /// `a < b`
    Less,
    /// `a <= b`
    AtMost,
    /// `a + b`
    Plus,
    /// `a - b`
    Minus,
    /// `a | b`
    BitOr,
    /// `a ^ b`
    BitXor,
    /// `a * b`
    Times,
    /// `a / b`
    Divide,
    /// `a % b`
    Remainder,
    /// `a << b`
    ShiftLeft,
    /// `a >> b`
    ShiftRight,
    /// `a & b`
    BitAnd,
    /// `a &^ b`
    BitClear,
    /// `if(p, x, y)`
    If,
    /// `imp(p, q)`
    Imp,
    /// `fits(a, b)`
    Fits,
    /// `bytes(K, v)`
    Bytes(u64),
    /// `words(K, v)`
    Words(u64),
    /// `refs(K, v)`
    Refs(u64),
    /// `blocks(K, v)`
    Blocks(u64),
    /// `len(x)`
    Len,
    /// `at(x, i)`
    At,
    /// `upd(x, i, v)`
    Upd,
    /// `sub(x, a, b)`
    Sub,
    /// `cat(x, y)`
    Cat,
    /// `iszero(x)`
    IsZero,
    /// `le64(a)`
    Le64,
    /// `un64(x)`
    Un64,
    /// `put64(x, a)`
    Put64,
    /// `get(m, k)`
    Get,
    /// `has(m, k)`
    Has,
    /// `put(m, k, v)`
    Put,
    /// `del(m, k)`
    Del,
    /// `slen(s)`
    SLen,
    /// `sl(s, a, b)`
    Sl,
    /// `scap(s)`
    SCap,
}

impl Operator {
    /// Whether the two operators are equal, their literals included.
    #[tactic(auto, using(crate::proofs::Places::same_operator))]
    pub fn same(self, other: Operator) -> bool
        ensures { IsTrue result ↔ (self ≡ other) }
    {
        self.place() == other.place() && self.literal() == other.literal()
    }

    /// Says that the number, where the operator is one, is a word.
    pub fn holds_a_word(self)
        ensures { is_word_if_number self ≡ true }
    {
        match self {
            Operator::Number(_n) => (),
            _ => (),
        }
    }

    // The literal, and 0 where there is none.
    fn literal(self) -> u64
        ensures { result ≡ literal_of self }
    {
        match self {
            Operator::Number(k)
            | Operator::Bytes(k)
            | Operator::Words(k)
            | Operator::Refs(k)
            | Operator::Blocks(k) => k,
            _ => 0,
        }
    }

    // The place in the list of operators.
    fn place(self) -> u64
        ensures { result ≡ place_of self }
    {
        match self {
            Operator::Number(_) => 0,
            Operator::True => 1,
            Operator::False => 2,
            Operator::Nil => 3,
            Operator::NilSlice => 4,
            Operator::NoCall => 5,
            Operator::MapWW => 6,
            Operator::MapWB => 7,
            Operator::Not => 8,
            Operator::Complement => 9,
            Operator::Or => 10,
            Operator::And => 11,
            Operator::Equal => 12,
            Operator::Less => 13,
            Operator::AtMost => 14,
            Operator::Plus => 15,
            Operator::Minus => 16,
            Operator::BitOr => 17,
            Operator::BitXor => 18,
            Operator::Times => 19,
            Operator::Divide => 20,
            Operator::Remainder => 21,
            Operator::ShiftLeft => 22,
            Operator::ShiftRight => 23,
            Operator::BitAnd => 24,
            Operator::BitClear => 25,
            Operator::If => 26,
            Operator::Imp => 27,
            Operator::Fits => 28,
            Operator::Bytes(_) => 29,
            Operator::Words(_) => 30,
            Operator::Refs(_) => 31,
            Operator::Blocks(_) => 32,
            Operator::Len => 33,
            Operator::At => 34,
            Operator::Upd => 35,
            Operator::Sub => 36,
            Operator::Cat => 37,
            Operator::IsZero => 38,
            Operator::Le64 => 39,
            Operator::Un64 => 40,
            Operator::Put64 => 41,
            Operator::Get => 42,
            Operator::Has => 43,
            Operator::Put => 44,
            Operator::Del => 45,
            Operator::SLen => 46,
            Operator::Sl => 47,
            Operator::SCap => 48,
        }
    }
}
