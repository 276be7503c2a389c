// The operators of binary and of unary nodes, by the numbers that stand for them.
ghost use Rattle.std.specs.Prelude.{◌≡◌};
ghost use Rattle.question.specs.OperatorNumber.{binary_number, ReadsBinary, ReadsUnary};

use ty::UnknownNumber;

#[derive(Clone, Copy, PartialEq, Eq)]
pub enum BinOp {
    Add,
    Sub,
    Mul,
    Div,
    Mod,
    Eq,
    Ne,
    Lt,
    Gt,
    Le,
    Ge,
    And,
    Or,
    BitAnd,
    BitOr,
    BitXor,
    Shl,
    Shr,
    UShr,
    Assign,
    To,
    Is,
    As,
}

#[derive(Clone, Copy, PartialEq, Eq)]
pub enum UnOp {
    Minus,
    Not,
    Increment,
    Decrement,
    AddrOf,
    Dereference,
    NotNull,
}

impl BinOp {
    // The byte that stands for an operator.
    #[tactic(auto, unfolding(crate::specs::OperatorNumber::binary_number))]
    pub fn number(self) -> u8
        ensures { result ≡ binary_number self }
    {
        self as u8
    }
}

impl TryFrom<u8> for BinOp {
    type Error = UnknownNumber;

    ghost try_from_gives = { ReadsBinary };

    #[tactic(auto, unfolding(crate::specs::OperatorNumber::binary_number))]
    fn try_from(number: u8) -> Result<BinOp, UnknownNumber> {
        match number {
            0 => Ok(BinOp::Add),
            1 => Ok(BinOp::Sub),
            2 => Ok(BinOp::Mul),
            3 => Ok(BinOp::Div),
            4 => Ok(BinOp::Mod),
            5 => Ok(BinOp::Eq),
            6 => Ok(BinOp::Ne),
            7 => Ok(BinOp::Lt),
            8 => Ok(BinOp::Gt),
            9 => Ok(BinOp::Le),
            10 => Ok(BinOp::Ge),
            11 => Ok(BinOp::And),
            12 => Ok(BinOp::Or),
            13 => Ok(BinOp::BitAnd),
            14 => Ok(BinOp::BitOr),
            15 => Ok(BinOp::BitXor),
            16 => Ok(BinOp::Shl),
            17 => Ok(BinOp::Shr),
            18 => Ok(BinOp::UShr),
            19 => Ok(BinOp::Assign),
            20 => Ok(BinOp::To),
            21 => Ok(BinOp::Is),
            22 => Ok(BinOp::As),
            _ => Err(UnknownNumber(number)),
        }
    }
}

impl TryFrom<u8> for UnOp {
    type Error = UnknownNumber;

    ghost try_from_gives = { ReadsUnary };

    #[tactic(auto, unfolding(crate::specs::OperatorNumber::unary_number))]
    fn try_from(number: u8) -> Result<UnOp, UnknownNumber> {
        match number {
            0 => Ok(UnOp::Minus),
            1 => Ok(UnOp::Not),
            2 => Ok(UnOp::Increment),
            3 => Ok(UnOp::Decrement),
            4 => Ok(UnOp::AddrOf),
            5 => Ok(UnOp::Dereference),
            6 => Ok(UnOp::NotNull),
            _ => Err(UnknownNumber(number)),
        }
    }
}
