// Who may use a member.
ghost use Rattle.std.specs.Prelude.{◌≡◌};
ghost use Rattle.symbol.specs.Visibility.{visibility_number, visibility_from, ReadsVisibility};

use ty::UnknownNumber;

// The visibilities, in the order of their numbers.
#[derive(Clone, Copy, PartialEq, Eq)]
pub enum Visibility {
    Public,
    Protected,
    Internal,
    Private,
}

impl Visibility {
    // The byte that stands for a visibility.
    pub fn number(self) -> u8
        ensures { result ≡ visibility_number self }
    {
        self as u8
    }

    // The visibility that a record's byte stands for. A byte of none, which no accepted table has, counts as Internal.
    #[tactic(auto, using(crate::proofs::VisibilityBytes::read_so))]
    pub(crate) fn of_byte(byte: u8) -> Visibility
        ensures { result ≡ visibility_from byte }
    {
        Visibility::try_from(byte).unwrap_or(Visibility::Internal)
    }
}

impl TryFrom<u8> for Visibility {
    type Error = UnknownNumber;

    ghost try_from_gives = { ReadsVisibility };

    fn try_from(number: u8) -> Result<Visibility, UnknownNumber> {
        match number {
            0 => Ok(Visibility::Public),
            1 => Ok(Visibility::Protected),
            2 => Ok(Visibility::Internal),
            3 => Ok(Visibility::Private),
            _ => Err(UnknownNumber(number)),
        }
    }
}
