// What the next screens are awaited for: a transfer and its countdown.
// RULES 5.2; Rust: `PendingTransfer`, `update_screen`.
ghost use Rattle.std.specs.Prelude.{◌≡◌};
ghost use Rattle.transfer.specs.Pending.{number_of, NamedBy, pending_of, countdown_of, kind_of, fallen, lands};

#[derive(Clone, Copy, Debug, PartialEq, Eq)]
pub enum Transfer {
    Palettes,
    Attributes,
    // CHR_TRN delivers half of the border's tiles at a time
    BorderTiles { upper_half: bool },
    BorderMap,
}

// Stays: the enum with the transfer inside is a form that was asked for (docs/DECISIONS.md).
#[derive(Clone, Copy, Debug, PartialEq, Eq)]
pub enum Pending {
    Nothing,
    In { countdown: u8, transfer: Transfer },
}

// A number that names no kind.
#[derive(Clone, Copy, Debug, PartialEq, Eq)]
pub struct UnknownKind(pub u8);

impl Transfer {
    // Byte 11 of the block.
    // Stays: docs/PROOFS.md has its contract by this name.
    #[tactic(auto, unfolding(crate::specs::Pending::number_of))]
    pub fn number(self) -> u8
        ensures { result ≡ number_of self }
    {
        match self {
            Transfer::Palettes => 0,
            Transfer::Attributes => 1,
            Transfer::BorderTiles { upper_half: false } => 2,
            Transfer::BorderTiles { upper_half: true } => 3,
            Transfer::BorderMap => 4,
        }
    }
}

// The kind that a number names.
impl TryFrom<u8> for Transfer {
    type Error = UnknownKind;

    ghost try_from_gives = { NamedBy };

    #[tactic(auto, unfolding(crate::specs::Pending::number_of))]
    fn try_from(number: u8) -> Result<Transfer, UnknownKind> {
        match number {
            0 => Ok(Transfer::Palettes),
            1 => Ok(Transfer::Attributes),
            2 => Ok(Transfer::BorderTiles { upper_half: false }),
            3 => Ok(Transfer::BorderTiles { upper_half: true }),
            4 => Ok(Transfer::BorderMap),
            _ => Err(UnknownKind(number)),
        }
    }
}

impl Pending {
    // From bytes 10 and 11 of the block. No countdown, or a number that names no kind, is nothing.
    // Stays: of two bytes, where `From` takes one value.
    #[tactic(auto, unfolding(crate::specs::Pending::pending_of))]
    pub fn load(countdown: u8, kind: u8) -> Pending
        ensures { result ≡ pending_of countdown kind }
    {
        match Transfer::try_from(kind) {
            Ok(transfer) if countdown > 0 => Pending::In {
                countdown,
                transfer,
            },
            _ => Pending::Nothing,
        }
    }

    // Byte 10 of the block.
    #[tactic(auto, unfolding(crate::specs::Pending::countdown_of))]
    pub fn countdown(self) -> u8
        ensures { result ≡ countdown_of self }
    {
        match self {
            Pending::Nothing => 0,
            Pending::In { countdown, .. } => countdown,
        }
    }

    // Byte 11 of the block.
    #[tactic(auto, unfolding(crate::specs::Pending::kind_of))]
    pub fn kind(self) -> u8
        ensures { result ≡ kind_of self }
    {
        match self {
            Pending::Nothing => 0,
            Pending::In { transfer, .. } => transfer.number(),
        }
    }

    // What is left pending after a screen.
    #[tactic(auto, unfolding(crate::specs::Pending::fallen))]
    pub fn fall(self) -> Pending
        ensures { result ≡ fallen self }
    {
        match self {
            Pending::In {
                countdown,
                transfer,
            } if countdown > 1 => Pending::In {
                countdown: countdown - 1,
                transfer,
            },
            _ => Pending::Nothing,
        }
    }

    // What that screen makes land.
    #[tactic(auto, unfolding(crate::specs::Pending::lands))]
    pub fn lands(self) -> Option<Transfer>
        ensures { result ≡ lands self }
    {
        match self {
            Pending::In {
                countdown,
                transfer,
            } if countdown <= 1 => Some(transfer),
            _ => None,
        }
    }
}
