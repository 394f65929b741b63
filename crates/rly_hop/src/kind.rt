ghost use Rattle.std.specs.Prelude.{◌≡◌, false, IfNone, IfSome};
ghost use Rattle.rly_hop.specs.HelpersKinds.{message_kind_byte};
ghost use Rattle.rly_hop.specs.MessageReads.{fixed_length, is_known_kind};

/// The kinds of message.
#[derive(Clone, Copy, PartialEq, Eq)]
pub(crate) enum Kind {
    Data = 1,
    Custody = 2,
    Refused = 3,
    LimitedData = 4,
    Heard = 5,
}

impl Kind {
    /// The kind of a byte: `None` for an unknown one.
    pub(crate) fn from_byte(byte: u8) -> Option<Kind>
        ensures known { IfSome result (λ kind. byte ≡ message_kind_byte kind) }
        ensures unknown { IfNone result (is_known_kind byte ≡ false) }
    {
        match byte {
            1 => Some(Kind::Data),
            2 => Some(Kind::Custody),
            3 => Some(Kind::Refused),
            4 => Some(Kind::LimitedData),
            5 => Some(Kind::Heard),
            _ => None,
        }
    }

    /// The byte of the kind.
    pub(crate) fn byte(self) -> u8
        ensures { result ≡ message_kind_byte self }
    {
        self as u8
    }

    /// The length in bytes of a message of this kind, without a payload.
    pub(crate) fn fixed_length(self) -> usize
        ensures { result ≡ fixed_length (message_kind_byte self) }
    {
        match self {
            Kind::Data => 18,
            Kind::Custody => 16,
            Kind::Refused => 17,
            Kind::LimitedData => 23,
            Kind::Heard => 24,
        }
    }
}
