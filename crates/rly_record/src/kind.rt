ghost use Rattle.std.specs.Prelude.{◌≡◌, ◌==◌, ◌||◌, false, IfNone, IfSome};
ghost use Rattle.rly_record.specs.HelpersKinds.{record_kind_byte};

/// The kinds of record, by the first byte of a record.
#[derive(Clone, Copy, PartialEq, Eq)]
pub(crate) enum Kind {
    Take = 1,
    Pick = 2,
    Release = 3,
    LimitedTake = 5,
}

impl Kind {
    /// Returns the kind with this byte, if there is one.
    pub(crate) fn from_byte(byte: u8) -> Option<Kind>
        ensures known { IfSome result (λ kind. byte ≡ record_kind_byte kind) }
        ensures unknown { IfNone result (((byte == 1) || (byte == 2) || (byte == 3) || (byte == 5)) ≡ false) }
    {
        match byte {
            1 => Some(Kind::Take),
            2 => Some(Kind::Pick),
            3 => Some(Kind::Release),
            5 => Some(Kind::LimitedTake),
            _ => None,
        }
    }

    /// Returns the byte of the kind.
    pub(crate) fn byte(self) -> u8
        ensures { result ≡ record_kind_byte self }
    {
        self as u8
    }
}
