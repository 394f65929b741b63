ghost use Rattle.std.specs.Prelude.{◌≡◌, ◌<◌, ◌^◌, ◌++◌, ◌∷◌};
ghost use Rattle.byteorder.specs.Endian.{big_bytes};
ghost use Rattle.rly_record.specs.HelpersReader.{Gives};
ghost use Rattle.rly_segment_checkpoint.specs.HelpersStored.{inlined_at, placed_at, stored_at};
ghost use Rattle.rly_segment_checkpoint.specs.Stored.{IsStorable, stored_form_of, stored_length};

use crate::form::{Form, append};
use crate::head_form::HeadForm;
use crate::reader::number_of;
use byteorder::{BigEndian, ByteOrder};
use rly_machine::{Content, Payload};
use rly_record::DecodeFault;
use std::alloc::Global;

/// The device address of a payload: its offset from the device's start, and its length, in bytes.
#[derive(Clone, Copy, Debug, PartialEq, Eq)]
pub struct DeviceAddress {
    /// The offset of its first byte.
    pub start: u64,
    /// Its number of bytes.
    pub length: u16,
}

/// A payload in a head: inline, or by device address. A payload without bytes is always inline.
#[derive(Drop)]
pub enum Stored {
    /// Its bytes.
    Inline(Payload),
    /// The device address of its bytes.
    Placed(DeviceAddress),
}

impl Content for Stored {
    ghost length_of = { stored_length };

    fn len(&self) -> usize {
        match self {
            Stored::Inline(payload) => payload.len(),
            Stored::Placed(place) => usize::from(place.length),
        }
    }
}

impl Form for Stored {
    ghost form = { stored_form_of };

    ghost has_form = { IsStorable };

    ghost form_at = { stored_at };

    fn append_form(&self, out: &mut Vec<u8>) {
        match self {
            Stored::Inline(payload) => payload.append_form(out),
            Stored::Placed(place) => append(&placed_form(*place), out),
        }
    }

    #[tactic(auto, unfolding(crate::specs::HelpersStored::stored_at))]
    fn read_form(
        alloc: Global,
        head: HeadForm,
        size: u16,
        bytes: &[u8],
    ) -> Result<(Stored, &[u8]), DecodeFault> {
        match bytes {
            [1, rest @ ..] => placed_of(head, size, rest),
            [_, ..] => inlined_of(alloc, size, bytes),
            [] => Err(DecodeFault::Malformed),
        }
    }

    fn law_forms() {}
}

/// Reads an inline payload, and returns it and the bytes after it.
#[tactic(auto, unfolding(crate::specs::HelpersStored::inlined_at))]
fn inlined_of(alloc: Global, size: u16, bytes: &[u8]) -> Result<(Stored, &[u8]), DecodeFault>
    ensures { Gives (λ x. (x.0, x.1.now)) result (inlined_at size bytes.now) }
{
    let (payload, rest) = Payload::read_form(alloc, HeadForm::Second, size, bytes)?;
    Ok((Stored::Inline(payload), rest))
}

/// Reads the device address of a payload after the byte of its form, and returns it and the bytes after it.
#[tactic(auto, unfolding(crate::specs::HelpersStored::placed_at))]
fn placed_of(head: HeadForm, size: u16, bytes: &[u8]) -> Result<(Stored, &[u8]), DecodeFault>
    ensures { Gives (λ x. (x.0, x.1.now)) result (placed_at head size bytes.now) }
{
    if size == 0 {
        return Err(DecodeFault::Malformed);
    }
    let (start, rest) = number_of(bytes, head.place_len())?;
    let place = DeviceAddress {
        start,
        length: size,
    };
    Ok((Stored::Placed(place), rest))
}

/// Returns the form of a payload by device address, as it is written.
fn placed_form(place: DeviceAddress) -> [u8; 6]
    requires { place.start < 256 ^ 5 }
    ensures { result ≡ 1 ∷ big_bytes 5 place.start }
{
    let mut bytes = [1; 6];
    BigEndian::write_uint(&mut bytes[1..], place.start, 5);
    bytes
}
