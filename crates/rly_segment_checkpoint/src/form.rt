ghost use Rattle.std.specs.Prelude.{◌≡◌, ◌≤◌, ◌+◌, ◌++◌, ℕ, List, length, vec_len};
ghost use Rattle.std.specs.Vec.{vec_capacity};
ghost use Rattle.rly_record.specs.HelpersReader.{Gives, Reader};
ghost use Rattle.rly_segment_checkpoint.specs.Checkpoint.{inline_form_of, spelled_by};
ghost use Rattle.rly_segment_checkpoint.specs.Forms.{AreForms};
ghost use Rattle.rly_segment_checkpoint.specs.HelpersReader.{inline_at};
ghost use Rattle.rly_segment_checkpoint.specs.declared.head_form.HeadForm.{HeadForm};

use crate::head_form::HeadForm;
use rly_machine::{Content, Payload};
use rly_record::DecodeFault;
use std::alloc::Global;

/// The content of a checkpoint's entry: it has an encoding, its form, which follows its length.
pub trait Form: Content {
    /// The bytes of its form, by the form of the head.
    ghost form: { HeadForm → Self → List ℕ };

    /// The content that has a form.
    ghost has_form: { HeadForm → Self → Type 0 };

    /// The parser of a form, by the length of its content.
    ghost form_at: { HeadForm → ℕ → Reader Self };

    /// Appends its form for a written head, with the capacity already reserved.
    fn append_form(&self, out: &mut Vec<u8>)
        requires fits { has_form HeadForm.Second self.now }
        requires room { vec_len out.old + length (form HeadForm.Second self.now) ≤ vec_capacity out.old }
        ensures items { out.new.items ≡ out.old.items ++ form HeadForm.Second self.now }
        ensures len { vec_len out.new ≡ vec_len out.old + length (form HeadForm.Second self.now) }
        ensures capacity { vec_capacity out.old ≤ vec_capacity out.new };

    /// Reads the form of content of a length, by the form of the head, and returns it and the bytes after it.
    fn read_form(
        alloc: Global,
        head: HeadForm,
        size: u16,
        bytes: &[u8],
    ) -> Result<(Self, &[u8]), DecodeFault>
        ensures { Gives (λ x. (x.0, x.1.now)) result (form_at head size bytes.now) };

    /// Reading inverts writing.
    fn law_forms()
        ensures { (which : HeadForm)
            → AreForms Self.length_of (spelled_by form which) (has_form which) (form_at which) };
}

/// An inline payload: the byte 0, and the bytes.
impl Form for Payload {
    ghost form = { inline_form_of };

    ghost has_form = { λ which payload. Unit {0} };

    ghost form_at = { λ which. inline_at };

    fn append_form(&self, out: &mut Vec<u8>) {
        append(&[0], out);
        append(self.as_slice(), out);
    }

    #[tactic(auto, unfolding(crate::specs::HelpersReader::inline_at))]
    fn read_form(
        alloc: Global,
        head: HeadForm,
        size: u16,
        bytes: &[u8],
    ) -> Result<(Payload, &[u8]), DecodeFault> {
        let [form, rest @ ..] = bytes else {
            return Err(DecodeFault::Malformed);
        };
        let size = usize::from(size);
        if *form != 0 || rest.len() < size {
            return Err(DecodeFault::Malformed);
        }
        let (payload, rest) = rest.split_at(size);
        Ok((Payload::copy_of(alloc, payload)?, rest))
    }

    fn law_forms() {}
}

/// Appends bytes, with the capacity already reserved.
pub(crate) fn append(bytes: &[u8], out: &mut Vec<u8>)
    requires { vec_len out.old + length bytes.now ≤ vec_capacity out.old }
    ensures items { out.new.items ≡ out.old.items ++ bytes.now }
    ensures len { vec_len out.new ≡ vec_len out.old + length bytes.now }
    ensures capacity { vec_capacity out.old ≤ vec_capacity out.new }
{
    out.extend_from_slice(bytes).unwrap();
}
