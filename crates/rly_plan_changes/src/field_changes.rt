//! The values of single keys, and of the far end of a link.

ghost use Rattle.std.specs.Prelude.{◌≡◌, ◌++◌, OnOk, option_copied, string_bytes};
ghost use Rattle.rly_plan_changes.specs.PlanChanges.{at_key, change_line, far_changes, far_numbers, far_texts};
ghost use Rattle.rly_plan_changes.specs.PlanChanges.{number_at, number_change, number_change_at, number_or_none};
ghost use Rattle.rly_plan_changes.specs.PlanChanges.{same_number, same_text, text_at, text_change, text_change_at};
ghost use Rattle.rly_plan_changes.specs.PlanChanges.{text_or_none};

use rly_plan::{FarEnd, KeyPath, PlanKey, Row, Spot};
use std::alloc::AllocError;

/// The location of a key in a table.
pub(crate) fn at_key(row: Row, number: u64, key: PlanKey) -> KeyPath
    ensures { result ≡ at_key row number key }
{
    KeyPath::In(row, number, Spot::At(key))
}

/// Appends the line of a location whose values differ.
pub(crate) fn write_line(
    text: &mut String,
    place: KeyPath,
    old: &str,
    new: &str,
) -> Result<(), AllocError>
    ensures { OnOk result (string_bytes text.new ≡ string_bytes text.old ++ change_line place old.now new.now) }
{
    writeln!(text, "{place}: {old} -> {new}")?;
    Ok(())
}

/// Appends the line of a number, if it differs.
pub(crate) fn write_number(
    text: &mut String,
    place: KeyPath,
    old: Option<u64>,
    new: Option<u64>,
) -> Result<(), AllocError>
    ensures { OnOk result (string_bytes text.new ≡ string_bytes text.old ++ number_change place old new) }
{
    if same_number(old, new) {
        return Ok(());
    }
    write!(text, "{place}: ")?;
    write_number_or_none(text, old)?;
    write!(text, " -> ")?;
    write_number_or_none(text, new)?;
    writeln!(text)?;
    Ok(())
}

fn write_number_or_none(text: &mut String, number: Option<u64>) -> Result<(), AllocError>
    ensures { OnOk result (string_bytes text.new ≡ string_bytes text.old ++ number_or_none number) }
{
    match number {
        Some(number) => write!(text, "{number}")?,
        None => write!(text, "none")?,
    }
    Ok(())
}

fn same_number(old: Option<u64>, new: Option<u64>) -> bool
    ensures { result ≡ same_number old new }
{
    match (old, new) {
        (None, None) => true,
        (Some(old), Some(new)) => old == new,
        _ => false,
    }
}

/// Appends the changes of the far end of a link.
pub(crate) fn write_far_end(
    text: &mut String,
    row: Row,
    number: u64,
    old: &FarEnd,
    new: &FarEnd,
) -> Result<(), AllocError>
    ensures { OnOk result (string_bytes text.new ≡ string_bytes text.old ++ far_changes row number old.now new.now) }
{
    write_texts(text, row, number, old, new)?;
    write_numbers(text, row, number, old, new)
}

fn write_texts(
    text: &mut String,
    row: Row,
    number: u64,
    old: &FarEnd,
    new: &FarEnd,
) -> Result<(), AllocError>
    ensures { OnOk result (string_bytes text.new ≡ string_bytes text.old ++ far_texts row number old.now new.now) }
{
    write_text_at(text, row, number, old, new, PlanKey::Listen)?;
    write_text_at(text, row, number, old, new, PlanKey::Remote)?;
    write_text_at(text, row, number, old, new, PlanKey::Key)?;
    write_text_at(text, row, number, old, new, PlanKey::Folder)?;
    Ok(())
}

fn write_text_at(
    text: &mut String,
    row: Row,
    number: u64,
    old: &FarEnd,
    new: &FarEnd,
    key: PlanKey,
) -> Result<(), AllocError>
    ensures { OnOk result
        (string_bytes text.new ≡ string_bytes text.old ++ text_change_at row number old.now new.now key) }
{
    let (old, new) = (text_at(old, key), text_at(new, key));
    if same_text(old, new) {
        return Ok(());
    }
    let place = at_key(row, number, key);
    write_line(text, place, old.unwrap_or("none"), new.unwrap_or("none"))
}

/// The text at a key of a far end.
fn text_at(far: &FarEnd, key: PlanKey) -> Option<&str>
    ensures { option_copied result ≡ text_at far.now key }
{
    match (far, key) {
        (FarEnd::Socket(socket), PlanKey::Listen) => Some(socket.addresses.listen()),
        (FarEnd::Socket(socket), PlanKey::Remote) => Some(socket.addresses.remote()),
        (FarEnd::Socket(socket), PlanKey::Key) => match &socket.key {
            Some(key) => Some(key.path()),
            None => None,
        },
        (FarEnd::Folder(folder), PlanKey::Folder) => Some(folder.path.path()),
        _ => None,
    }
}

fn same_text(old: Option<&str>, new: Option<&str>) -> bool
    ensures { result ≡ same_text (option_copied old.entry) (option_copied new.entry) }
{
    match (old, new) {
        (None, None) => true,
        (Some(old), Some(new)) => old == new,
        _ => false,
    }
}

fn write_numbers(
    text: &mut String,
    row: Row,
    number: u64,
    old: &FarEnd,
    new: &FarEnd,
) -> Result<(), AllocError>
    ensures { OnOk result (string_bytes text.new ≡ string_bytes text.old ++ far_numbers row number old.now new.now) }
{
    write_number_at(text, row, number, old, new, PlanKey::Destination)?;
    write_number_at(text, row, number, old, new, PlanKey::Limit)?;
    write_number_at(text, row, number, old, new, PlanKey::Most)
}

fn write_number_at(
    text: &mut String,
    row: Row,
    number: u64,
    old: &FarEnd,
    new: &FarEnd,
    key: PlanKey,
) -> Result<(), AllocError>
    ensures { OnOk result
        (string_bytes text.new ≡ string_bytes text.old ++ number_change_at row number old.now new.now key) }
{
    write_number(
        text,
        at_key(row, number, key),
        number_at(old, key),
        number_at(new, key),
    )
}

/// The number at a key of a far end.
fn number_at(far: &FarEnd, key: PlanKey) -> Option<u64>
    ensures { result ≡ number_at far.now key }
{
    match (far, key) {
        (FarEnd::Folder(folder), PlanKey::Destination) => match folder.destination {
            Some(destination) => Some(u64::from(destination)),
            None => None,
        },
        (FarEnd::Folder(folder), PlanKey::Limit) => wide(folder.limit),
        (FarEnd::Folder(folder), PlanKey::Most) => Some(u64::from(folder.most)),
        _ => None,
    }
}

/// A number that may be there, in 64 bits.
pub(crate) fn wide(number: Option<u32>) -> Option<u64>
    ensures { result ≡ number }
{
    match number {
        Some(number) => Some(u64::from(number)),
        None => None,
    }
}
