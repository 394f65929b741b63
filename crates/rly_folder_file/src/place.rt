// The places of a folder's files in the file system.
ghost use Rattle.std.specs.Prelude.{◌≡◌, ◌≢◌, ◌<◌, ◌++◌, ◌^◌, IfSome, List, None, drop, ℕ};
ghost use Rattle.std.specs.Char.{is_ascii_digit};
ghost use Rattle.std.specs.List.{list_all};
ghost use Rattle.rly_folder_file.specs.FileNames.{IsFileName, IsLimit, are_twenty_digits, prefix_of, sub_folder_name};
ghost use Rattle.rly_folder_file.specs.FileNames.{sub_folder_of, suffix_of, value_in};

use rly_folder::{Area, Name};
use std::fmt::{Display, Formatter, Result, Write};
use std::str;

/// The folders inside a folder.
#[derive(Clone, Copy, Debug, PartialEq, Eq, Drop)]
pub enum SubFolder {
    New,
    Sent,
    Refused,
    Out,
}

impl SubFolder {
    /// All of them, in the order of their syncs: files leave `new`, which is last.
    pub const ALL: [SubFolder; 4] = [
        SubFolder::Sent,
        SubFolder::Refused,
        SubFolder::Out,
        SubFolder::New,
    ];

    /// Its name.
    pub fn name(self) -> &'static str
        ensures { result.now ≡ sub_folder_name self }
    {
        match self {
            SubFolder::New => "new",
            SubFolder::Sent => "sent",
            SubFolder::Refused => "refused",
            SubFolder::Out => "out",
        }
    }

    /// The one with the files of an area.
    pub fn of(area: Area) -> SubFolder
        ensures { result ≡ sub_folder_of area }
    {
        match area {
            Area::New => SubFolder::New,
            Area::Sent => SubFolder::Sent,
            Area::NoRoute | Area::TooLong | Area::TooShort => SubFolder::Refused,
            Area::Out | Area::Kept | Area::Printed => SubFolder::Out,
        }
    }

    /// The areas whose files are in it and not hidden.
    pub(crate) fn areas(self) -> &'static [Area] {
        match self {
            SubFolder::New => &[Area::New],
            SubFolder::Sent => &[Area::Sent],
            SubFolder::Refused => &[Area::NoRoute, Area::TooLong, Area::TooShort],
            SubFolder::Out => &[Area::Out],
        }
    }
}

impl Display for SubFolder {
    ghost use Rattle.std.specs.Prelude.{Some};
    ghost use Rattle.rly_folder_file.specs.FileNames.{sub_folder_name};

    ghost output = { λ sub. Some (sub_folder_name sub) };

    fn fmt<W: Write>(&self, formatter: &mut Formatter<W>) -> Result {
        formatter.write_str(self.name())
    }
}

/// The text before an area's numbers.
fn prefix(area: Area) -> &'static str
    ensures { result.now ≡ prefix_of area }
{
    match area {
        Area::Kept => ".greatest-",
        Area::Printed => ".printed-",
        Area::New | Area::Sent | Area::Out => "",
        Area::NoRoute | Area::TooLong | Area::TooShort => "",
    }
}

/// The text at the end of an area's names: why a file was refused.
fn suffix(area: Area) -> &'static str
    ensures { result.now ≡ suffix_of area }
{
    match area {
        Area::NoRoute => ".no-route",
        Area::TooLong => ".too-long",
        Area::TooShort => ".too-short",
        Area::New | Area::Sent | Area::Out => "",
        Area::Kept | Area::Printed => "",
    }
}

/// The digits of a number in a file's name.
const DIGITS: usize = 20;

/// The text before a limit.
const LIMIT: &str = ".limit-";

/// The first limit that is too long, in microseconds: 2^40.
const AGE_LIMIT: u64 = 1_099_511_627_776;

/// The number of a file, and its age limit in microseconds, which is below 2^40; 0 = none.
#[derive(Clone, Copy, Debug, PartialEq, Eq, Drop)]
pub struct Numbered {
    pub number: u64,
    pub limit: u64,
    ghost limit_fits: { limit < 2 ^ 40 },
}

/// Returns the number and the limit of the file of an area that has this name, if one can have it. No file has the
/// number 0.
pub fn numbered_in(area: Area, name: &str) -> Option<Numbered>
    ensures some { IfSome result (λ found. IsFileName area found.number found.limit name.now) }
    ensures none { result ≡ None → (number limit : ℕ) → ¬ IsFileName area number limit name.now }
{
    let middle = middle_in(area, name.as_bytes())?;
    if middle.len() < DIGITS {
        return None;
    }
    let number = value_in(&middle[..DIGITS])?;
    let limit = limit_in(&middle[DIGITS..])?;
    if number > 0 {
        Some(Numbered { number, limit })
    } else {
        None
    }
}

/// Returns the part of a name in which the number of a file of an area stands, and its limit.
fn middle_in(area: Area, name: &[u8]) -> Option<&[u8]>
    ensures some { IfSome result (λ middle. name.now ≡ prefix_of area ++ (middle.now ++ suffix_of area)) }
    ensures none { result ≡ None → (middle : List ℕ) → name.now ≢ prefix_of area ++ (middle ++ suffix_of area) }
{
    let rest = name.strip_prefix(prefix(area).as_bytes())?;
    rest.strip_suffix(suffix(area).as_bytes())
}

/// Returns the limit that the text after a number stands for: none if there is no text.
fn limit_in(text: &[u8]) -> Option<u64>
    ensures some { IfSome result (λ limit. IsLimit limit text.now) }
    ensures fits { IfSome result (λ limit. limit < 2 ^ 40) }
    ensures none { result ≡ None → (limit : ℕ) → ¬ IsLimit limit text.now }
{
    if text.is_empty() {
        return Some(0);
    }
    let digits = text.strip_prefix(LIMIT.as_bytes())?;
    let limit = value_in(digits)?;
    if limit > 0 && limit < AGE_LIMIT {
        Some(limit)
    } else {
        None
    }
}

/// Returns the value of some digits, if there are 20 and it has 64 bits.
fn value_in(digits: &[u8]) -> Option<u64>
    ensures { result ≡ value_in digits.now }
{
    if !are_twenty_digits(digits) {
        return None;
    }
    let text = str::from_utf8(digits).ok()?;
    text.parse::<u64>().ok()
}

/// Returns true iff there are 20 bytes, and each is a decimal digit.
fn are_twenty_digits(bytes: &[u8]) -> bool
    ensures { result ≡ are_twenty_digits bytes.now }
{
    bytes.len() == DIGITS && have_digits_alone(bytes)
}

/// Returns true iff each byte is a decimal digit.
fn have_digits_alone(bytes: &[u8]) -> bool
    ensures { result ≡ list_all is_ascii_digit bytes.now }
{
    bytes.iter().all(|byte| byte.is_ascii_digit())
}

/// The name of a file in its sub-folder: that of its number, and of its limit if it has one.
#[derive(Clone, Copy, Debug, PartialEq, Eq, Drop)]
pub struct FileName {
    pub name: Name,
    /// In microseconds; 0 = none.
    pub limit: u64,
}

impl Display for FileName {
    ghost use Rattle.std.specs.Prelude.{Some};
    ghost use Rattle.rly_folder_file.specs.FileNames.{file_name};

    ghost output = { λ file. Some (file_name file.name.area file.name.number file.limit) };

    fn fmt<W: Write>(&self, formatter: &mut Formatter<W>) -> Result {
        let Name { area, number } = self.name;
        let (front, digits) = (prefix(area), Digits(number));
        let (limit, back) = (LimitText(self.limit), suffix(area));
        write!(formatter, "{front}{digits}{limit}{back}")
    }
}

/// A limit in a file's name.
#[derive(Clone, Copy, Drop)]
struct LimitText(u64);

impl Display for LimitText {
    ghost use Rattle.std.specs.Prelude.{Some};
    ghost use Rattle.rly_folder_file.specs.FileNames.{limit_text};

    ghost output = { λ text. Some (limit_text text.0) };

    fn fmt<W: Write>(&self, formatter: &mut Formatter<W>) -> Result {
        if self.0 == 0 {
            return Ok(());
        }
        write!(formatter, ".limit-{}", Digits(self.0))
    }
}

/// A number in 20 digits.
#[derive(Clone, Copy, Drop)]
struct Digits(u64);

impl Display for Digits {
    ghost use Rattle.std.specs.Prelude.{Some};
    ghost use Rattle.rly_folder_file.specs.FileNames.{twenty_digits};

    ghost output = { λ digits. Some (twenty_digits digits.0) };

    #[tactic(auto, using(crate::proofs::FileNames::padded))]
    fn fmt<W: Write>(&self, formatter: &mut Formatter<W>) -> Result {
        write!(formatter, "{:020}", self.0)
    }
}

/// A place in a folder; displays as the path from the folder on.
#[derive(Clone, Copy, Debug, PartialEq, Eq, Drop)]
pub enum Place {
    /// The folder itself.
    Folder,
    Sub(SubFolder),
    File(FileName),
    /// The hidden file of the program that uses the folder.
    Hidden,
    /// A file of no bytes that is there while a hard link is tried.
    Trial,
    /// The name that it gets.
    TrialLink,
    /// The file that is locked.
    Lock,
}

impl Display for Place {
    ghost use Rattle.std.specs.Prelude.{Some};
    ghost use Rattle.rly_folder_file.specs.FileNames.{place_text};

    ghost output = { λ place. Some (place_text place) };

    fn fmt<W: Write>(&self, formatter: &mut Formatter<W>) -> Result {
        match self {
            Place::Folder => formatter.write_str("."),
            Place::Sub(sub) => write!(formatter, "{sub}"),
            Place::File(file) => {
                let sub = SubFolder::of(file.name.area);
                write!(formatter, "{sub}/{file}")
            }
            Place::Hidden => formatter.write_str("hidden file"),
            Place::Trial => formatter.write_str("trial of a hard link"),
            Place::TrialLink => formatter.write_str("hard link on trial"),
            Place::Lock => formatter.write_str("lock"),
        }
    }
}
