use std::fmt;
use std::fmt::{Display, Formatter};

/// Why no file of a peer's folder is given, until the station starts anew or a Custody comes; displays as its text in the
/// log.
#[derive(Clone, Copy, PartialEq, Eq)]
pub enum FolderStop {
    /// The numbered files, from the least to the greatest, don't go on from the last number in custody.
    Apart {
        custody: u64,
        least: u64,
        greatest: u64,
    },
    /// The station refuses the file of this number for good, by the refusal of this number.
    File {
        number: u64,
        refusal: u8,
    },
    /// The station refuses for good to tell its last number, by the refusal of this number.
    Question {
        refusal: u8,
    },
}

impl Display for FolderStop {
    ghost use Rattle.std.specs.Prelude.{Some};
    ghost use Rattle.rly_station.specs.Warnings.{stop_text};

    ghost output = { λ stop. Some (stop_text stop) };

    fn fmt<W: fmt::Write>(&self, f: &mut Formatter<W>) -> fmt::Result {
        match self {
            FolderStop::Apart {
                custody,
                least,
                greatest,
            } => write!(
                f,
                "sent has {least} to {greatest}, not from {custody}: mv -n sent/* new"
            ),
            FolderStop::File { number, refusal } => {
                write!(f, "file {number} of sent refused ({refusal})")
            }
            FolderStop::Question { refusal } => write!(f, "last number refused ({refusal})"),
        }
    }
}
