// The outgoing half of a folder that plays a neighbour.
ghost use Rattle.std.specs.Prelude.{◌≡◌, ◌≢◌, ◌<◌, ◌+◌, ◌^◌, IfErr, IfOk, OnErr, nat_lt};
ghost use Rattle.rly_folder.specs.FolderModel.{file_with};
ghost use Rattle.rly_link_folder.specs.OutboxCalls.{FailsToList, FailsToOpen, Opens};

use crate::calls::{hand_out, recover, room_in};
use rly_core::Refusal;
use rly_folder::{Folder, FolderFault};
use rly_hop::TakeAnswer;

/// Plays the neighbour station of a hop: the Data of the hop become files of the folder. Its answers are those to the
/// Takes of a receiving core (`rly_hop::Receiving`), which makes the messages of them.
#[derive(Drop)]
pub struct Outbox<F> {
    folder: F,
    greatest: u64,
    most: u64,
    /// The number of files that may be added before the folder is listed again. Other programs only remove files.
    spare: u64,
}

impl<F: Folder> Outbox<F> {
    ghost use Rattle.rly_link_folder.specs.Outbox.{FindsRoom, Takes, folder_of, greatest_after, greatest_of, most_of, spare_of};

    /// Opens a folder to which no more files are added while it has `most`. Returns the folder if a call failed.
    pub fn open(folder: F, most: u64) -> Result<Self, F>
        ensures opens { IfOk result (λ outbox. Opens F.state (greatest_of outbox) folder (folder_of outbox)) }
        ensures most { IfOk result (λ outbox. (most_of outbox ≡ most) × (spare_of outbox ≡ 0)) }
        ensures fails { IfErr result (λ left. FailsToOpen F.state folder left) }
    {
        let mut folder = folder;
        match recover(&mut folder) {
            Ok(greatest) => Ok(Outbox {
                folder,
                greatest,
                most,
                spare: 0,
            }),
            Err(_) => Err(folder),
        }
    }

    /// Handles the Data of this number: the next one becomes a file with its age limit in microseconds, and is answered
    /// `Taken` once both it and its number are durable; `Refused(Full)` if there are `most` files; `Other`, which sends
    /// nothing, if a call failed. The same Data may come again after each of these. Any other Data is answered by the
    /// greatest number.
    pub fn take(&mut self, number: u64, limit: u64, payload: &[u8]) -> TakeAnswer
        requires { limit < 2 ^ 40 }
        ensures next { number ≡ greatest_of self.old + 1
            → Takes F.state (most_of self.old) (spare_of self.old) (spare_of self.new) (greatest_of self.old) number
            (file_with payload.now limit) result (folder_of self.old) (folder_of self.new) }
        ensures other { number ≢ greatest_of self.old + 1 → result ≡ TakeAnswer.Already (greatest_of self.old) }
        ensures untouched { number ≢ greatest_of self.old + 1 → self.new ≡ self.old }
        ensures greatest { greatest_of self.new ≡ greatest_after (greatest_of self.old) number result }
        ensures most { most_of self.new ≡ most_of self.old }
    {
        if self.greatest.checked_add(1) != Some(number) {
            return TakeAnswer::Already(self.greatest);
        }
        match room_in(&mut self.folder, self.most, self.spare) {
            Ok(0) => TakeAnswer::Refused(Refusal::Full),
            Ok(room) => match hand_out(&mut self.folder, self.greatest, number, limit, payload) {
                Ok(()) => {
                    self.greatest = number;
                    self.spare = room - 1;
                    TakeAnswer::Taken
                }
                // The file may be there, or not.
                Err(_) => {
                    self.spare = 0;
                    TakeAnswer::Other
                }
            },
            Err(_) => TakeAnswer::Other,
        }
    }

    /// Returns the greatest number of which custody was answered.
    pub fn greatest(&self) -> u64
        ensures { result ≡ greatest_of self.now }
    {
        self.greatest
    }

    /// Returns whether a file can be added now: the folder has fewer than `most`.
    pub fn has_room(&mut self) -> Result<bool, FolderFault>
        ensures ok { IfOk result (λ room. (room ≡ nat_lt 0 (spare_of self.new)) × FindsRoom F.state self.old self.new) }
        ensures err { OnErr result (FailsToList F.state (spare_of self.old) (folder_of self.old) (folder_of self.new)
            × (spare_of self.new ≡ 0)) }
        ensures greatest { greatest_of self.new ≡ greatest_of self.old }
        ensures most { most_of self.new ≡ most_of self.old }
    {
        self.spare = room_in(&mut self.folder, self.most, self.spare)?;
        Ok(self.spare > 0)
    }

    /// Returns the folder, for a report.
    pub(crate) fn folder(&self) -> &F
        ensures { result.now ≡ folder_of self.now }
    {
        &self.folder
    }

    /// Returns the folder.
    pub fn into_folder(self) -> F
        ensures { result ≡ folder_of self }
    {
        let Outbox {
            folder,
            greatest: _,
            most: _,
            spare: _,
        } = self;
        folder
    }
}
