//! The names of files: laws, functions with an empty body.

ghost use Rattle.std.specs.Prelude.{◌≡◌, ◌<◌, ◌^◌, List, ℕ};
ghost use Rattle.rly_folder.specs.declared.name.Area.{Area as AnArea};
ghost use Rattle.rly_folder_file.specs.FileNames.{IsFileName, file_name};

/// The name that `FileName` displays is one in which `numbered_in` finds the number and the limit.
pub fn law_name_is_read()
    ensures { (area : AnArea) (number limit : ℕ) → 0 < number → number < 2 ^ 64 → limit < 2 ^ 40
        → IsFileName area number limit (file_name area number limit) }
{}

/// A name is that of one number of an area, and of one limit.
pub fn law_name_has_one_number()
    ensures { (area : AnArea) (one other limit second : ℕ) (name : List ℕ) → IsFileName area one limit name
        → IsFileName area other second name → (one ≡ other) × (limit ≡ second) }
{}
