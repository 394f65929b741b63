// The permissions of a folder's files.
ghost use Rattle.std.specs.Prelude.{◌≡◌, bit_and, bit_or};

/// The permissions of a file that holds a payload, from those of its folder: whoever may read the folder may read the
/// file. So the station reads what another user of its group put, whatever that program's `umask`.
pub(crate) fn file_mode(folder: u32) -> u32
    ensures { result ≡ bit_or 0o600 (bit_and folder 0o044) }
{
    0o600 | (folder & 0o044)
}

/// Those of a file that is locked: whoever may change the folder may lock it.
pub(crate) fn lock_mode(folder: u32) -> u32
    ensures { result ≡ bit_or 0o600 (bit_and folder 0o066) }
{
    0o600 | (folder & 0o066)
}

/// Those of a sub-folder: the folder's, with the bit that hands its group on.
pub(crate) fn sub_folder_mode(folder: u32) -> u32
    ensures { result ≡ bit_and folder 0o7777 }
{
    folder & 0o7777
}
