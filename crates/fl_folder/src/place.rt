//! What is at a path of a folder.
ghost use Rattle.std.specs.Prelude.{◌≡◌, true, None, Some};
ghost use Rattle.fl_folder.specs.Usable.{are_usable};

use sqlite::Files;
use sqlite_disk::Memory;

/// The files at a path, and none while they are open.
#[derive(Drop)]
pub struct Place {
    files: Option<Files<Memory>>,
    ghost usable: { are_usable files ≡ true },
}

impl Place {
    /// The files are open.
    pub fn opened() -> Place
        ensures { result.files ≡ None }
    {
        Place { files: None }
    }

    /// These files, which are not open.
    pub fn closed(files: Files<Memory>) -> Place
        requires { are_usable (Some files) ≡ true }
        ensures { result.files ≡ Some files }
    {
        Place { files: Some(files) }
    }

    /// The files, where they are not open.
    pub fn into_files(self) -> Option<Files<Memory>>
        ensures same { result ≡ self.files }
        ensures usable { are_usable result ≡ true }
    {
        self.files
    }
}
