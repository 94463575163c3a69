//! Files by place.

ghost use Rattle.std.specs.Prelude.{◌≡◌, ℕ, List, Option, Some, None, IfSome};

use std::fs;
use std::rt::Files;
use tk_io::{Intake, StdIntake};

/// Files by place, each of which is opened to be read from its first byte on.
///
/// `contents` is the bytes of the file at a place, where they are told.
pub trait FileTree {
    type File: Intake + Drop;

    ghost contents: { Self → List ℕ → Option (List ℕ) };

    /// The file at a place, of which nothing was read yet. None where there is none, or it can't be opened.
    fn open_place(&self, place: &str) -> Option<Self::File>
        ensures { IfSome result (λ file. IfSome (contents self.now place.now) (λ told. Self.File.left file ≡ Some told)) };
}

/// The files of the file system. A place is a path, relative to the working directory. They tell no
/// content: this is the trusted edge.
impl<R: Files> FileTree for R {
    ghost use Rattle.std.specs.Prelude.{None};

    type File = StdIntake<R::File>;

    ghost contents = { λ _ _. None };

    fn open_place(&self, place: &str) -> Option<StdIntake<R::File>> {
        match fs::open(self, place) {
            Ok(file) => Some(StdIntake::make(file)),
            Err(_) => None,
        }
    }
}
