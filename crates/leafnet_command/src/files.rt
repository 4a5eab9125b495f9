//! Where files are opened by their names.
ghost use Rattle.std.specs.Prelude.{ℕ, List, ⊤, IfErr, IfOk};
ghost use Rattle.std.specs.declared.io.Error.{Error};

use leafnet_text::source::ReadEnd;
use std::io::Error;
use std::rt::Files;
use std::{fs, io};

/// The files that names stand for: those of std's runtime. Which file is opened, and why none is, is known of it, so that
/// a contract over it can say which file was read and whose failure is told.
pub trait FileSystem {
    type File: ReadEnd + Drop;

    // It opens this file by this name.
    ghost opens: { List ℕ → Self.File → Type 0 };

    // It fails so to open the file of this name.
    ghost fails: { List ℕ → Error → Type 0 };

    fn open_named(&self, name: &str) -> io::Result<Self::File>
        ensures opened { IfOk result (λ file. opens name.now file) }
        ensures failed { IfErr result (λ why. fails name.now why) };
}

impl<F: Files> FileSystem for F {
    type File = F::File;

    // Of no file std says what it is, nor when it can't be opened.
    ghost opens = { λ _ _. ⊤ };

    ghost fails = { λ _ _. ⊤ };

    fn open_named(&self, name: &str) -> io::Result<F::File> {
        fs::open(self, name)
    }
}
