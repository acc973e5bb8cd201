//! Files that were opened, with their paths.

ghost use Rattle.std.specs.Prelude.{◌≡◌, IfOk};
ghost use Rattle.new_enemy.specs.Opened.{IsUnread, file_of, path_of};

use boxcar::tag::{Names, Tag};
use devices::Counted;
use std::fs::{Files, OpenOptions};
use std::{fs, io};

/// A file with what it gave so far, and the path that it was opened by, which contracts alone read. At run time it is
/// just the file.
#[derive(Drop)]
pub struct Opened<F> {
    path: Tag,
    pub file: Counted<F>,
}

struct Path;

impl<'a> Names<&'a str> for Path {
    ghost numbers = { λ p. p.now };
}

/// Makes the file of a path, where there is none. That these lines make that file no clause of std says.
pub fn create<P: Files>(rt: &P, path: &str) -> io::Result<Opened<P::File>>
    ensures path { IfOk result (λ o. path_of o ≡ path.now) }
    ensures unread { IfOk result IsUnread }
{
    let file = OpenOptions::new()
        .write(true)
        .create_new(true)
        .open(rt, path)?;
    Ok(Opened {
        path: Tag::of::<&str, Path>(&path),
        file: Counted::new(file),
    })
}

/// Opens the file of a path. That these lines open that file no clause of std says: they are to be read.
pub fn open<P: Files>(rt: &P, path: &str) -> io::Result<Opened<P::File>>
    ensures path { IfOk result (λ o. path_of o ≡ path.now) }
    ensures unread { IfOk result IsUnread }
{
    let file = Counted::new(fs::open(rt, path)?);
    Ok(Opened {
        path: Tag::of::<&str, Path>(&path),
        file,
    })
}
