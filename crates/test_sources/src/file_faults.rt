//! The shelf of files over a file in memory, whose reads fail in turn.

use file_source::{FileShelf, FileTree};
use source_api::{FailKind, Shelf, Source, Trouble};
use std::alloc::Global;
use test_support::wrong_rows;
use tk_io::MemIntake;

/// One list file, at the place `a`: it is read in pieces of 5 bytes, and the reads of these numbers fail.
#[derive(Drop)]
struct OneFile {
    alloc: Global,
    text: &'static [u8],
    fails: &'static [u64],
}

/// Its bytes: two rows.
const TEXT: &[u8] = b"1,900\n2,800\n";

impl FileTree for OneFile {
    ghost use Rattle.std.specs.Prelude.{Some};

    type File = MemIntake;

    ghost contents = { λ f _. Some f.text.now };

    fn open_place(&self, place: &str) -> Option<MemIntake> {
        if place != "a" {
            return None;
        }
        MemIntake::make(self.alloc, self.text, 5, self.fails).ok()
    }
}

/// How many bytes the text of a place has, and how many rows its source.
type Came = (Result<usize, Trouble>, Result<usize, Trouble>);

const WHOLE: Came = (Ok(12), Ok(2));

const FAILS: Came = (
    Err(Trouble::Fail(FailKind::Failed)),
    Err(Trouble::Fail(FailKind::Failed)),
);

/// A label, the numbers of the reads that fail and the place, and what comes.
type Read = (&'static str, (&'static [u64], &'static str), Came);

static READS: &[Read] = &[
    ("no read fails", (&[], "a"), WHOLE),
    ("another place", (&[], "b"), FAILS),
    ("the first read fails", (&[1], "a"), FAILS),
    ("the second fails", (&[2], "a"), FAILS),
    ("the third fails", (&[3], "a"), FAILS),
    (
        "the fourth fails, which would find the end",
        (&[4], "a"),
        FAILS,
    ),
    ("the fifth would fail", (&[5], "a"), WHOLE),
];

/// How many bytes the text of a place has.
fn text_at<F: FileTree>(
    alloc: Global,
    shelf: &mut FileShelf<'_, F>,
    place: &str,
) -> Result<usize, Trouble> {
    match shelf.text(alloc, place) {
        Ok(text) => Ok(text.len()),
        Err(trouble) => Err(trouble),
    }
}

/// How many rows the source of a place has.
fn rows_at<F: FileTree>(
    alloc: Global,
    shelf: &mut FileShelf<'_, F>,
    place: &str,
) -> Result<usize, Trouble> {
    let mut source = shelf.take(alloc, place)?;
    let rows = match source.page(alloc, 0, 5) {
        Ok(page) => Ok(page.len()),
        Err(trouble) => Err(trouble),
    };
    shelf.put_back(place, source);
    rows
}

/// What comes of a place of a shelf over these files.
fn came_over<F: FileTree>(alloc: Global, files: &F, place: &str) -> Came {
    let mut shelf = FileShelf::make(alloc, files);
    let text = text_at(alloc, &mut shelf, place);
    let rows = rows_at(alloc, &mut shelf, place);
    drop(shelf);
    (text, rows)
}

/// What comes of the place over a file of which these reads fail.
fn came_of(alloc: Global, given: &(&'static [u64], &'static str)) -> Came {
    let (fails, place) = *given;
    let file = OneFile {
        alloc,
        text: TEXT,
        fails,
    };
    came_over(alloc, &file, place)
}

#[test]
fn gives_a_whole_file_or_none(rt: HostRuntime) {
    assert_eq!(rt; wrong_rows(&rt, rt.alloc(), READS, came_of), 0);
}
