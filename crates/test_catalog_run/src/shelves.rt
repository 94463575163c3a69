//! The sections that `make` writes, as list files, and their rows on a shelf in memory.

use file_source::FileSource;
use source_api::Source;
use std::alloc::Global;
use test_mem_source::{MemShelf, MemSource};
use topk_base::first_line;

/// The places of the lists.
pub const PLACES: &[&str] = &["l1.csv", "l2.csv", "l3.csv", "l4.csv"];

/// What follows so many lines.
fn after_lines(text: &[u8], count: u32) -> Option<&[u8]> {
    let mut rest = text;
    for _ in 0..count {
        match first_line(rest) {
            Some((_, more)) => rest = more,
            None => return None,
        }
    }
    Some(rest)
}

/// The lines of a section that has so many rows, without its head, and what follows the section.
fn section_of(text: &[u8], count: u32) -> Option<(&[u8], &[u8])> {
    let Some((_, rows)) = first_line(text) else {
        return None;
    };
    let Some(rest) = after_lines(rows, count) else {
        return None;
    };
    match rows.get(..rows.len().saturating_sub(rest.len())) {
        Some(lines) => Some((lines, rest)),
        None => None,
    }
}

/// A source in memory of the rows of a list file.
fn source_in(alloc: Global, lines: &[u8], count: u32) -> Option<MemSource> {
    let Ok(mut file) = FileSource::open(alloc, lines) else {
        return None;
    };
    let rows = file.page(alloc, 0, count.max(1));
    drop(file);
    let Ok(rows) = rows else {
        return None;
    };
    let source = MemSource::make(alloc, &rows);
    drop(rows);
    source.ok()
}

/// Puts the rows of a list file on the shelf. False where it is none, or without memory.
fn put_list(alloc: Global, shelf: &mut MemShelf, place: &str, lines: &[u8], count: u32) -> bool {
    match source_in(alloc, lines, count) {
        Some(source) => shelf.add_source(place, source).is_ok(),
        None => false,
    }
}

/// Puts the rows of a section on the shelf. What follows the section.
fn put_section<'t>(
    alloc: Global,
    shelf: &mut MemShelf,
    place: &str,
    text: &'t [u8],
    count: u32,
) -> Option<&'t [u8]> {
    match section_of(text, count) {
        Some((lines, rest)) if put_list(alloc, shelf, place, lines, count) => Some(rest),
        _ => None,
    }
}

/// Puts the rows of each section on the shelf. False where the text isn't these sections, or without memory.
fn put_sections(alloc: Global, shelf: &mut MemShelf, text: &[u8], lists: u8, count: u32) -> bool {
    let mut rest = text;
    for place in PLACES.iter().take(usize::from(lists)) {
        match put_section(alloc, shelf, *place, rest, count) {
            Some(more) => rest = more,
            None => return false,
        }
    }
    true
}

/// A shelf with the rows of each section of a text, all of which have so many. None where the text isn't these sections, or there is
/// no memory.
pub fn shelf_of(alloc: Global, text: &[u8], lists: u8, count: u32) -> Option<MemShelf> {
    let mut shelf = MemShelf::make(alloc);
    if put_sections(alloc, &mut shelf, text, lists, count) {
        Some(shelf)
    } else {
        drop(shelf);
        None
    }
}
