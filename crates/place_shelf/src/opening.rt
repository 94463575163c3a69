//! Opening the source of a place.

ghost use Rattle.std.specs.Prelude.{◌≡◌, false, Some, string_bytes, IfErr, IfOk, IfSome};
ghost use Rattle.source_api.specs.Counting.{no_counts};
ghost use Rattle.file_source.specs.Shelved.{IsFileTrouble};
ghost use Rattle.place_shelf.specs.Shelved.{list_at, version_at};
ghost use Rattle.place_shelf.specs.Sources.{IsSourceOf, IsOverFile, IsOverDial, list_of, counts_of, version_of, states_of};
ghost use Rattle.catalog_text.specs.Places.{is_remote};

use super::dial_maker::DialMaker;
use super::place_source::PlaceSource;
use catalog_text::{Address, Location, location_of};
use file_source::{FileTree, ListSource, read_file};
use http_source::HttpSource;
use source_api::{FailKind, Trouble};
use std::alloc::{AllocError, Global};
use tk_io::Dial;
use wire::Place;

/// The source of a place: over all bytes of the file that is there, or over a dial of its own to the list
/// that a host serves there. No link is taken yet. A file that can't be read, one of more than 16,777,216
/// bytes, and a place that is neither a path nor an address are `Failed`. No other trouble comes but `Memory`.
pub fn open_place<F: FileTree, M: DialMaker>(
    alloc: Global,
    files: &F,
    dials: &M,
    place: &str,
) -> Result<PlaceSource<M::D>, Trouble>
    ensures source { IfOk result (IsSourceOf (F.contents files.now) (M.makes dials.now) M.D.faults place.now) }
    ensures sound { IfErr result IsFileTrouble }
{
    match location_of(place) {
        Some(Location::File) => open_file(alloc, files, place),
        Some(Location::Http(address)) => open_served(alloc, dials.make_dial(), address),
        None => Err(Trouble::Fail(FailKind::Failed)),
    }
}

/// The same, and what a shelf tells of its source.
pub(crate) fn open_told<F: FileTree, M: DialMaker>(
    alloc: Global,
    files: &F,
    dials: &M,
    place: &str,
) -> Result<PlaceSource<M::D>, Trouble>
    ensures source { IfOk result (IsSourceOf (F.contents files.now) (M.makes dials.now) M.D.faults place.now) }
    ensures fresh { IfOk result (λ source. counts_of M.D.faults source ≡ no_counts) }
    ensures unasked { IfOk result (λ source. version_of source ≡ 0) }
    ensures states { IfOk result (λ source. IfSome (version_at place.now) (λ told. states_of source ≡ Some told)) }
    ensures lists { IfOk result (λ source. IfSome (list_at (F.contents files.now) place.now) (λ told. list_of source ≡ Some told)) }
    ensures sound { IfErr result IsFileTrouble }
{
    open_place(alloc, files, dials, place)
}

/// The source over all bytes of a file.
fn open_file<F: FileTree, D: Dial + Drop>(
    alloc: Global,
    files: &F,
    place: &str,
) -> Result<PlaceSource<D>, Trouble>
    requires { is_remote place.now ≡ false }
    ensures source { IfOk result (IsOverFile (F.contents files.now) place.now) }
    ensures sound { IfErr result IsFileTrouble }
{
    match read_file(alloc, files, place) {
        Ok(text) => Ok(PlaceSource::File(ListSource::of_text(text))),
        Err(trouble) => Err(trouble),
    }
}

/// The source over a dial to the list at an address. Where memory is refused the dial is dropped.
fn open_served<D: Dial + Drop>(
    alloc: Global,
    dial: D,
    address: Address<'_>,
) -> Result<PlaceSource<D>, Trouble>
    ensures source { IfOk result (IsOverDial dial address.entry.host.now address.entry.port address.entry.path.now) }
    ensures sound { IfErr result IsFileTrouble }
{
    let Ok(place) = http_place(alloc, address) else {
        drop(dial);
        return Err(Trouble::Fail(FailKind::Memory));
    };
    match HttpSource::make(alloc, dial, &place) {
        Ok(source) => Ok(PlaceSource::Http(source)),
        Err(_) => Err(Trouble::Fail(FailKind::Memory)),
    }
}

/// The place of an address.
fn http_place(alloc: Global, address: Address<'_>) -> Result<Place, AllocError>
    ensures host { IfOk result (λ place. string_bytes place.host ≡ address.entry.host.now) }
    ensures port { IfOk result (λ place. place.port ≡ address.entry.port) }
    ensures path { IfOk result (λ place. string_bytes place.path ≡ address.entry.path.now) }
{
    let host = String::from_str(alloc, address.host)?;
    let path = String::from_str(alloc, address.path)?;
    Ok(Place {
        host,
        port: address.port,
        path,
    })
}
