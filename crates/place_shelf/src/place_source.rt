//! The source of a place.

ghost use Rattle.std.specs.Prelude.{◌≡◌, ◌≤◌, length, vec_len, IfErr, IfOk, IfSome, OnErr, OnOk};
ghost use Rattle.source_api.specs.Counting.{NoneFell, TroubleHasCause, CountsAlone, MovedHasCause, IsNoMove, GaveNothing, GaveRows, GaveGrade, gave_rows, gave_grade};
ghost use Rattle.source_api.specs.Told.{IsPage, IsGrade};
ghost use Rattle.place_shelf.specs.Asking.{AsksSize, AsksPage, AsksGrade};
ghost use Rattle.place_shelf.specs.Sources.{list_of, counts_of, version_of, states_of};

use file_source::ListSource;
use http_source::HttpSource;
use ranked_list::Row;
use source_api::{Counts, Source, Trouble};
use std::alloc::Global;
use tk_io::Dial;

/// The source of a place: over a list file, or over a list that a host serves.
///
/// It tells what the one that it is tells.
#[derive(Drop)]
pub enum PlaceSource<D: Dial + Drop> {
    /// A list file.
    File(ListSource),
    /// A list that is asked for over a dial.
    Http(HttpSource<D>),
}

impl<D: Dial + Drop> PlaceSource<D> {
    /// What it has counted.
    pub fn counts(&self) -> Counts
        ensures { result ≡ counts_of D.faults self.now }
    {
        match self {
            PlaceSource::File(source) => source.counts(),
            PlaceSource::Http(source) => source.counts(),
        }
    }
}

impl<D: Dial + Send + Drop> Source for PlaceSource<D> {
    ghost use Rattle.place_shelf.specs.Sources.{list_has_each_once};

    ghost list = { list_of };

    ghost counts = { counts_of D.faults };

    ghost at_hand = { version_of };

    ghost states = { states_of };

    /// The number of rows. Over a list that a host serves it is one request for its size there.
    fn size(&mut self, alloc: Global) -> Result<u64, Trouble>
        ensures asks { AsksSize D.links D.closed D.faults D.dialled self.old self.new result }
        ensures list { list_of self.new ≡ list_of self.old }
        ensures states { states_of self.new ≡ states_of self.old }
        ensures later { NoneFell (counts_of D.faults self.old) (counts_of D.faults self.new) }
        ensures cause { IfErr result (TroubleHasCause (counts_of D.faults self.old) (counts_of D.faults self.new)) }
        ensures given { GaveNothing (counts_of D.faults self.old) (counts_of D.faults self.new) }
        ensures quiet { OnOk result (counts_of D.faults self.new ≡ counts_of D.faults self.old) }
        ensures alone { IfErr result (CountsAlone (counts_of D.faults self.old) (counts_of D.faults self.new)) }
        ensures size { IfOk result (λ size. IfSome (list_of self.old) (λ rows. size ≡ length rows)) }
        ensures version { OnOk result (IfSome (states_of self.old) (λ version. version_of self.new ≡ version)) }
        ensures kept { OnErr result (version_of self.new ≡ version_of self.old) }
        ensures unmoved { IfErr result IsNoMove }
    {
        match self {
            PlaceSource::File(source) => source.size(alloc),
            PlaceSource::Http(source) => source.size(alloc),
        }
    }

    /// Rows after the first `from`, at most `count` of them. Over a list that a host serves it is one request for these there.
    fn page(&mut self, alloc: Global, from: u32, count: u32) -> Result<Vec<Row>, Trouble>
        requires { 1 ≤ count }
        ensures asks { AsksPage D.links D.closed D.faults D.dialled from count self.old self.new result }
        ensures list { list_of self.new ≡ list_of self.old }
        ensures states { states_of self.new ≡ states_of self.old }
        ensures at_hand { version_of self.new ≡ version_of self.old }
        ensures later { NoneFell (counts_of D.faults self.old) (counts_of D.faults self.new) }
        ensures cause { IfErr result (TroubleHasCause (counts_of D.faults self.old) (counts_of D.faults self.new)) }
        ensures given { IfOk result (λ page. GaveRows (vec_len page) (counts_of D.faults self.old) (counts_of D.faults self.new)) }
        ensures gave_nothing { OnErr result (GaveNothing (counts_of D.faults self.old) (counts_of D.faults self.new)) }
        ensures quiet { IfOk result (λ page. counts_of D.faults self.new ≡ gave_rows (vec_len page) (counts_of D.faults self.old)) }
        ensures alone { IfErr result (CountsAlone (counts_of D.faults self.old) (counts_of D.faults self.new)) }
        ensures version { OnOk result (IfSome (states_of self.old) (λ version. version ≡ version_of self.old)) }
        ensures moved { IfErr result (MovedHasCause (version_of self.old) (states_of self.old)) }
        ensures bound { IfOk result (λ page. vec_len page ≤ count) }
        ensures page { IfOk result (λ page. IfSome (list_of self.old) (λ rows. IsPage rows from page.items)) }
    {
        match self {
            PlaceSource::File(source) => source.page(alloc, from, count),
            PlaceSource::Http(source) => source.page(alloc, from, count),
        }
    }

    /// The grade of an object. Over a list that a host serves it is one request for that grade there.
    fn grade(&mut self, alloc: Global, object: u32) -> Result<Option<u32>, Trouble>
        ensures asks { AsksGrade D.links D.closed D.faults D.dialled object self.old self.new result }
        ensures list { list_of self.new ≡ list_of self.old }
        ensures states { states_of self.new ≡ states_of self.old }
        ensures at_hand { version_of self.new ≡ version_of self.old }
        ensures later { NoneFell (counts_of D.faults self.old) (counts_of D.faults self.new) }
        ensures cause { IfErr result (TroubleHasCause (counts_of D.faults self.old) (counts_of D.faults self.new)) }
        ensures given { OnOk result (GaveGrade (counts_of D.faults self.old) (counts_of D.faults self.new)) }
        ensures gave_nothing { OnErr result (GaveNothing (counts_of D.faults self.old) (counts_of D.faults self.new)) }
        ensures quiet { OnOk result (counts_of D.faults self.new ≡ gave_grade (counts_of D.faults self.old)) }
        ensures alone { IfErr result (CountsAlone (counts_of D.faults self.old) (counts_of D.faults self.new)) }
        ensures version { OnOk result (IfSome (states_of self.old) (λ version. version ≡ version_of self.old)) }
        ensures moved { IfErr result (MovedHasCause (version_of self.old) (states_of self.old)) }
        ensures grade { IfOk result (λ grade. IfSome (list_of self.old) (λ rows. IsGrade rows object grade)) }
    {
        match self {
            PlaceSource::File(source) => source.grade(alloc, object),
            PlaceSource::Http(source) => source.grade(alloc, object),
        }
    }

    fn version(&self) -> u64 {
        match self {
            PlaceSource::File(source) => source.version(),
            PlaceSource::Http(source) => source.at_hand(),
        }
    }

    fn is_far(&self) -> bool {
        match self {
            PlaceSource::File(_) => false,
            PlaceSource::Http(_) => true,
        }
    }

    ghost distinct = { list_has_each_once };
}

/// Takes what may go to another thread.
fn may_go<T: Send>(_: &T) {}

/// That a source of a place may go to another thread.
fn source_may_go<D: Dial + Send + Drop>(source: &PlaceSource<D>) {
    may_go(source);
}
