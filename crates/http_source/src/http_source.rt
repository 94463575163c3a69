//! A source over a dial.

ghost use Rattle.std.specs.Prelude.{◌≡◌, ◌≤◌, [], Some, None, vec_len, string_bytes, IfOk, IfErr, IfSome, OnOk, OnErr};
ghost use Rattle.source_api.specs.Counting.{no_counts, troubled, NoneFell, TroubleHasCause, CountsAlone, MovedHasCause, IsNoMove, GaveNothing, GaveRows, GaveGrade, gave_rows, gave_grade};
ghost use Rattle.http_source.specs.Requests.{size_tail, page_tail, grade_tail};
ghost use Rattle.http_source.specs.Exchanges.{next_bytes, UsesLink, DialsOnce, FailsWith, IsUnanswered};
ghost use Rattle.http_source.specs.Answers.{AnswersSize, AnswersPage, AnswersGrade};
ghost use Rattle.http_source.specs.Served.{request_of, host_port_of, counts_with, size_counted, page_counted, grade_counted};

use super::Memory;
use super::asking::{ask_grade, ask_page, ask_size};
use ranked_list::Row;
use source_api::{Counts, Source, Trouble};
use std::alloc::{AllocError, Global};
use std::marker::Model;
use tk_io::Dial;
use wire::Place;

/// A list that is served over HTTP at a place: each call is one request on one link to the place's host
/// and port, which is given back. No other host or port is dialled.
///
/// Contracts see it as the record of its dial, of the host, the port and the path of its place, of the
/// version at hand, and of what it has counted. Its count of faults is that of its dial: a call is
/// `Failed` exactly where that rose. It tells neither its list nor the version that replies state.
#[derive(Drop)]
pub struct HttpSource<D: Dial + Drop> {
    dial: D,
    place: Place,
    version: u64,
    counted: Counts,
}

impl<D: Dial + Drop> Model for HttpSource<D> {
    ghost use Rattle.std.specs.Prelude.{string_bytes};
    ghost use Rattle.http_source.specs.Served.{Served, served_code};

    ghost Value = { Served D };

    ghost coded = { served_code D.code };

    ghost view = { λ s. record {
      dial = s.dial;
      host = string_bytes s.place.host;
      port = s.place.port;
      path = string_bytes s.place.path;
      version = s.version;
      counted = s.counted;
    } };
}

impl<D: Dial + Drop> HttpSource<D> {
    /// The source of the list that is served at the place. It has answered no size yet, and has counted
    /// nothing but what its dial has. Where memory is refused the dial is dropped.
    pub fn make(alloc: Global, dial: D, place: &Place) -> Result<HttpSource<D>, Memory>
        ensures { IfOk result (λ s. s ≡ record {
          dial = dial;
          host = string_bytes place.now.host;
          port = place.now.port;
          path = string_bytes place.now.path;
          version = 0;
          counted = no_counts;
        }) }
    {
        match copy_place(alloc, place) {
            Ok(place) => Ok(HttpSource {
                dial,
                place,
                version: 0,
                counted: Counts::none(),
            }),
            Err(_) => {
                drop(dial);
                Err(Memory)
            }
        }
    }

    /// The dial.
    pub fn dial(&self) -> &D
        ensures { result.now ≡ self.now.dial }
    {
        &self.dial
    }

    /// What it has counted beside its dial. Its faults here are the calls that failed.
    pub fn counted(&self) -> Counts
        ensures { result ≡ self.now.counted }
    {
        self.counted
    }

    /// What it has counted. Its faults are those of its dial, which counts the links' calls.
    pub fn counts(&self) -> Counts
        ensures { result ≡ counts_with (D.faults self.now.dial) self.now.counted }
    {
        Counts {
            faults: self.dial.fault_count(),
            ..self.counted
        }
    }

    /// The version that the last answer for the number of rows stated, 0 before one.
    pub fn at_hand(&self) -> u64
        ensures { result ≡ self.now.version }
    {
        self.version
    }
}

/// A place of the same host, port and path.
fn copy_place(alloc: Global, place: &Place) -> Result<Place, AllocError>
    ensures host { IfOk result (λ copy. string_bytes copy.host ≡ string_bytes place.now.host) }
    ensures port { IfOk result (λ copy. copy.port ≡ place.now.port) }
    ensures path { IfOk result (λ copy. string_bytes copy.path ≡ string_bytes place.now.path) }
{
    let host = String::from_str(alloc, place.host.as_str())?;
    let path = String::from_str(alloc, place.path.as_str())?;
    Ok(Place {
        host,
        port: place.port,
        path,
    })
}

impl<D: Dial + Send + Drop> Source for HttpSource<D> {
    ghost use Rattle.std.specs.Prelude.{None};
    ghost use Rattle.http_source.specs.Served.{counts_with};

    ghost list = { λ _. None };

    ghost counts = { λ s. counts_with (D.faults s.dial) s.counted };

    ghost at_hand = { λ s. s.version };

    ghost states = { λ _. None };

    /// Asks for the number of rows, which may be any. The version that the reply states is the one at
    /// hand from then on.
    fn size(&mut self, alloc: Global) -> Result<u64, Trouble>
        ensures answers { IfSome (next_bytes (D.links self.old.dial)) (λ bytes. AnswersSize bytes self.new.version result) }
        ensures unlinked { D.links self.old.dial ≡ Some [] → IsUnanswered result }
        ensures failed { FailsWith (D.faults self.old.dial) (D.faults self.new.dial) result }
        ensures dialled { DialsOnce (host_port_of self.old) (D.dialled self.old.dial) (D.dialled self.new.dial) result }
        ensures link { UsesLink (request_of self.old size_tail)
            (D.links self.old.dial) (D.links self.new.dial) (D.closed self.old.dial) (D.closed self.new.dial) result }
        ensures after { self.new ≡ record self.old {
          dial = self.new.dial;
          version = self.new.version;
          counted = size_counted result self.old.counted;
        } }
        ensures kept { OnErr result (self.new.version ≡ self.old.version) }
        ensures unmoved { IfErr result IsNoMove }
        ensures later { NoneFell (counts_with (D.faults self.old.dial) self.old.counted) (counts_with (D.faults self.new.dial) self.new.counted) }
        ensures cause { IfErr result (TroubleHasCause (counts_with (D.faults self.old.dial) self.old.counted) (counts_with (D.faults self.new.dial) self.new.counted)) }
        ensures alone { IfErr result (CountsAlone (counts_with (D.faults self.old.dial) self.old.counted) (counts_with (D.faults self.new.dial) self.new.counted)) }
        ensures given { GaveNothing (counts_with (D.faults self.old.dial) self.old.counted) (counts_with (D.faults self.new.dial) self.new.counted) }
        ensures quiet { OnOk result (counts_with (D.faults self.new.dial) self.new.counted ≡ counts_with (D.faults self.old.dial) self.old.counted) }
    {
        let answer = ask_size(alloc, &mut self.dial, &self.place, &mut self.version);
        self.counted = after_size(self.counted, &answer);
        answer
    }

    /// Asks for rows, at most `count` of them, at the version at hand.
    fn page(&mut self, alloc: Global, from: u32, count: u32) -> Result<Vec<Row>, Trouble>
        ensures answers { IfSome (next_bytes (D.links self.old.dial)) (λ bytes. AnswersPage bytes self.old.version count result) }
        ensures unlinked { D.links self.old.dial ≡ Some [] → IsUnanswered result }
        ensures failed { FailsWith (D.faults self.old.dial) (D.faults self.new.dial) result }
        ensures dialled { DialsOnce (host_port_of self.old) (D.dialled self.old.dial) (D.dialled self.new.dial) result }
        ensures link { UsesLink (request_of self.old (page_tail from count))
            (D.links self.old.dial) (D.links self.new.dial) (D.closed self.old.dial) (D.closed self.new.dial) result }
        ensures after { self.new ≡ record self.old { dial = self.new.dial; counted = page_counted result self.old.counted } }
        ensures bound { IfOk result (λ page. vec_len page ≤ count) }
        ensures later { NoneFell (counts_with (D.faults self.old.dial) self.old.counted) (counts_with (D.faults self.new.dial) self.new.counted) }
        ensures cause { IfErr result (TroubleHasCause (counts_with (D.faults self.old.dial) self.old.counted) (counts_with (D.faults self.new.dial) self.new.counted)) }
        ensures alone { IfErr result (CountsAlone (counts_with (D.faults self.old.dial) self.old.counted) (counts_with (D.faults self.new.dial) self.new.counted)) }
        ensures given { IfOk result (λ page. GaveRows (vec_len page) (counts_with (D.faults self.old.dial) self.old.counted) (counts_with (D.faults self.new.dial) self.new.counted)) }
        ensures gave_nothing { OnErr result (GaveNothing (counts_with (D.faults self.old.dial) self.old.counted) (counts_with (D.faults self.new.dial) self.new.counted)) }
        ensures quiet { IfOk result (λ page. counts_with (D.faults self.new.dial) self.new.counted ≡ gave_rows (vec_len page) (counts_with (D.faults self.old.dial) self.old.counted)) }
        ensures moved { IfErr result (MovedHasCause self.old.version None) }
    {
        let answer = ask_page(
            alloc,
            &mut self.dial,
            &self.place,
            self.version,
            from,
            count,
        );
        self.counted = after_page(self.counted, &answer);
        answer
    }

    /// Asks for the grade of an object at the version at hand.
    fn grade(&mut self, alloc: Global, object: u32) -> Result<Option<u32>, Trouble>
        ensures answers { IfSome (next_bytes (D.links self.old.dial)) (λ bytes. AnswersGrade bytes self.old.version result) }
        ensures unlinked { D.links self.old.dial ≡ Some [] → IsUnanswered result }
        ensures failed { FailsWith (D.faults self.old.dial) (D.faults self.new.dial) result }
        ensures dialled { DialsOnce (host_port_of self.old) (D.dialled self.old.dial) (D.dialled self.new.dial) result }
        ensures link { UsesLink (request_of self.old (grade_tail object))
            (D.links self.old.dial) (D.links self.new.dial) (D.closed self.old.dial) (D.closed self.new.dial) result }
        ensures after { self.new ≡ record self.old { dial = self.new.dial; counted = grade_counted result self.old.counted } }
        ensures later { NoneFell (counts_with (D.faults self.old.dial) self.old.counted) (counts_with (D.faults self.new.dial) self.new.counted) }
        ensures cause { IfErr result (TroubleHasCause (counts_with (D.faults self.old.dial) self.old.counted) (counts_with (D.faults self.new.dial) self.new.counted)) }
        ensures alone { IfErr result (CountsAlone (counts_with (D.faults self.old.dial) self.old.counted) (counts_with (D.faults self.new.dial) self.new.counted)) }
        ensures given { OnOk result (GaveGrade (counts_with (D.faults self.old.dial) self.old.counted) (counts_with (D.faults self.new.dial) self.new.counted)) }
        ensures gave_nothing { OnErr result (GaveNothing (counts_with (D.faults self.old.dial) self.old.counted) (counts_with (D.faults self.new.dial) self.new.counted)) }
        ensures quiet { OnOk result (counts_with (D.faults self.new.dial) self.new.counted ≡ gave_grade (counts_with (D.faults self.old.dial) self.old.counted)) }
        ensures moved { IfErr result (MovedHasCause self.old.version None) }
    {
        let answer = ask_grade(alloc, &mut self.dial, &self.place, self.version, object);
        self.counted = after_grade(self.counted, &answer);
        answer
    }

    /// The version that the last answer of `size` stated, 0 before one.
    fn version(&self) -> u64 {
        self.at_hand()
    }

    fn is_far(&self) -> bool {
        true
    }

    ghost distinct = { λ _. tt };
}

/// What is counted after a call for the size that ended so.
fn after_size(counted: Counts, answer: &Result<u64, Trouble>) -> Counts
    ensures is { result ≡ size_counted answer.now counted }
    ensures later { NoneFell counted result }
{
    match answer {
        Ok(_) => counted,
        Err(trouble) => after_trouble(counted, *trouble),
    }
}

/// What is counted after a call for rows that ended so.
fn after_page(counted: Counts, answer: &Result<Vec<Row>, Trouble>) -> Counts
    ensures is { result ≡ page_counted answer.now counted }
    ensures later { NoneFell counted result }
{
    match answer {
        Ok(page) => after_rows(counted, page.len() as u64),
        Err(trouble) => after_trouble(counted, *trouble),
    }
}

/// What is counted after a call for a grade that ended so.
fn after_grade(counted: Counts, answer: &Result<Option<u32>, Trouble>) -> Counts
    ensures is { result ≡ grade_counted answer.now counted }
    ensures later { NoneFell counted result }
{
    match answer {
        Ok(_) => after_answer(counted),
        Err(trouble) => after_trouble(counted, *trouble),
    }
}

/// What is counted after a call that ended so.
fn after_trouble(mut counted: Counts, trouble: Trouble) -> Counts
    ensures is { result ≡ troubled trouble counted }
    ensures later { NoneFell counted result }
{
    counted.count_trouble(trouble);
    counted
}

/// What is counted after so many rows were given.
fn after_rows(mut counted: Counts, rows: u64) -> Counts
    ensures is { result ≡ gave_rows rows counted }
    ensures later { NoneFell counted result }
{
    counted.count_rows(rows);
    counted
}

/// What is counted after a call for a grade was answered.
fn after_answer(mut counted: Counts) -> Counts
    ensures is { result ≡ gave_grade counted }
    ensures later { NoneFell counted result }
{
    counted.count_grade();
    counted
}

/// Takes what may go to another thread.
fn may_go<T: Send>(_: &T) {}

/// That a source over a dial may go to another thread.
fn source_may_go<D: Dial + Send + Drop>(source: &HttpSource<D>) {
    may_go(source);
}
