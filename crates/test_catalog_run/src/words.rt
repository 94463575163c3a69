//! The rows of the grammar of words, and what a process gives.

use command_line::{Command, ServeOptions, Words, WordsFault, read_command, read_words};
use std::alloc::Global;
use std::env::{Env, FillError};
use test_support::words_of;

/// The numbers of a server.
#[derive(Clone, Copy)]
struct Numbers {
    at: u16,
    conns: u64,
    workers: u32,
    page: u32,
    ahead: u32,
}

/// What words are read as.
#[derive(Clone, Copy)]
enum Told {
    One,
    Judge,
    Compare,
    /// A server over the catalog `c.csv`.
    Serve(Numbers),
    BadWords,
}

/// Whether a server is over the catalog `c.csv` and has these numbers.
fn serves(options: &ServeOptions, numbers: Numbers) -> bool {
    let is_there = options.catalog.as_str() == "c.csv" && options.listening.at == numbers.at;
    let settings = options.settings;
    is_there
        && options.listening.conns == numbers.conns
        && settings.workers == numbers.workers
        && settings.page == numbers.page
        && settings.ahead == numbers.ahead
}

/// Whether this came of words.
fn is_told(command: &Result<Command, WordsFault>, told: Told) -> bool {
    match (command, told) {
        (Ok(Command::One), Told::One)
        | (Ok(Command::Judge), Told::Judge)
        | (Ok(Command::Compare), Told::Compare)
        | (Err(WordsFault::BadWords), Told::BadWords) => true,
        (Ok(Command::Serve(options)), Told::Serve(numbers)) => serves(options, numbers),
        _ => false,
    }
}

/// Whether words are read as this.
fn are_read_as(alloc: Global, texts: &[&str], told: Told) -> bool {
    let Ok(words) = words_of(alloc, texts) else {
        return false;
    };
    let command = read_command(alloc, &words);
    drop(words);
    is_told(&command, told)
}

/// Words, and what they are read as.
type Row = (&'static [&'static str], Told);

const ROWS: &[Row] = &[
    (&["one"], Told::One),
    (&["one", "--"], Told::One),
    (&["judge"], Told::Judge),
    (&["judge", "--"], Told::Judge),
    (&["compare"], Told::Compare),
    (&[], Told::BadWords),
    (&[""], Told::BadWords),
    (&["--help"], Told::BadWords),
    (&["two"], Told::BadWords),
    (&["One"], Told::BadWords),
    (&["--", "one"], Told::BadWords),
    (&["one", "extra"], Told::BadWords),
    (&["one", ""], Told::BadWords),
    (&["one", "-"], Told::BadWords),
    (&["one", "--", "x"], Told::BadWords),
    (&["one", "--", "--"], Told::BadWords),
    (&["one", "--help"], Told::BadWords),
    (&["one", "-h"], Told::BadWords),
    (&["one", "--x"], Told::BadWords),
    (&["judge", "one"], Told::BadWords),
    (&["judge", "x"], Told::BadWords),
    (&["compare", "one"], Told::BadWords),
    (&["run"], Told::BadWords),
    (
        &[
            "bulk",
            "--start=0",
            "--count=1",
            "--lists=1",
            "--queries=65",
        ],
        Told::BadWords,
    ),
];

/// The words of a server: what stands where nothing is said, the least and the greatest numbers, and what is refused.
const SERVES: &[Row] = &[
    (
        &["serve", "c.csv", "--at", "8080"],
        Told::Serve(Numbers {
            at: 8080,
            conns: 1_000_000,
            workers: 4,
            page: 100,
            ahead: 2,
        }),
    ),
    (
        &[
            "serve",
            "--ahead=0",
            "--page=1",
            "--workers=1",
            "--conns=1",
            "--at=1",
            "c.csv",
        ],
        Told::Serve(Numbers {
            at: 1,
            conns: 1,
            workers: 1,
            page: 1,
            ahead: 0,
        }),
    ),
    (
        &[
            "serve",
            "--at=65535",
            "--conns=1000000",
            "--workers=32",
            "--page=10000",
            "--ahead=100",
            "--",
            "c.csv",
        ],
        Told::Serve(Numbers {
            at: 65_535,
            conns: 1_000_000,
            workers: 32,
            page: 10_000,
            ahead: 100,
        }),
    ),
    (&["serve"], Told::BadWords),
    (&["serve", "c.csv"], Told::BadWords),
    (&["serve", "--at=8080"], Told::BadWords),
    (&["serve", "c.csv", "--at"], Told::BadWords),
    (&["serve", "c.csv", "--at=0"], Told::BadWords),
    (&["serve", "c.csv", "--at=65536"], Told::BadWords),
    (
        &["serve", "c.csv", "--at=8080", "--at=8080"],
        Told::BadWords,
    ),
    (&["serve", "c.csv", "A", "--at=8080"], Told::BadWords),
    (
        &["serve", "c.csv", "--at=8080", "--conns=0"],
        Told::BadWords,
    ),
    (
        &["serve", "c.csv", "--at=8080", "--conns=1000001"],
        Told::BadWords,
    ),
    (
        &["serve", "c.csv", "--at=8080", "--workers=0"],
        Told::BadWords,
    ),
    (
        &["serve", "c.csv", "--at=8080", "--workers=33"],
        Told::BadWords,
    ),
    (&["serve", "c.csv", "--at=8080", "--page=0"], Told::BadWords),
    (
        &["serve", "c.csv", "--at=8080", "--page=10001"],
        Told::BadWords,
    ),
    (
        &["serve", "c.csv", "--at=8080", "--ahead=101"],
        Told::BadWords,
    ),
    (
        &["serve", "c.csv", "--at=8080", "--version=1"],
        Told::BadWords,
    ),
    (&["Serve", "c.csv", "--at=8080"], Told::BadWords),
];

/// The number of the first row that is read otherwise.
fn first_wrong(alloc: Global, rows: &[Row]) -> Option<usize> {
    for (number, (words, told)) in rows.iter().enumerate() {
        if !are_read_as(alloc, words, *told) {
            return Some(number);
        }
    }
    None
}

#[test]
fn reads_commands_and_refuses_words(rt: HostRuntime) {
    assert_eq!(rt; first_wrong(rt.alloc(), ROWS), None);
}

#[test]
fn reads_the_words_of_a_server(rt: HostRuntime) {
    assert_eq!(rt; first_wrong(rt.alloc(), SERVES), None);
}

/// A process whose own name isn't UTF-8, with these words.
#[derive(Drop)]
struct Given {
    words: &'static [&'static [u8]],
}

impl Env for Given {
    fn arg(&self, i: usize, buf: &mut [u8]) -> Result<usize, FillError> {
        let Some(word) = self.words.get(i) else {
            return Err(FillError::NotPresent);
        };
        let Some(room) = buf.get_mut(..word.len()) else {
            return Err(FillError::TooLong);
        };
        room.copy_from_slice(word);
        Ok(word.len())
    }

    fn var(&self, _name: &str, _buf: &mut [u8]) -> Result<usize, FillError> {
        Err(FillError::NotPresent)
    }

    fn var_at(&self, _i: usize, _buf: &mut [u8]) -> Result<usize, FillError> {
        Err(FillError::NotPresent)
    }
}

const LONG: &[u8] = &[b'x'; 5000];

/// Whether the words behind a process's name are two, the second of which is long.
fn are_one_and_long(words: &Words) -> bool {
    let Some(last) = words.get(1) else {
        return false;
    };
    words.len() == 2 && words.get(0) == Some("one") && last.as_bytes() == LONG
}

/// Whether a process gives these two words, or they are refused for this reason where there is one.
fn gives(alloc: Global, given: &Given, expected: Option<WordsFault>) -> bool {
    match read_words(given, alloc) {
        Ok(words) => {
            let are_so = are_one_and_long(&words);
            drop(words);
            are_so && expected.is_none()
        }
        Err(fault) => expected == Some(fault),
    }
}

/// The words behind the name are read, and a word that is no text is refused.
#[test]
fn reads_the_words_of_a_process(rt: HostRuntime) {
    let long = Given {
        words: &[b"\xFF", b"one", LONG],
    };
    let no_text = Given {
        words: &[b"topk", b"one", b"\xC3"],
    };
    let are_so = gives(rt.alloc(), &long, None)
        && gives(rt.alloc(), &no_text, Some(WordsFault::BadWords));
    assert!(rt; are_so);
}
