//! What a certificate answers, line by line, against the table that it was made from.

use super::aggregates::Aggregate;
use super::random_tables::{NAMES, Table};
use std::alloc::Global;
use std::str::SplitWhitespace;

/// How many objects are asked for, and by which aggregate.
pub type Asked = (u32, Aggregate);

/// An answered object with its bounds.
#[derive(Clone, Copy)]
struct Answered {
    object: usize,
    low: u64,
    high: u64,
}

/// The number that comes next.
fn next_number(words: &mut SplitWhitespace<'_>) -> Option<u64> {
    words.next()?.parse::<u64>().ok()
}

/// The object of a line `answer`, from what stands behind the word.
fn answered_in(rest: &str) -> Option<Answered> {
    let mut words = rest.split_whitespace();
    let object = next_number(&mut words);
    let low = next_number(&mut words);
    let high = next_number(&mut words);
    match (object, low, high) {
        (Some(object), Some(low), Some(high)) => Some(Answered {
            object: object as usize,
            low,
            high,
        }),
        _ => None,
    }
}

/// Adds the objects of the lines `answer`, and tells whether each has its form and all were added.
fn add_answers(certificate: &str, answers: &mut Vec<Answered>) -> bool {
    for line in certificate.lines() {
        let Some(rest) = line.strip_prefix("answer ") else {
            continue;
        };
        let Some(item) = answered_in(rest) else {
            return false;
        };
        if answers.push(item).is_err() {
            return false;
        }
    }
    true
}

/// The number of the list with this name.
fn list_of(name: &str) -> Option<usize> {
    for (list, other) in NAMES.iter().enumerate() {
        if *other == name {
            return Some(list);
        }
    }
    None
}

/// An access that a certificate tells.
#[derive(Clone, Copy)]
struct Told {
    list: usize,
    object: usize,
    grade: u64,
}

/// The access of a line, from what stands behind its kind.
fn told_in(words: &mut SplitWhitespace<'_>) -> Option<Told> {
    let list = list_of(words.next()?);
    let object = next_number(words);
    let grade = next_number(words);
    match (list, object, grade) {
        (Some(list), Some(object), Some(grade)) => Some(Told {
            list,
            object: object as usize,
            grade,
        }),
        _ => None,
    }
}

/// Whether a table has the grade of an access.
fn has_grade(table: &Table, told: Told) -> bool {
    match table.of_object(told.object) {
        Some(grades) => grades.get(told.list).copied() == Some(told.grade),
        None => false,
    }
}

/// Whether a line tells no access, or one whose grade the table has.
fn agrees(table: &Table, line: &str) -> bool {
    let mut words = line.split_whitespace();
    let kind = words.next().unwrap_or("");
    if kind != "s" && kind != "r" {
        return true;
    }
    match told_in(&mut words) {
        Some(told) => has_grade(table, told),
        None => false,
    }
}

/// Whether a certificate tells accesses, and the table has the grade of each.
fn has_true_accesses(table: &Table, certificate: &str) -> bool {
    for line in certificate.lines() {
        if !agrees(table, line) {
            return false;
        }
    }
    certificate.contains("\ns ")
}

/// What is answered of an object, or None where it isn't among the answered.
fn answered_of(answers: &[Answered], object: usize) -> Option<Answered> {
    for item in answers {
        if item.object == object {
            return Some(*item);
        }
    }
    None
}

/// Whether the answered objects are distinct, the true aggregate of each stands between its bounds, and no
/// object outside has a greater one than one inside.
fn are_first(aggregates: &[u64], answers: &[Answered]) -> bool {
    let mut least_inside = u64::MAX;
    let mut greatest_outside = 0;
    let mut found: usize = 0;
    for (object, aggregate) in aggregates.iter().copied().enumerate() {
        let Some(item) = answered_of(answers, object) else {
            greatest_outside = aggregate.max(greatest_outside);
            continue;
        };
        if aggregate < item.low || item.high < aggregate {
            return false;
        }
        least_inside = aggregate.min(least_inside);
        found = found.saturating_add(1);
    }
    // where an object is answered twice, fewer are found
    found == answers.len() && greatest_outside <= least_inside
}

/// Adds the aggregate of each object, and tells whether all were added.
fn add_aggregates(
    alloc: Global,
    table: &Table,
    aggregate: Aggregate,
    aggregates: &mut Vec<u64>,
) -> bool {
    for object in 0..table.count {
        let Some(grades) = table.of_object(object as usize) else {
            return false;
        };
        let Some(value) = aggregate.of(alloc, grades) else {
            return false;
        };
        if aggregates.push(value).is_err() {
            return false;
        }
    }
    true
}

/// Whether these are the first k objects of a table, with their bounds.
fn are_answered(alloc: Global, table: &Table, asked: Asked, answers: &[Answered]) -> bool {
    let (k, aggregate) = asked;
    let mut aggregates = Vec::new(alloc);
    let are_so = add_aggregates(alloc, table, aggregate, &mut aggregates)
        && answers.len() == k as usize
        && are_first(&aggregates, answers);
    drop(aggregates);
    are_so
}

/// Whether a certificate has accesses, which the table agrees with, and such an answer.
pub fn is_right(alloc: Global, table: &Table, asked: Asked, certificate: &str) -> bool {
    let mut answers = Vec::new(alloc);
    let is_so = has_true_accesses(table, certificate)
        && add_answers(certificate, &mut answers)
        && are_answered(alloc, table, asked, &answers);
    drop(answers);
    is_so
}
