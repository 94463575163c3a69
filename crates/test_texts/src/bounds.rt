//! Bounds of values, and copies.

use super::grades::are_grades;
use super::holds;
use monotone_fn::Expr;
use query_text::read;
use std::alloc::Global;
use topk_base::TOP_GRADE;

/// The least and the greatest value with these known grades and bottoms, or None where these aren't one for each list.
fn low_and_high(expr: &Expr, known: &[Option<u32>], bottoms: &[u32]) -> Option<(u64, u64)> {
    let lists = expr.lists() as usize;
    let are_capped = known.iter().all(|grade| grade.unwrap_or(0) <= TOP_GRADE)
        && are_grades(bottoms);
    if are_capped && known.len() == lists && bottoms.len() == lists {
        Some((expr.eval_low(known), expr.eval_high(known, bottoms)))
    } else {
        None
    }
}

/// The bounds of a copy of a sum: 0 and the bottom stand in place of the unknown grade.
fn bounds_of_copy(alloc: Global, sum: &Expr) -> Option<(u64, u64)> {
    let copy = sum.copy(alloc).ok()?;
    let bounds = low_and_high(&copy, &[Some(300), None], &[900, 800]);
    copy.let_go();
    bounds
}

/// The bounds of a query's sum.
fn bounds_of_sum(alloc: Global) -> Option<(u64, u64)> {
    let query = read(alloc, b"top 1 by sum(A,B) using ta").ok()?;
    let bounds = bounds_of_copy(alloc, &query.expr);
    query.let_go();
    bounds
}

#[test]
fn sums_have_their_bounds(rt: HostRuntime) {
    holds(&rt, bounds_of_sum(rt.alloc()) == Some((300, 1100)));
}
