//! The bound of an object's aggregate.

ghost use Rattle.std.specs.Prelude.{◌≡◌};
ghost use Rattle.cert_judge.specs.Extremes.{lesser, greater};

/// An object, and the least or the greatest aggregate that it may have.
#[derive(Clone, Copy)]
pub(crate) struct Bound {
    pub object: u32,
    pub value: u64,
}

/// The lesser of two bounds, if there are two; of equal ones that of the smaller id.
pub(crate) fn lesser(best: Option<Bound>, next: Bound) -> Bound
    ensures { result ≡ lesser best next }
{
    let Some(best) = best else {
        return next;
    };
    if next.value < best.value || (next.value == best.value && next.object < best.object) {
        next
    } else {
        best
    }
}

/// The greater of two bounds, if there are two; of equal ones that of the smaller id.
pub(crate) fn greater(best: Option<Bound>, next: Bound) -> Bound
    ensures { result ≡ greater best next }
{
    let Some(best) = best else {
        return next;
    };
    if best.value < next.value || (next.value == best.value && next.object < best.object) {
        next
    } else {
        best
    }
}
