//! What came of what was drawn, at its place.

ghost use Rattle.std.specs.Prelude.{◌≡◌, ◌<◌, ℕ, None, All, length};
ghost use Rattle.std.specs.List.{slice_index_or};
ghost use Rattle.tickets.specs.Places.{standing};

/// What came of a number that was drawn.
#[derive(Drop)]
pub struct Done<A> {
    /// The number, which is the place of what came of it.
    pub place: usize,
    /// What came of it.
    pub answer: A,
}

/// Puts each answer at its place, the last one first. Takes no memory.
pub fn place_all<A: Drop>(mut done: Vec<Done<A>>, answers: &mut [Option<A>])
    requires { All (λ one. one.place < length answers.old) done.items }
    ensures size { length answers.new ≡ length answers.old }
    ensures placed { (place : ℕ) → slice_index_or answers.new place None ≡ standing place done.items (slice_index_or answers.old place None) }
{
    while let Some(Done { place, answer }) = done.pop() {
        answers[place] = Some(answer);
    }
}
