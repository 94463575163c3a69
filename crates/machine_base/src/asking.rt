//! Asking for what is missing: the unknown grades of objects, object by object, and of each in the order of the lists.

ghost use Rattle.std.specs.Prelude.{◌≡◌, ◌<◌, drop, is_none};
ghost use Rattle.topk_theory.specs.Bounds.{known_grade};
ghost use Rattle.machine_base.specs.Asking.{next_unknown, ask_from};
ghost use Rattle.machine_base.specs.Certain.{first_unknown};

use super::object_list::ObjectList;
use access_log::Transcript;
use ranked_list::Need;

/// The grade in a list of the object at a place of some objects.
#[derive(Clone, Copy)]
pub struct Ask {
    /// The list, from 0.
    pub list: u8,
    /// The object.
    pub object: u32,
    /// The object's place, from 0.
    pub place: usize,
}

/// The first list whose grade of an object no access gave, None where all its grades are known.
pub fn next_unknown(transcript: &Transcript, object: u32) -> Option<u8>
    ensures { result ≡ next_unknown transcript.now.lists transcript.now.accesses object }
{
    let known = transcript.known(object);
    for list in 0..transcript.lists() {
        if known[list as usize].is_none() {
            return Some(list);
        }
    }
    None
}

/// Whether no access gave the grade of an object in a list.
fn is_unknown(transcript: &Transcript, object: u32, list: u8) -> bool
    requires { list < transcript.now.lists }
    ensures { result ≡ is_none (known_grade transcript.now.accesses object list) }
{
    transcript.known(object)[list as usize].is_none()
}

/// The grade in a list of the first object, from a place on, whose grade there no access gave; nothing where each is known.
pub fn first_unknown<L: ObjectList + Copy>(
    transcript: &Transcript,
    objects: L,
    place: usize,
    list: u8,
) -> Need
    requires { list < transcript.now.lists }
    ensures { result ≡ first_unknown transcript.now.accesses (drop place (L.objects objects)) list }
{
    for at in place..objects.size() {
        let object = objects.object(at);
        if is_unknown(transcript, object, list) {
            return Need::Grade { list, object };
        }
    }
    Need::Done
}

/// What is asked next of objects from a place on: the first unknown grade of the first of them that has one; None where all
/// their grades are known.
pub fn ask_from<L: ObjectList + Copy>(
    transcript: &Transcript,
    objects: L,
    place: usize,
) -> Option<Ask>
    ensures { result ≡ ask_from transcript.now.lists transcript.now.accesses (drop place (L.objects objects)) place }
{
    for at in place..objects.size() {
        let object = objects.object(at);
        if let Some(list) = next_unknown(transcript, object) {
            return Some(Ask {
                list,
                object,
                place: at,
            });
        }
    }
    None
}
