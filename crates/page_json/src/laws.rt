//! Laws of the texts of bodies: what is written reads back, and a body says one thing.

ghost use Rattle.std.specs.Prelude.{◌≡◌, ◌<◌, ◌≤◌, ◌+◌, ◌*◌, ◌^◌, ℕ, List, Option, IfSome, All, length};
ghost use Rattle.topk_base.specs.declared.TheConstants.{MAX_PAGE};
ghost use Rattle.ranked_list.specs.declared.row.Row.{Row};
ghost use Rattle.page_json.specs.declared.object.Versioned.{Versioned};
ghost use Rattle.page_json.specs.Bodies.{IsSizeBody, IsPageBody, IsGradeBody, Fits};
ghost use Rattle.page_json.specs.Texts.{size_text, page_text, grade_text};

/// The text of a size is a body that says this size at this version.
pub fn sizes_read_back()
    ensures { (version count : ℕ) → version < 2 ^ 64 → count < 2 ^ 64 → IsSizeBody (size_text version count) (record { version = version; body = count }) }
{}

/// The text of at most 10,000 rows is a body that says these rows at this version.
pub fn pages_read_back()
    ensures { (version : ℕ) (rows : List Row) → version < 2 ^ 64 → length rows ≤ MAX_PAGE → All Fits rows
        → IsPageBody (page_text version rows) (record { version = version; body = rows }) }
{}

/// The text of a grade, or of None, is a body that says it at this version.
pub fn grades_read_back()
    ensures { (version : ℕ) (grade : Option ℕ) → version < 2 ^ 64 → IfSome grade (λ g. g < 2 ^ 32)
        → IsGradeBody (grade_text version grade) (record { version = version; body = grade }) }
{}

/// A body says one thing.
pub fn a_body_says_one_thing()
    ensures size { (bytes : List ℕ) (said other : Versioned ℕ) → IsSizeBody bytes said → IsSizeBody bytes other → said ≡ other }
    ensures page { (bytes : List ℕ) (said other : Versioned (List Row)) → IsPageBody bytes said → IsPageBody bytes other → said ≡ other }
    ensures grade { (bytes : List ℕ) (said other : Versioned (Option ℕ)) → IsGradeBody bytes said → IsGradeBody bytes other → said ≡ other }
{}

/// A body is short: that of a page has at most 24 bytes for each row and 42 more, so that 10,000 rows
/// are far below what the body of an HTTP message may have.
pub fn bodies_are_short()
    ensures size { (version count : ℕ) → version < 2 ^ 64 → count < 2 ^ 64 → length (size_text version count) ≤ 61 }
    ensures page { (version : ℕ) (rows : List Row) → version < 2 ^ 64 → All Fits rows → length (page_text version rows) ≤ 24 * length rows + 42 }
    ensures grade { (version : ℕ) (grade : Option ℕ) → version < 2 ^ 64 → IfSome grade (λ g. g < 2 ^ 32) → length (grade_text version grade) ≤ 51 }
{}
