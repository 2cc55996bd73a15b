// What holds of all journals.
ghost use Rattle.std.specs.Prelude.{◌≡◌, ℕ, List, Option, Some, length};
ghost use Rattle.sheet_outside.specs.Crash.{at_rest};
ghost use Rattle.sheet_outside.specs.Moments.{Contents, MayHaveLeft};
ghost use Rattle.sheet_journal.specs.Layout.{Entry, Reaches, IsImage, IsOldOrNew};
ghost use Rattle.sheet_journal.specs.Journal.{HasBytes, Whatever};
ghost use Rattle.sheet_journal.specs.JournalCalls.{Keeps, IsCutShort, IsNoneOrOne};

/// Bytes stand for one list of records at most.
pub fn bytes_stand_for_one_list_of_records()
    ensures { (bytes : List ℕ) (some others : List Entry) → IsImage bytes some → IsImage bytes others → some ≡ others }
{}

/// Where a record is cut short behind others, the bytes are a journal of no records.
pub fn a_record_cut_short_stands_in_no_journal()
    ensures { (bytes : List ℕ) (front all : List Entry) (place : ℕ) → Reaches bytes front place → IsCutShort (Some (at_rest bytes)) place → IsImage bytes all → ⊥ }
{}

/// What holds throughout a call of whatever a crash may leave holds of what a crash at some moment since its start may have left:
/// for the records of an `append` and of a settling.
pub fn a_crash_leaves_old_or_new()
    ensures { (name : List ℕ) (entries : List Entry) (entry : Entry) (before now : Contents) (left : Option (List ℕ)) → Keeps name (Whatever (HasBytes (IsOldOrNew entries entry))) before now → MayHaveLeft now (length before.past) name left → HasBytes (IsOldOrNew entries entry) left }
{}

/// The same for the record of an `init`.
pub fn a_crash_leaves_none_or_one()
    ensures { (name : List ℕ) (entry : Entry) (before now : Contents) (left : Option (List ℕ)) → Keeps name (Whatever (IsNoneOrOne entry)) before now → MayHaveLeft now (length before.past) name left → IsNoneOrOne entry left }
{}
