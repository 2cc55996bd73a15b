// Fields of requests.
ghost use Rattle.std.specs.Prelude.{◌≡◌, ◌≤◌, length, is_some};
ghost use Rattle.serde_json.specs.Find.{get};
ghost use Rattle.serde_json.specs.View.{view};
ghost use Rattle.sheet_wire.specs.Fields.{field_name};

use serde_json::Value as Json;

/// A field that a request can have.
#[derive(Clone, Copy, Debug, PartialEq, Eq)]
pub enum Field {
    Do,
    See,
    Reads,
    Admit,
    Stats,
    Key,
    Newkey,
    Number,
    Object,
    With,
}

impl Field {
    /// Its name.
    pub fn name(self) -> &'static str
        ensures name { result.now ≡ field_name self }
        ensures short { length result.now ≤ 63 }
    {
        match self {
            Field::Do => "do",
            Field::See => "see",
            Field::Reads => "reads",
            Field::Admit => "admit",
            Field::Stats => "stats",
            Field::Key => "key",
            Field::Newkey => "newkey",
            Field::Number => "number",
            Field::Object => "object",
            Field::With => "with",
        }
    }

    /// Whether the value is an object that has it.
    pub fn is_in(self, value: &Json) -> bool
        ensures { result ≡ is_some (get (field_name self) (view value.now)) }
    {
        value.get(self.name()).is_some()
    }
}
