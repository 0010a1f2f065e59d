// The pieces that a row is made of.
ghost use Rattle.std.specs.Prelude.{◌≡◌};
ghost use Rattle.tables.specs.Row as Y;

use tables::access::{Access, Context, Next, Wanted, Whose};
use tables::answer::{Answer, Change};
use tables::place::Place;

// An access to the party's own queue. `own` and `source` are two names, so that each row says whose queue it is.
pub fn own(access: Access) -> Wanted
    ensures { result ≡ record { whose = Whose.Own; access = access } }
{
    Wanted {
        whose: Whose::Own,
        access,
    }
}

// An access to the source.
pub fn source(access: Access) -> Wanted
    ensures { result ≡ record { whose = Whose.Source; access = access } }
{
    Wanted {
        whose: Whose::Source,
        access,
    }
}

// The call goes on at a place, with an effect or none.
pub fn on(s: Context, place: Place, change: Option<Change>) -> Next
    ensures { result ≡ Y.on s place change }
{
    Next {
        place,
        drain: s.drain,
        answer: None,
        change,
    }
}

// The call ends, with an effect or none.
pub fn ends(s: Context, answer: Answer, change: Option<Change>) -> Next
    ensures { result ≡ Y.ends s answer change }
{
    Next {
        place: Place::Idle,
        drain: s.drain,
        answer: Some(answer),
        change,
    }
}
