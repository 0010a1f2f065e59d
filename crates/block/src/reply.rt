// What an act says, as numbers.
ghost use Rattle.std.specs.Prelude.{◌≡◌};
ghost use Rattle.block.specs.Reply as R;

use tables::answer;
use tables::answer::{Answer, Effect, Reply, Values};

pub const REPLY_SIZE: usize = 17;

// An effect has a token or a count.
fn value_of(values: Values) -> u64
    ensures { result ≡ R.value_of values }
{
    values.token.or(values.count).unwrap_or(0)
}

// An answer's number, token and count; 0 while the call is under way.
fn answer_words(answer: Option<Answer>) -> [u64; 3]
    ensures { result ≡ R.answer_words answer }
{
    let Some(answer) = answer else {
        return [0; 3];
    };
    let row = answer::answer_row(answer);
    [
        row.number as u64,
        row.values.token.unwrap_or(0),
        row.values.count.unwrap_or(0),
    ]
}

// No effect: 0.
fn effect_words(effect: Option<Effect>) -> [u64; 4]
    ensures { result ≡ R.effect_words effect }
{
    let Some(e) = effect else {
        return [0; 4];
    };
    let row = answer::change_row(e.change);
    [e.party, e.queue, row.number as u64, value_of(row.values)]
}

#[tactic(auto, unfolding(crate::specs::Reply::reply_words))]
pub fn reply_words(r: Reply) -> [u64; REPLY_SIZE]
    ensures { result ≡ R.reply_words r }
{
    let [one, two, three] = r.effects.list;
    let mut words = [0; REPLY_SIZE];
    words[..3].copy_from_slice(&answer_words(r.answer));
    words[3] = r.steps;
    words[4] = r.effects.count as u64;
    words[5..9].copy_from_slice(&effect_words(one));
    words[9..13].copy_from_slice(&effect_words(two));
    words[13..].copy_from_slice(&effect_words(three));
    words
}
