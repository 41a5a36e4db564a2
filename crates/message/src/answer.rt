// What a message answers.
ghost use Rattle.std.specs.Prelude.{◌≡◌};
ghost use Rattle.message.specs.Answer.{refused_with, accepted_with};

use plan::plan::Plan;
use words::remembered::Remembered;

// Of a refusal, "the number, the rest zero": so it is no Result, and whoever lays an answer out as columns or words takes
// any of them.
#[derive(Clone, Copy, Debug, Default, PartialEq, Eq)]
pub struct Answer {
    pub number: u16,
    pub block_status: u16,
    pub cell: u16,
    pub before: u16,
    pub after: u16,
    pub status: u16,
    pub answered: bool,
    pub sent: u16,
    pub interrupt: u16,
}

// The answer, and what is remembered after it.
#[derive(Clone, Copy, Debug, PartialEq, Eq)]
pub struct Outcome {
    pub answer: Answer,
    pub remembered: Remembered,
}

#[tactic(auto, unfolding(crate::specs::Answer::refused_with))]
pub(crate) fn refused_with(number: u16) -> Answer
    ensures { result ≡ refused_with number }
{
    Answer {
        number,
        ..Answer::default()
    }
}

#[tactic(auto, unfolding(crate::specs::Answer::accepted_with))]
pub fn accepted_with(p: Plan) -> Answer
    ensures { result ≡ accepted_with p }
{
    let deed = p.deed;
    Answer {
        number: 0,
        block_status: deed.block_status,
        cell: deed.cell,
        before: deed.before,
        after: deed.after,
        status: deed.status,
        answered: deed.answered,
        sent: deed.sent,
        interrupt: p.interrupt,
    }
}
