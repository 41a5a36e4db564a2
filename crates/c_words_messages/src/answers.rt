// Answers as plain words.
ghost use Rattle.std.specs.Prelude.{◌≡◌};
ghost use Rattle.c_words.specs.Over.{over};
ghost use Rattle.message.specs.Answer.{refused_with};
ghost use Rattle.message.specs.Performed.{answer_in};
ghost use Rattle.c_words_messages.specs.Answers.{answer_words, remembered_over};

use c_words::over::put_four;
use c_words::setup::put_remembered;
use memory::ram::put;
use message::answer::{Answer, accepted_with};
use message::perform::Performed;

fn put_answer(xs: &mut [u16], a: Answer)
    ensures { xs.new ≡ over xs.old (answer_words a) }
{
    put(xs, 8, a.interrupt);
    put_four(xs, 4, a.after, a.status, u16::from(a.answered), a.sent);
    put_four(xs, 0, a.number, a.block_status, a.cell, a.before);
}

// "Result: the number, the rest zero".

fn put_refusal(xs: &mut [u16], number: u16)
    ensures { xs.new ≡ over xs.old (answer_words (refused_with number)) }
{
    put(xs, 8, 0);
    put_four(xs, 4, 0, 0, 0, 0);
    put_four(xs, 0, number, 0, 0, 0);
}

// What a message answers and what is remembered after it, put over what is lent; the number is also the result, so that
// it reaches the caller whatever room there is. A refusal has a way of its own: nothing is worked out for it.
#[tactic(auto, unfolding(crate::specs::Answers::remembered_over, message::specs::Performed::answer_in, message::specs::Answer::refused_with, message::specs::Answer::accepted_with))]
pub fn hand_back(remembered: &mut [u16], answer: &mut [u16], performed: Performed) -> u16
    ensures number { result ≡ (answer_in performed).number }
    ensures remembered { remembered.new ≡ remembered_over performed remembered.old }
    ensures answer { answer.new ≡ over answer.old (answer_words (answer_in performed)) }
{
    match performed {
        Performed::Refused(number) => {
            put_refusal(answer, number);
            number
        }
        Performed::Done(plan) => {
            put_remembered(remembered, plan.remembered);
            put_answer(answer, accepted_with(plan));
            0
        }
    }
}
