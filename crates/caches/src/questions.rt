// Questions that a run asks, and what it found.
ghost use Rattle.std.specs.Prelude.{◌≡◌, false, Decides};
ghost use Rattle.caches.specs.Sameness.{question_numbers};

use crate::caches::MOST_ANSWERS;
use crate::places::Place;
use arrayvec::ArrayVec;
use values::Number;

// The kinds of values.
#[derive(Clone, Copy, PartialEq, Eq)]
pub enum ValueKind {
    Text,
    Truth,
    Binding,
}

// A question: what a run depended on. An entry serves again where each of its questions finds what it found then.
#[derive(Clone, Copy, PartialEq, Eq)]
pub enum Question {
    // Which value stands at the place, or none; its letter is `N`.
    Same(Place),
    // Which kind of value stands at the place, or none; its letter is `T`.
    Kind(Place),
    // Whether anything stands at the place; its letter is `!`.
    Presence(Place),
    // Which text the function of this name has, or none; its letter is `E`.
    Function(Number),
}

// What was found: the answer to a question, in the same order.
#[derive(Clone, Copy, PartialEq, Eq)]
pub enum Found {
    Value(Option<Number>),
    Kind(Option<ValueKind>),
    Presence(bool),
    Text(Option<Number>),
}

// A question with what was found.
#[derive(Clone, Copy, PartialEq, Eq)]
pub struct Answered {
    pub question: Question,
    pub found: Found,
}

// The answers of an entry, in the order in which the questions were asked.
pub type Answers = ArrayVec<Answered, MOST_ANSWERS>;

// What stands in an unused place of a row of answers.
impl Default for Answered {
    ghost use Rattle.caches.specs.declared.questions.Question.{Question};
    ghost use Rattle.caches.specs.declared.questions.Found.{Found};

    ghost is_default = { λ a. (a.question ≡ Question.Function 0) × (a.found ≡ Found.Presence false) };

    fn default() -> Answered {
        Answered {
            question: Question::Function(0),
            found: Found::Presence(false),
        }
    }
}

// Whether two questions are the same. It is `==`, and stays beside it for its contract, which no derive can name:
// it tells whether the questions' numbers are the same.
pub fn same_question(a: &Question, b: &Question) -> bool
    ensures { Decides result (question_numbers a.now ≡ question_numbers b.now) }
{
    *a == *b
}

// Whether the same was found. It is `==`, and stays beside it for its contract, which no derive can name:
// it holds exactly of equal values.
#[tactic(auto, using(crate::proofs::Deciding::found_decides))]
pub fn same_found(x: &Found, y: &Found) -> bool
    ensures { Decides result (x.now ≡ y.now) }
{
    *x == *y
}
