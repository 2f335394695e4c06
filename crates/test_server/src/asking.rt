//! When a patient server asks, and when it tells.
use crate::comparing::same;
use server_pace::{Asking, Telling};
use std::process::Abort;

/// How many values became known since the last question, whether nothing waits, whether nobody tries a value,
/// whether the server is behind, whether it lacks something, whether its time to ask for that has passed,
/// whether its time since the last question has passed; and whether a question is due.
type Question = (u32, bool, bool, bool, bool, bool, bool, bool);

const QUESTIONS: &[Question] = &[
    (0, true, true, false, false, false, false, false),
    (0, false, false, false, false, false, true, true),
    (1, true, true, false, false, false, false, true),
    (1, true, false, false, true, true, false, false),
    (1, true, false, true, true, false, false, true),
    (100_000, false, true, true, true, true, false, false),
    (0, true, false, true, true, false, false, false),
    (0, true, false, true, true, true, false, true),
    (0, true, true, false, false, true, false, false),
    (0, false, true, true, true, true, false, false),
    (0, false, true, true, true, true, true, true),
];

#[test]
fn a_question_that_brought_news_is_followed_by_the_next(rt: HostRuntime) {
    for &(learned, drained, calm, behind, lacks, waited, passed, due) in QUESTIONS {
        let asking = Asking {
            learned,
            drained,
            calm,
            behind,
            lacks,
            waited,
            passed,
        };
        same(&rt, (asking, asking.is_due()), (asking, due));
    }
}

/// Whether the telling is full, whether its node asked, whether the first instance is known, whether votes
/// may be told from there on, whether nobody tries a value, whether it is the teller's turn; and whether the
/// telling is due.
const TELLINGS: &[(bool, bool, bool, bool, bool, bool, bool)] = &[
    // Votes are told in any turn. A full telling is told at any time.
    (true, false, false, false, false, false, true),
    (false, true, false, true, true, false, true),
    (false, true, false, false, true, true, false),
    (false, true, false, true, false, true, false),
    (false, false, false, true, true, true, false),
    // What is known is told in turn.
    (true, false, true, false, false, true, true),
    (true, true, true, true, true, false, false),
    (false, true, true, false, false, true, true),
    (false, true, true, true, true, false, false),
    (false, false, true, true, true, true, false),
];

#[test]
fn what_is_known_is_told_in_turn(rt: HostRuntime) {
    for &(full, asked, known, votes, calm, turn, due) in TELLINGS {
        let telling = Telling {
            full,
            asked,
            known,
            votes,
            calm,
            turn,
        };
        same(&rt, (telling, telling.is_due()), (telling, due));
    }
}
