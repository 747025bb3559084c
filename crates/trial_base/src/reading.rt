// What a session says, read line by line.
ghost use Rattle.std.specs.Prelude.{◌≡◌, None, filter_map};
ghost use Rattle.std.specs.List.{last_or};
ghost use Rattle.trial_base.specs.Kept.{count_in};

use report_text::{Answer, read_answer};
use std::alloc::Global;
use std::test::Fail;

/// The answers in what a session sent, but for the lines of certificates. A piece without a line end is no line.
pub fn answers_in(alloc: Global, sent: &[u8]) -> Result<Vec<Answer>, Fail> {
    let mut answers = Vec::new(alloc);
    let mut line = Vec::new(alloc);
    for byte in sent {
        if *byte != b'\n' {
            line.push(*byte)?;
            continue;
        }
        if !line.starts_with(b"cert ") {
            let answer = read_answer(line.as_slice()).ok_or("a line that is an answer")?;
            answers.push(answer)?;
        }
        line.clear();
    }
    Ok(answers)
}

/// How many reports are kept for certain, by the last answer that says so.
pub fn kept_by(answers: &[Answer]) -> Option<u64>
    ensures { result ≡ last_or None (filter_map count_in answers.now) }
{
    let mut kept = None;
    for answer in answers {
        if let Answer::Ready { count } | Answer::Done { count } = *answer {
            kept = Some(count);
        }
    }
    kept
}
