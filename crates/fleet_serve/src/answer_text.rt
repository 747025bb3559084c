// The texts of answers.
ghost use Rattle.std.specs.Prelude.{◌≡◌, ◌∷◌, ◌++◌, ◌+◌, [], All, OnOk, IfOk};
ghost use Rattle.fleet_base.specs.Plan.{IsOnRoute};
ghost use Rattle.fleet_base.specs.Bytes.{text_of_lines};
ghost use Rattle.report_text.specs.declared.answer.Answer.TheVariants.{Done};
ghost use Rattle.report_text.specs.AnswerLine.{answer_line, answer_text};
ghost use Rattle.fleet_serve.specs.Lines.{release_lines};

use fleet_base::{Memory, SoundPlan, Text, Visit};
use report_text::{Answer, push_answer};
use std::alloc::Global;

/// The text of one line.
pub fn line_text(alloc: Global, answer: Answer) -> Result<Text, Memory>
    ensures { IfOk result (λ text. text ≡ text_of_lines (answer_line answer ∷ [])) }
{
    let mut text = Text::new(alloc);
    push_answer(&mut text, &answer)?;
    Ok(text)
}

/// The text of an accepted report, behind a text that tells what was chosen for it: its releases and its number.
pub fn entry_text(
    plan: &SoundPlan,
    told: Text,
    releases: &[Visit],
    count: u64,
) -> Result<Text, Memory>
    requires { All (λ v. IsOnRoute plan.now v) releases.now }
    ensures { IfOk result (λ text. text ≡ told ++ text_of_lines (release_lines plan.now releases.now ++ answer_line (Done count) ∷ [])) }
{
    let mut text = told;
    for visit in releases {
        push_release(&mut text, plan, *visit)?;
    }
    push_answer(&mut text, &Answer::Done { count })?;
    Ok(text)
}

/// Appends the line that releases a visit.
pub fn push_release(text: &mut Text, plan: &SoundPlan, visit: Visit) -> Result<(), Memory>
    requires { IsOnRoute plan.now visit }
    ensures { OnOk result (text.new ≡ text.old ++ text_of_lines (release_lines plan.now (visit ∷ []))) }
{
    let cell = plan.cell(visit);
    push_answer(text, &Answer::Release { visit, cell })
}
