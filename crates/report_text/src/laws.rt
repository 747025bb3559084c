//! Laws of the lines. Each stands in the clause of a function that does nothing.
ghost use Rattle.std.specs.Prelude.{◌≡◌, ◌≤◌, ℕ, List, length, All};
ghost use Rattle.fleet_base.specs.declared.report.Report.{Report};
ghost use Rattle.report_text.specs.declared.answer.Answer.{Answer};
ghost use Rattle.report_text.specs.ReportLine.{IsReportLine, report_line};
ghost use Rattle.report_text.specs.AnswerLine.{IsAnswerLine, answer_line};

/// A line names one report.
pub fn one_report_a_line()
    ensures { (line : List ℕ) (a b : Report) → IsReportLine line a → IsReportLine line b → a ≡ b }
{}

/// A line names one answer, so an answer that was written is read again.
pub fn one_answer_a_line()
    ensures { (line : List ℕ) (a b : Answer) → IsAnswerLine line a → IsAnswerLine line b → a ≡ b }
{}

/// A report line has at most 89 bytes.
pub fn report_lines_are_short()
    ensures { (line : List ℕ) (report : Report) → IsReportLine line report → length line ≤ 89 }
{}

/// No line holds a control character, so none holds a line end.
pub fn lines_are_plain()
    ensures reports { (report : Report) → All (λ c. 32 ≤ c) (report_line report) }
    ensures answers { (answer : Answer) → All (λ c. 32 ≤ c) (answer_line answer) }
{}
