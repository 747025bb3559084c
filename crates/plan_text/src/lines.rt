ghost use Rattle.std.specs.Prelude.{◌≡◌, ◌<◌, ◌≤◌, ◌↔◌, [], ◌∷◌, length, IsTrue, IfNone, IfSome};
ghost use Rattle.plan_text.specs.PlanText.{robot_lines};

use fleet_base::first_line;

/// The next line of a text that is to be a robot's, and the text behind it. Empty lines at the end are no lines of robots.
pub fn next_line(text: &[u8]) -> Option<(&[u8], &[u8])>
    ensures none { IfNone result (robot_lines text.now ≡ []) }
    ensures lines { IfSome result (λ next. robot_lines text.now ≡ next.0.now ∷ robot_lines next.1.now) }
    ensures line { IfSome result (λ next. length next.0.now ≤ length text.now) }
    ensures rest { IfSome result (λ next. length next.1.now < length text.now) }
{
    let (line, rest) = first_line(text)?;
    if line.is_empty() && is_blank(rest) {
        return None;
    }
    Some((line, rest))
}

/// Whether a text has no line, or empty lines only.
fn is_blank(text: &[u8]) -> bool
    ensures { IsTrue result ↔ (robot_lines text.now ≡ []) }
{
    let mut rest = text;
    while let Some((line, after)) = first_line(rest) {
        if !line.is_empty() {
            return false;
        }
        rest = after;
    }
    true
}
