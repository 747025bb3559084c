ghost use Rattle.std.specs.Prelude.{◌<◌, ◌≤◌, ◌^◌, length, IfOk, OnOk, OnErr, IfErr, codes};
ghost use Rattle.fleet_base.specs.Bytes.{IsLongestFront};
ghost use Rattle.fleet_base.specs.declared.report.Report.{Report};
ghost use Rattle.fleet_base.specs.Limits.{line_limit};
ghost use Rattle.report_text.specs.Reading.{IsSpelled, Stops};
ghost use Rattle.report_text.specs.ReportLine.{IsReportLine, IsReport, BeginsReportLine};

use crate::reading::numbers_or_left;
use fleet_base::Report;
use thiserror::Error;

/// The line is no report line.
#[derive(Clone, Copy, Debug, PartialEq, Eq, Error)]
#[error("no report goes on so behind byte {at}")]
pub struct Malformed {
    /// The length of the longest front of the line that begins some report line, in bytes.
    pub at: u32,
}

/// Reads a line, without its line end, as a report: `arrive I K T` or `delay I K D T`, with one
/// space between words, and numbers without leading zeros below 2^64.
///
/// Every other line is malformed, also one that is too long.
pub fn read_report(line: &[u8]) -> Result<Report, Malformed>
    requires { length line.now < 2 ^ 32 }
    ensures read { IfOk result (IsReportLine line.now) }
    ensures within { OnOk result (length line.now ≤ line_limit) }

    ensures malformed { OnErr result ((report : Report) → IsReportLine line.now report → ⊥) }
    ensures at { IfErr result (λ e. IsLongestFront BeginsReportLine line.now e.at) }
    ensures at_within { IfErr result (λ e. e.at ≤ line_limit) }
{
    match report_or_left(line) {
        Ok(report) => Ok(report),
        Err(left) => Err(Malformed {
            at: (line.len() - left.len()) as u32,
        }),
    }
}

/// The report, or what is left of the line behind its longest front that begins a report line.
fn report_or_left(line: &[u8]) -> Result<Report, &[u8]>
    ensures ok { IfOk result (IsReportLine line.now) }
    ensures err { IfErr result (λ left. Stops IsReport line.now left.now) }
{
    if line.starts_with(b"d") {
        delay_or_left(line)
    } else {
        arrive_or_left(line)
    }
}

fn arrive_or_left(line: &[u8]) -> Result<Report, &[u8]>
    ensures ok { IfOk result (IsReportLine line.now) }
    ensures err { IfErr result (λ left. Stops (IsSpelled (codes "arrive") 3) line.now left.now) }
{
    let [robot, index, tick] = numbers_or_left::<3>(line, b"arrive")?;
    Ok(Report::Arrive { robot, index, tick })
}

fn delay_or_left(line: &[u8]) -> Result<Report, &[u8]>
    ensures ok { IfOk result (IsReportLine line.now) }
    ensures err { IfErr result (λ left. Stops (IsSpelled (codes "delay") 4) line.now left.now) }
{
    let [robot, index, extra, tick] = numbers_or_left::<4>(line, b"delay")?;
    Ok(Report::Delay {
        robot,
        index,
        extra,
        tick,
    })
}
