//! What is written of a history that was searched.
use history_lines::{Finding, Found, Recorded, Verdict};
use std::io;
use std::io::Write;

// The line of this number.
fn line_at(lines: &[Recorded], number: u64) -> Option<&Recorded> {
    let place = lines.partition_point(|line| line.number < number);
    lines.get(place)
}

// The number of a line, and its text.
fn write_line<W: Write>(output: &mut W, line: &Recorded) -> io::Result<()> {
    write!(output, "{}: ", line.number)?;
    output.write_all(line.text.as_slice())?;
    output.write_all(b"\n")
}

// The text of the line of this number, below a finding.
fn write_below<W: Write>(output: &mut W, lines: &[Recorded], number: u64) -> io::Result<()> {
    match line_at(lines, number) {
        Some(line) => {
            output.write_all(b"  ")?;
            write_line(output, line)
        }
        None => Ok(()),
    }
}

// A finding, with the texts of its lines.
fn write_finding<W: Write>(
    output: &mut W,
    lines: &[Recorded],
    finding: &Finding,
) -> io::Result<()> {
    let broken = Verdict::Broken(finding.line, finding.clash);
    writeln!(output, "{broken}")?;
    write_below(output, lines, finding.line)?;
    match finding.clash.by {
        Some(by) => write_below(output, lines, by),
        None => Ok(()),
    }
}

/// Writes the lines, if they are to be shown, and then each finding; or the verdict, if there is none.
pub fn write_found<W: Write>(output: &mut W, found: &Found, with_lines: bool) -> io::Result<()> {
    if with_lines {
        for line in &found.lines {
            write_line(output, line)?;
        }
    }
    for finding in &found.findings {
        write_finding(output, found.lines.as_slice(), finding)?;
    }
    if found.findings.is_empty() {
        writeln!(output, "{}", found.verdict)?;
    }
    Ok(())
}
