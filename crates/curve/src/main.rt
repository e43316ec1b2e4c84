// curve: reads two readings of one dial from standard input and prints the energy of each half-hour between them. Without
// arguments every half-hour weighs the same; with a coefficient file, a sub-profile and holidays it shares by those.
#![tactic(auto)]

use anyhow::{Context, anyhow, bail};
use arguments::Weighting;
use calendar::civil_date;
use coefficients::Coefficients;
use readings::spans::Span;
use readings::{Problem, Reading, total};
use sources::Flat;

mod arguments;

fn main(rt: HostRuntime) -> anyhow::Result<()> {
    run(&rt)
}

fn run(rt: &HostRuntime) -> anyhow::Result<()> {
    let weighting = arguments::read(rt)?;
    let span = read_span(rt)?;
    let curve = curve_of(rt, &span, &weighting)?.context(
        "all weights of the sub-profile are 0 in these days, so nothing can be shared by them",
    )?;
    print_curve(rt, span.first_date(), curve.as_slice())
}

fn curve_of(
    rt: &HostRuntime,
    span: &Span,
    weighting: &Option<Weighting>,
) -> anyhow::Result<Option<Vec<u32>>> {
    let half_hours = span.half_hours() as usize;
    let Some(weighting) = weighting else {
        return Ok(span.curve(rt.alloc(), &Flat::over(half_hours), 0)?);
    };
    let source = Coefficients::over(
        weighting.list.as_slice(),
        span.first_date(),
        half_hours / 48,
        weighting.holidays.as_slice(),
    );
    Ok(span.curve(rt.alloc(), &source, weighting.sub_profile)?)
}

// The span between the two readings of the input. Empty lines and lines that begin with # are passed over.
fn read_span(rt: &HostRuntime) -> anyhow::Result<Span> {
    let mut first: Option<Reading> = None;
    let mut span: Option<Span> = None;
    // As in replay_list, with which this program shares no library; what they do with a line differs.
    for (number, line) in (1u64..).zip(rt.lines(rt.alloc())) {
        let line = line?;
        if is_passed_over(line.as_bytes()) {
            continue;
        }
        let reading = at_line(number, Reading::from_line(line.as_bytes()))?;
        match (first, span) {
            (None, _) => first = Some(reading),
            (Some(earlier), None) => span = Some(at_line(number, Span::between(earlier, reading))?),
            (Some(_), Some(_)) => bail!(
                "line {number}: a third reading; the curve runs between two"
            ),
        }
    }
    span.context("two readings are needed, each on a line as 2007-01-01 12000")
}

fn is_passed_over(line: &[u8]) -> bool {
    line.is_empty() || line.starts_with(b"#")
}

// What was read, or an error that names the line.
fn at_line<T: Drop>(number: u64, read: Result<T, Problem>) -> anyhow::Result<T> {
    read.map_err(|problem| anyhow!("line {number}: {problem}"))
}

fn print_curve(rt: &HostRuntime, first_date: u32, curve: &[u32]) -> anyhow::Result<()> {
    for (t, figure) in curve.iter().enumerate() {
        let date = u64::from(first_date) + t as u64 / 48;
        let hour = t % 48 / 2;
        let minute = t % 2 * 30;
        let civil = civil_date(u32::try_from(date)?).context("a day past the calendar")?;
        println!(rt; "{civil} {hour:02}:{minute:02} {figure}")?;
    }
    let sum = total(curve);
    println!(rt; "total {sum}")?;
    Ok(())
}
