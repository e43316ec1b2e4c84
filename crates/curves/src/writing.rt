// Writing the figures of spans into the places of their half-hours.
ghost use Rattle.std.specs.Prelude.{◌≡◌, ◌*◌, ◌<◌, ◌≤◌, length};
ghost use Rattle.book.specs.Books.{setup};
ghost use Rattle.judgements.specs.Judgements.{meaning};
ghost use Rattle.curves.specs.Asking.{half_hours};
ghost use Rattle.curves.specs.Writing.{SpanWritten, SpansWritten, SharedOut, Cleared};

use crate::half_hours_of;
use judgements::MeteredDial;
use sharing::Sharing;
use sources::ProfileSource;
use spans::DialSpan;

// Writes the figures of an energy that is shared over half-hours by their weights, which add to `all`.
fn share_out(energy: u32, all: u64, weights: &[u32], figures: &mut [u32])
    requires { length weights.now ≡ length figures.old }
    ensures { SharedOut energy all weights.now figures.new }
{
    if let Some(sharing) = Sharing::over(energy, all) {
        sharing.write_figures(weights, figures);
    }
}

// Writes the figures of a span of a dial, as one is found there. The weights are an array of the caller's, of the length of
// the longest book.
fn write_span<S: ProfileSource>(
    metered: &MeteredDial<'_, S>,
    span: DialSpan,
    weights: &mut [u32; 1680],
    figures: &mut [u32],
)
    requires forward { span.from < span.to }
    requires few { span.to ≤ 35 }
    requires covered { 48 * span.to ≤ S.covers metered.now.source.now }
    requires places { 48 * span.to ≤ length figures.old }
    ensures { SpanWritten (meaning S.weighs metered.now) span.from span.to span.energy figures.old figures.new }
{
    let judgement = metered.judge(span, weights);
    share_out(
        span.energy,
        judgement.all,
        &weights[span.half_hours()],
        &mut figures[span.half_hours()],
    );
}

// Writes 0 into the first places.
fn clear(figures: &mut [u32], count: usize)
    requires { count ≤ length figures.old }
    ensures { Cleared count figures.old figures.new }
{
    figures[..count].fill(0);
}

// Writes the figures of all spans of a dial, and 0 outside them.
pub(crate) fn write_curve<S: ProfileSource>(metered: &MeteredDial<'_, S>, figures: &mut [u32])
    requires covered { half_hours (setup metered.now.at.book.now) ≤ S.covers metered.now.source.now }
    requires places { half_hours (setup metered.now.at.book.now) ≤ length figures.old }
    ensures { SpansWritten (meaning S.weighs metered.now) (setup metered.now.at.book.now).days (setup metered.now.at.book.now).days figures.old figures.new }
{
    let mut weights = [0u32; 1680];
    clear(figures, half_hours_of(metered.at.book));
    for day in 0..metered.at.book.days() {
        if let Some(span) = metered.at.span_beginning(day) {
            write_span(metered, span, &mut weights, figures);
        }
    }
}
