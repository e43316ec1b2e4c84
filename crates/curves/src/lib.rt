// The half-hourly curve of a dial, and the usage factor of its span around a day. docs/spans.md has the rules.
#![tactic(auto)]

ghost use Rattle.std.specs.Prelude.{◌≡◌, ◌≤◌, length, OnOk};
ghost use Rattle.book.specs.Books.{setup, contents, answered};
ghost use Rattle.book_rules.specs.Tests.{first as first_test};
ghost use Rattle.judgements.specs.Judgements.{meaning};
ghost use Rattle.curves.specs.Asking.{half_hours, metering_tests, curve_tests, factor_tests};
ghost use Rattle.curves.specs.Answers.{CurveAnswer, FactorAnswer};

use book::store::Book;
use factors::sets::usage_factor_of;
use judgements::MeteredDial;
use profiles::Dial;
use refusals::Refusal;
use sources::ProfileSource;
use writing::write_curve;

mod writing;

// The half-hours of a book's days.
pub(crate) fn half_hours_of(book: &Book) -> usize
    ensures { result ≡ half_hours (setup book.now) }
{
    48 * usize::from(book.days())
}

// What is asked for a curve and for a factor alike: that there is such a dial, and that the source covers the book.
fn check_metering<S: ProfileSource>(metered: &MeteredDial<'_, S>) -> Result<(), Refusal>
    ensures value { answered result ≡ first_test (metering_tests (setup metered.now.at.book.now) (S.covers metered.now.source.now) metered.now.at.dial) }
    ensures known { OnOk result (S.covers metered.now.source.now ≡ half_hours (setup metered.now.at.book.now)) }
{
    Dial::try_from(metered.at.dial)?;
    if metered.source.covered() != half_hours_of(metered.at.book) {
        return Err(Refusal::CoverageDiffers);
    }
    Ok(())
}

fn check_curve<S: ProfileSource>(metered: &MeteredDial<'_, S>, places: usize) -> Result<(), Refusal>
    ensures value { answered result ≡ first_test (curve_tests (setup metered.now.at.book.now) (S.covers metered.now.source.now) places metered.now.at.site metered.now.at.dial) }
    ensures known { OnOk result ((half_hours (setup metered.now.at.book.now) ≤ places) × (S.covers metered.now.source.now ≡ half_hours (setup metered.now.at.book.now))) }
{
    if places < half_hours_of(metered.at.book) {
        return Err(Refusal::BufferTooShort);
    }
    if metered.at.site >= metered.at.book.sites() {
        return Err(Refusal::UnknownSite);
    }
    check_metering(metered)
}

// Writes the curve of a dial, a figure in Wh for each half-hour of the book's days and 0 outside spans, and answers the
// days of the dial's first and last index, or nothing if fewer than two stand. Further places stay.
pub fn curve<S: ProfileSource>(
    metered: &MeteredDial<'_, S>,
    figures: &mut [u32],
) -> Result<Option<(u8, u8)>, Refusal>
    ensures { CurveAnswer (setup metered.now.at.book.now) (contents metered.now.at.book.now) (meaning S.weighs metered.now) (S.covers metered.now.source.now) (length figures.old) metered.now.at.site metered.now.at.dial figures.old result figures.new }
{
    check_curve(metered, figures.len())?;
    write_curve(metered, figures);
    Ok(metered.at.index_days())
}

fn check_factor<S: ProfileSource>(metered: &MeteredDial<'_, S>, day: u8) -> Result<(), Refusal>
    ensures value { answered result ≡ first_test (factor_tests (setup metered.now.at.book.now) (S.covers metered.now.source.now) metered.now.at.site metered.now.at.dial day) }
    ensures known { OnOk result (S.covers metered.now.source.now ≡ half_hours (setup metered.now.at.book.now)) }
{
    if metered.at.site >= metered.at.book.sites() {
        return Err(Refusal::UnknownSite);
    }
    if day >= metered.at.book.days() {
        return Err(Refusal::DayOutOfRange);
    }
    check_metering(metered)
}

// The usage factor of a dial's span around a day, as the pair 20,000·E and S; nothing without a span or under an
// anomaly.
pub fn factor<S: ProfileSource>(
    metered: &MeteredDial<'_, S>,
    day: u8,
) -> Result<Option<(u64, u64)>, Refusal>
    ensures { FactorAnswer (setup metered.now.at.book.now) (contents metered.now.at.book.now) (meaning S.weighs metered.now) (S.covers metered.now.source.now) metered.now.at.site metered.now.at.dial day result }
{
    check_factor(metered, day)?;
    let Some(span) = metered.at.span_around(day) else {
        return Ok(None);
    };
    let mut weights = [0u32; 1680];
    let judgement = metered.judge(span, &mut weights);
    // a match, since the two answers have each their own reason
    match judgement.account {
        Ok(_) => Ok(Some(usage_factor_of(span.energy, judgement.all))),
        Err(_) => Ok(None),
    }
}
