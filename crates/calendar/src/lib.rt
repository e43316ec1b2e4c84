// The calendar of the load profiles: dates from 1 January 2001 to 31 December 2099, their year, month and day, and their
// place in the profile year. docs/calendar.md has the rules.
#![tactic(auto)]

ghost use Rattle.std.specs.Prelude.{◌≡◌, ◌<◌, ◌≤◌, if◌then◌else◌, Some, None, nat_le, MatchOption};
ghost use Rattle.calendar.specs.Dates.{leap, date_of, civil_of, in_calendar, begun, new_year, year_of, day_of_year, month_of, day_of_month, month_length, days_before_month};
ghost use Rattle.calendar.specs.Places.{holiday, summer_holiday, bridging, weekday, week_of, day_counted, place_of};
ghost use Rattle.calendar.specs.Laws.{OneCalendar, Months, Weeks};

use std::fmt;

// The last date: 31 December 2099.
pub const LAST_DATE: u32 = 36_158;

// A day as the calendar names it.
#[derive(Clone, Copy, PartialEq, Eq, Debug)]
pub struct CivilDate {
    pub year: u16,
    pub month: u8,
    pub day: u8,
}

// As 2007-04-30.
impl fmt::Display for CivilDate {
    fn fmt<W: fmt::Write>(&self, f: &mut fmt::Formatter<W>) -> fmt::Result {
        write!(f, "{:04}-{:02}-{:02}", self.year, self.month, self.day)
    }
}

// The place of a date in the profile year: the profile week, 1 to 52, and the day of the week as which it counts,
// 1 Monday to 7 Sunday. The default, week 0 and day 0, is the place of no date.
#[derive(Clone, Copy, PartialEq, Eq, Debug, Default)]
pub struct Place {
    pub week: u8,
    pub day: u8,
}

// The days of a common year before each month.
const MONTH_STARTS: [u32; 12] = [0, 31, 59, 90, 120, 151, 181, 212, 243, 273, 304, 334];

fn is_leap(year: u16) -> bool
    ensures { result ≡ leap year }
{
    year % 4 == 0
}

fn new_year_of(year: u16) -> u32
    requires { 2001 ≤ year }
    ensures { result ≡ new_year year }
{
    let years = u32::from(year) - 2001;
    365 * years + years / 4
}

// The days of the year before a month.
fn days_before(year: u16, month: u8) -> u32
    requires { (1 ≤ month) × (month ≤ 12) }
    ensures value { result ≡ days_before_month year month }
    ensures bound { result ≤ 65536 }
{
    MONTH_STARTS[usize::from(month - 1)] + u32::from(is_leap(year) && month > 2)
}

fn length_of_month(year: u16, month: u8) -> u8
    ensures { result ≡ month_length year month }
{
    match month {
        2 if is_leap(year) => 29,
        2 => 28,
        4 | 6 | 9 | 11 => 30,
        _ => 31,
    }
}

// How many months of the year have begun by a day of it, counted from 0.
fn months_begun(year: u16, day_of_year: u32) -> u8
    ensures value { result ≡ begun (days_before_month year) day_of_year 12 }
    ensures bound { result ≤ 12 }
{
    (1..13)
        .map(|month| u8::from(days_before(year, month) <= day_of_year))
        .sum()
}

impl CivilDate {
    fn is_in_calendar(self) -> bool
        ensures { result ≡ in_calendar self }
    {
        matches!(self.year, 2001..=2099)
            && matches!(self.month, 1..=12)
            && (1..=length_of_month(self.year, self.month)).contains(&self.day)
    }
}

// A date that the calendar has.
#[derive(Clone, Copy)]
struct Date {
    days: u32,
    ghost bounded: { days ≤ 36158 },
}

impl Date {
    fn of(days: u32) -> Option<Date>
        ensures { MatchOption result (36158 < days) (λ d. (d.days ≡ days) × (days ≤ 36158)) }
    {
        // No `then`: in its closure, past the test, that the date is bounded (`invariant_of-result`) stays open.
        if days > LAST_DATE {
            return None;
        }
        Some(Date { days })
    }

    fn year(self) -> u16
        ensures value { result ≡ year_of self.days }
        ensures low { 2001 ≤ result }
        ensures begun { new_year result ≤ self.days }
    {
        let in_four_years = self.days % 1461 / 365;
        (2001 + 4 * (self.days / 1461) + in_four_years.min(3)) as u16
    }

    // 1 January of its year.
    fn new_year(self) -> Date
        ensures value { result.days ≡ new_year (year_of self.days) }
        ensures begun { result.days ≤ self.days }
    {
        Date {
            days: new_year_of(self.year()),
        }
    }

    // Days since 1 January of its year.
    fn day_of_year(self) -> u32
        ensures { result ≡ day_of_year self.days }
    {
        self.days - self.new_year().days
    }

    // 1 Monday to 7 Sunday.
    fn weekday(self) -> u8
        ensures { result ≡ weekday self.days }
    {
        (1 + self.days % 7) as u8
    }

    fn month(self) -> u8
        ensures value { result ≡ month_of self.days }
        ensures low { 1 ≤ result }
        ensures high { result ≤ 12 }
    {
        months_begun(self.year(), self.day_of_year())
    }

    fn day_of_month(self) -> u8
        ensures { result ≡ day_of_month self.days }
    {
        (self.day_of_year() - days_before(self.year(), self.month()) + 1) as u8
    }

    fn civil(self) -> CivilDate
        ensures { result ≡ civil_of self.days }
    {
        CivilDate {
            year: self.year(),
            month: self.month(),
            day: self.day_of_month(),
        }
    }

    fn week(self) -> u8
        ensures { result ≡ week_of self.days }
    {
        let since_monday = u32::from(self.new_year().weekday()) - 1 + self.day_of_year();
        (1 + since_monday / 7 % 52) as u8
    }

    fn is_holiday(self, holidays: &[u32]) -> bool
        ensures { result ≡ holiday holidays.now self.days }
    {
        holidays.contains(&self.days)
    }

    fn is_summer_holiday(self, holidays: &[u32]) -> bool
        ensures { result ≡ summer_holiday holidays.now self.days }
    {
        self.is_holiday(holidays) && (4..=9).contains(&self.month())
    }

    fn is_bridging(self, holidays: &[u32]) -> bool
        ensures { result ≡ bridging holidays.now self.days }
    {
        let bridged = match self.weekday() {
            1 => Date::of(self.days + 1),
            5 => Date::of(self.days - 1),
            _ => None,
        };
        bridged.is_some_and(|date| date.is_summer_holiday(holidays))
    }

    // The day of the week as which it counts.
    fn counted_day(self, holidays: &[u32]) -> u8
        ensures { result ≡ day_counted holidays.now self.days }
    {
        if self.is_holiday(holidays) {
            7
        } else if self.is_bridging(holidays) {
            6
        } else {
            self.weekday()
        }
    }
}

// The date of a day of the calendar; none for a day that the years 2001 to 2099 do not have.
pub fn date_on(civil: CivilDate) -> Option<u32>
    ensures { result ≡ date_of civil }
{
    let CivilDate { year, month, day } = civil;
    civil.is_in_calendar().then(|| {
        new_year_of(year) + days_before(year, month) + (u32::from(day) - 1)
    })
}

// Year, month and day of a date; none past the last date.
pub fn civil_date(date: u32) -> Option<CivilDate>
    ensures { result ≡ (if nat_le date 36158 then Some (civil_of date) else None) }
{
    Date::of(date).map(Date::civil)
}

// The place of a date in the profile year, under a list of public holidays; none past the last date.
pub fn place_of(date: u32, holidays: &[u32]) -> Option<Place>
    ensures { result ≡ place_of holidays.now date }
{
    let date = Date::of(date)?;
    Some(Place {
        week: date.week(),
        day: date.counted_day(holidays),
    })
}

// Every date has one year, month and day, and they have that date.
pub fn dates_and_days_agree()
    ensures { OneCalendar }
{}

// The days before the months grow by the months' lengths, up to the whole year.
pub fn months_fill_the_year()
    ensures { Months }
{}

// Weeks are numbered 1 to 52, days 1 to 7, and a week begins on 1 January or on a Monday.
pub fn weeks_follow_the_calendar()
    ensures { Weeks }
{}
