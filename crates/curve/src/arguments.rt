// The program's arguments: none, or COEFFICIENTS SUB-PROFILE HOLIDAY...
use anyhow::{Context, anyhow, ensure};
use calendar::date_on;
use std::{env, fs};
use text_fields::{day, decimal};

// By what the half-hours weigh.
#[derive(Drop)]
pub(crate) struct Weighting {
    pub(crate) list: Vec<u16>,
    // a number from the user; one past 7 is refused when it is read
    pub(crate) sub_profile: u8,
    pub(crate) holidays: Vec<u32>,
}

// None where every half-hour weighs the same.
pub(crate) fn read(rt: &HostRuntime) -> anyhow::Result<Option<Weighting>> {
    let mut words = env::args(rt)?.skip(1);
    let Some(path) = words.next() else {
        return Ok(None);
    };
    let sub_profile = words
        .next()
        .context("usage: curve [COEFFICIENTS SUB-PROFILE HOLIDAY...]")?;
    let sub_profile = sub_profile_of(sub_profile.as_str())?;
    let holidays = words
        .map(|word| holiday_of(word.as_str()))
        .try_collect(rt.alloc())?;
    let list = coefficients_of(rt, path.as_str())?;
    Ok(Some(Weighting {
        list,
        sub_profile,
        holidays,
    }))
}

fn sub_profile_of(text: &str) -> anyhow::Result<u8> {
    let sub_profile = decimal(text.as_bytes()).and_then(|number| u8::try_from(number).ok());
    sub_profile
        .filter(|number| *number < 8)
        .context("the sub-profile is a number from 0 to 7")
}

fn holiday_of(text: &str) -> anyhow::Result<u32> {
    day(text.as_bytes()).and_then(date_on).context(format_args!(
        "{text}: a holiday is a day of 2001 to 2099, as 2007-05-01"
    ))
}

// The 3,160 numbers of a file, parted by spaces or line ends.
fn coefficients_of(rt: &HostRuntime, path: &str) -> anyhow::Result<Vec<u16>> {
    let text = fs::read_to_string(rt, path)?;
    let mut list = Vec::new(rt.alloc());
    for (place, word) in text.as_str().split_whitespace().enumerate() {
        let coefficient = word.parse::<u16>().map_err(|_| anyhow!(
            "{path}: number {place} from 0, {word}, is none from 0 to 65535"
        ))?;
        list.push(coefficient)?;
    }
    let count = list.len();
    ensure!(count == 3_160, "{path}: {count} numbers; 3160 are wanted");
    Ok(list)
}
