//! Times as dates of the Gregorian calendar, in UTC.
ghost use Rattle.std.specs.Prelude.{◌≡◌, ◌<◌, ◌≤◌, pos, ◌+ℤ◌, IfSome, MatchOption};
ghost use Rattle.gauges.specs.Calendar.{days_to, ms_to, OutOfYears};

use std::fmt;

/// A moment of the years 1 to 9999, to the millisecond.
#[derive(Clone, Copy, Debug, PartialEq, Eq)]
pub struct Moment {
    pub date: Date,
    pub hour: u64,
    pub minute: u64,
    pub second: u64,
    pub ms: u64,
}

/// A day.
#[derive(Clone, Copy, Debug, PartialEq, Eq)]
pub struct Date {
    pub year: u64,
    pub month: u64,
    pub day: u64,
}

/// 0001-01-01 00:00:00.000, in milliseconds since the epoch.
const FIRST: i64 = -62_135_596_800_000;

/// 9999-12-31 23:59:59.999.
const LAST: i64 = 253_402_300_799_999;

/// How many milliseconds before the epoch the 1st of March of the year 0 begins.
const BEFORE: i64 = 62_162_035_200_000;

/// The date of the day that comes so many days after the 1st of March of the year 0.
///
/// Years are counted from March, so that a leap day is a year's last: 400 years have 146097 days, and the months of five
/// from March, August or January on have 153.
pub fn date_after(days: u64) -> Date
    ensures date { days_to result ≡ days }
    ensures month { (1 ≤ result.month) × (result.month ≤ 12) }
    ensures day { (1 ≤ result.day) × (result.day ≤ 31) }
{
    let quarters = days % 146_097 * 4 + 3;
    let century = quarters / 146_097;
    let quarters = quarters % 146_097 / 4 * 4 + 3;
    let year = days / 146_097 * 400 + century * 100 + quarters / 1461;
    let fifths = quarters % 1461 / 4 * 5 + 461;
    let month = fifths / 153;
    let day = fifths % 153 / 5 + 1;
    if month > 12 {
        Date {
            year: year + 1,
            month: month - 12,
            day,
        }
    } else {
        Date { year, month, day }
    }
}

/// The moment so many milliseconds after the epoch, 1970-01-01 00:00; none outside the years 1 to 9999.
pub fn moment_at(ms: i64) -> Option<Moment>
    ensures value { MatchOption result (OutOfYears ms) (λ m. pos (ms_to m) ≡ ms +ℤ pos 62162035200000) }
    ensures clock { IfSome result (λ m. (m.hour < 24) × (m.minute < 60) × (m.second < 60) × (m.ms < 1000)) }
{
    if !(FIRST..=LAST).contains(&ms) {
        return None;
    }
    let since = (ms + BEFORE) as u64;
    Some(Moment {
        date: date_after(since / 86_400_000),
        hour: since / 3_600_000 % 24,
        minute: since / 60_000 % 60,
        second: since / 1000 % 60,
        ms: since % 1000,
    })
}

impl fmt::Display for Date {
    fn fmt<W: fmt::Write>(&self, f: &mut fmt::Formatter<W>) -> fmt::Result {
        let Date { year, month, day } = *self;
        write!(f, "{year:04}-{month:02}-{day:02}")
    }
}

impl fmt::Display for Moment {
    fn fmt<W: fmt::Write>(&self, f: &mut fmt::Formatter<W>) -> fmt::Result {
        let Moment {
            date,
            hour,
            minute,
            second,
            ms,
        } = *self;
        write!(f, "{date} {hour:02}:{minute:02}:{second:02}.{ms:03}")
    }
}

#[cfg(test)]
mod tests {
    use super::*;
    use std::test::Fail;

    fn date(year: u64, month: u64, day: u64) -> Option<Date> {
        Some(Date { year, month, day })
    }

    #[test]
    fn days_of_the_calendar(rt: HostRuntime) {
        let days = [
            (0, date(1970, 1, 1)),
            (-1, date(1969, 12, 31)),
            (951_782_400_000, date(2000, 2, 29)),
            (951_868_800_000, date(2000, 3, 1)),
            (-2_203_891_200_000, date(1900, 3, 1)),
            (-62_135_596_800_000, date(1, 1, 1)),
            (-62_135_596_800_001, None),
            (253_402_300_799_999, date(9999, 12, 31)),
            (253_402_300_800_000, None),
        ];
        for (ms, day) in days {
            assert_eq!(rt; moment_at(ms).map(|m| m.date), day);
        }
    }

    #[test]
    fn printed(rt: HostRuntime) -> Result<(), Fail> {
        let moment = moment_at(1_717_200_008_571).ok_or("no date")?;
        let text = format!(in rt.alloc(); "{moment}")?;
        assert!(rt; text.as_str() == "2024-06-01 00:00:08.571");
        Ok(())
    }
}
