// Years and months of the Gregorian calendar, each worked out directly. `extra` is the number of leap days of a year, 0 or 1, which the formulas add; a month is its
// number, 1 to 12.
ghost use Rattle.std.specs.Prelude.{◌≡◌, ◌+◌, ◌^◌, ◌*◌, ◌≤◌, ◌<◌};
ghost use Rattle.calendar.specs.Gregorian.{leap_days, year_days, month_days, before, last};
ghost use Rattle.calendar.specs.Dates.{year_on};

// The days of January to December in a year without a leap day, each at its month's number.
const MONTH_DAYS: [u64; 13] = [0, 31, 28, 31, 30, 31, 30, 31, 31, 30, 31, 30, 31];

// The days before each: the sums of the days above, which the check compares.
const DAYS_BEFORE_MONTH: [u64; 13] = [0, 0, 31, 59, 90, 120, 151, 181, 212, 243, 273, 304, 334];

#[tactic(auto, unfolding(crate::specs::Gregorian::leap_days))]
pub(crate) fn leap_days(year: u64) -> u64
    ensures is { result ≡ leap_days year }
    ensures small { result < 2 }
{
    u64::from(year % 4 == 0 && (year % 100 != 0 || year % 400 == 0))
}

// The days from the start of the year 0 to the start of a year: of the years before it those that 4 divides have a leap day,
// without those that 100 divides, with those that 400 divides. `div_ceil` takes more instructions than docs/INSTRUCTIONS.md allows: a date 147 in place of 130.
#[tactic(auto, using(crate::proofs::Years::years))]
pub(crate) fn days_before_year(year: u64) -> u64
    requires { year < 2 ^ 33 }
    ensures is { result ≡ before year_days year }
    ensures small { result ≤ 366 * year + 2 }
{
    365 * year + (year + 3) / 4 + (year + 399) / 400 - (year + 99) / 100
}

// The year of the day n after the start of the year 0. 1461 days are four years with a leap day, a little over four mean years,
// so between these days the estimate is the year or the one before it. A search of the years would loop.
pub(crate) fn year_on(n: u64) -> u64
    requires from { 146000 ≤ n }
    requires to { n < 768600 }
    ensures is { result ≡ year_on n }
    ensures small { result ≤ 2104 }
    ensures begun { before year_days result ≤ n }
    ensures current { n < before year_days result + (365 + leap_days result) }
{
    let year = 4 * n / 1461;
    if days_before_year(year + 1) <= n {
        year + 1
    } else {
        year
    }
}

// The length of a month; one that does not exist has no day.
#[tactic(auto, using(crate::proofs::Months::days_in_february, crate::proofs::Months::days_in))]
pub(crate) fn days_in_month(year: u64, month: u64) -> u64
    ensures { result ≡ month_days (leap_days year) month }
{
    if month == 2 {
        return 28 + leap_days(year);
    }
    MONTH_DAYS.get(month as usize).copied().unwrap_or(0)
}

// The days of the year before a month.
#[tactic(auto, using(crate::proofs::Months::days_before_march, crate::proofs::Months::days_before))]
pub(crate) fn days_before_month(extra: u64, month: u64) -> u64
    requires extra { extra < 2 }
    requires month { month < 13 }
    ensures is { result ≡ before (month_days extra) month }
    ensures small { result < 366 }
{
    let n = DAYS_BEFORE_MONTH[month as usize];
    if month <= 2 { n } else { n + extra }
}

// The days from the start of the year 0 to a month. From March on they are counted to the next year's start, and 365 days less: so the leap day is one of
// those before a year, and the year's own need not be known.
pub(crate) fn days_to_month(year: u64, month: u64) -> u64
    requires year { year < 2 ^ 32 }
    requires month { month < 13 }
    ensures is { result ≡ before year_days year + before (month_days (leap_days year)) month }
    ensures small { result ≤ 366 * year + 800 }
{
    let after = u64::from(2 < month);
    days_before_year(year + after) + DAYS_BEFORE_MONTH[month as usize] - 365 * after
}

// The month of the day k after the start of a year: 367/12 days a month, as if February had 30 days.
// A search of the table would loop.
pub(crate) fn month_on(extra: u64, k: u64) -> u64
    requires extra { extra < 2 }
    requires k { k < 365 + extra }
    ensures is { result ≡ last (month_days extra) k 12 }
    ensures first { 0 < result }
    ensures last { result < 13 }
    ensures begun { before (month_days extra) result ≤ k }
    ensures current { k < before (month_days extra) result + 31 }
{
    let spread = if k < 59 + extra { k } else { k + 2 - extra };
    (12 * spread + 373) / 367
}
