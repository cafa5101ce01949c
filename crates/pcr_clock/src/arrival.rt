ghost use Rattle.std.specs.Prelude.{◌≡◌, ◌<◌, ◌≤◌, ◌^◌, IfSome, Some};
ghost use Rattle.pcr_clock.specs.Arrivals.{IsBehind, last_tick as last_tick_of, spread_between as spread_between_of, spread_tick as spread_tick_of};
ghost use Rattle.pcr_clock.specs.Arrivals.{tick_between as tick_between_of, tick_of_time as tick_of_time_at};
ghost use Rattle.pcr_clock.specs.declared.sample.TheConstants.{CLOCK_LIMIT};

/// How many packets the next sample may stand behind the last one, for those between to arrive
/// evenly.
pub const MOST_BETWEEN: u64 = 65_536;

/// The tick of 90 kHz of a time in units of 27 MHz, rounded up.
pub fn tick_of_time(time: u64) -> u64
    requires { time < CLOCK_LIMIT }
    ensures tick { result ≡ tick_of_time_at time }
    ensures small { result < 2 ^ 62 }
{
    time.div_ceil(300)
}

/// The tick of a packet that stands `since` packets behind a sample of time `before`, where the
/// next one, of time `after`, stands `all` packets behind it.
pub fn spread_tick(before: u64, after: u64, since: u64, all: u64) -> u64
    requires times { before ≤ after }
    requires limit { after < CLOCK_LIMIT }
    requires since { since ≤ all }
    requires some { 0 < all }
    requires most { all ≤ MOST_BETWEEN }
    ensures tick { result ≡ spread_tick_of before after since all }
    ensures small { result < 2 ^ 62 }
{
    let all = u128::from(all);
    let between = u128::from(after - before);
    let parts = u128::from(before) * all + u128::from(since) * between;
    parts.div_ceil(300 * all) as u64
}

/// A sample of the clock that comes, as it is seen from the last one, or from the stream's begin.
#[derive(Clone, Copy, Debug)]
pub struct NextSample {
    /// How many packets it stands behind that.
    pub behind: u64,
    /// Its time, in units of 27 MHz.
    pub time: u64,
}

/// The tick of the last sample, and 0 where there was none.
pub fn last_tick(last: Option<u64>) -> u64
    requires limit { IfSome last (λ time. time < CLOCK_LIMIT) }
    ensures tick { result ≡ last_tick_of last }
    ensures small { result < 2 ^ 62 }
{
    match last {
        None => 0,
        Some(time) => tick_of_time(time),
    }
}

/// The tick of a packet without a sample, so many packets behind the last sample or behind the
/// stream's begin, by that sample and the next one. Where that is too far, or none comes, it is
/// that of the last one.
pub fn tick_between(last: Option<u64>, since: u64, next: Option<NextSample>) -> u64
    requires last { IfSome last (λ time. time < CLOCK_LIMIT) }
    requires next { IfSome next (λ next. next.time < CLOCK_LIMIT) }
    requires behind { IsBehind last next }
    requires since { IfSome next (λ next. since ≤ next.behind) }
    ensures tick { result ≡ tick_between_of last since next }
    ensures small { result < 2 ^ 62 }
{
    match next {
        None => last_tick(last),
        Some(next) => {
            if next.behind <= MOST_BETWEEN {
                spread_between(last, since, next)
            } else {
                last_tick(last)
            }
        }
    }
}

/// The same where the next sample is near enough.
fn spread_between(last: Option<u64>, since: u64, next: NextSample) -> u64
    requires next { next.time < CLOCK_LIMIT }
    requires behind { IsBehind last (Some next) }
    requires since { since ≤ next.behind }
    requires near { next.behind ≤ MOST_BETWEEN }
    ensures tick { result ≡ spread_between_of last since next }
    ensures small { result < 2 ^ 62 }
{
    match last {
        None => tick_of_time(next.time),
        Some(before) => spread_tick(before, next.time, since, next.behind),
    }
}
