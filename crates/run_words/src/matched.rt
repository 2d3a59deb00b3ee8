//! The job of what the command found.
ghost use Rattle.std.specs.Prelude.{◌≡◌, ◌≤◌, IfSome, None, Some, option_map};
ghost use Rattle.clap.specs.Words.{first_of, found_of, rows_of};
ghost use Rattle.run_words.specs.Words.{IsJob, found_job, has_flag, job_in, number_in, number_or};

use crate::job::Job;
use crate::mode::Mode;
use clap::ArgMatches;

// The largest number of `--number`.
const LARGEST: u64 = 9_223_372_036_854_775_807;

// The number of a text, where it lies from `low` to `high`.
fn number_in(text: &str, low: u64, high: u64) -> Option<u64>
    ensures value { result ≡ number_in low high text.now }
    ensures above { IfSome result (λ n. low ≤ n) }
    ensures within { IfSome result (λ n. n ≤ high) }
{
    match text.parse::<u64>() {
        Ok(number) => {
            if low <= number && number <= high {
                Some(number)
            } else {
                None
            }
        }
        Err(_) => None,
    }
}

// The number of an option.
fn number_or(text: Option<&str>, low: u64, high: u64, default: u64) -> Option<u64>
    ensures value { result ≡ number_or low high default (option_map (λ t. t.now) text.entry) }
    ensures above { low ≤ default → IfSome result (λ n. low ≤ n) }
    ensures within { default ≤ high → IfSome result (λ n. n ≤ high) }
{
    match text {
        Some(text) => number_in(text, low, high),
        None => Some(default),
    }
}

// The job of a mode, by the texts of its options.
fn job_in(
    mode: Mode,
    json: bool,
    workers: Option<&str>,
    count: Option<&str>,
    number: Option<&str>,
) -> Option<Job>
    ensures value { result ≡ job_in mode json (option_map (λ t. t.now) workers.entry)
        (option_map (λ t. t.now) count.entry) (option_map (λ t. t.now) number.entry) }
    ensures limits { IfSome result IsJob }
{
    let plain = Job {
        mode,
        json,
        workers: 4,
        count: 0,
        number: 1,
    };
    match (mode, workers, count, number) {
        (Mode::Sim, None, None, None) => Some(plain),
        (Mode::Run, workers, None, None) => Some(Job {
            workers: number_or(workers, 1, 64, 4)? as u32,
            ..plain
        }),
        (Mode::Load, None, Some(count), number) => Some(Job {
            count: number_in(count, 1, 10_000)? as u32,
            number: number_or(number, 0, LARGEST, 1)?,
            ..plain
        }),
        _ => None,
    }
}

// The first text of an argument.
fn text_of<'a>(matches: &ArgMatches<'a>, id: &str) -> Option<&'a str>
    ensures { option_map (λ t. t.now) result ≡ first_of id.now (rows_of (found_of matches.now)) }
{
    matches.get_str(id)
}

fn has_flag(matches: &ArgMatches<'_>, id: &str) -> bool
    ensures { result ≡ has_flag id.now (rows_of (found_of matches.now)) }
{
    matches.get_one::<bool>(id).unwrap_or(false)
}

// The job of what the command found.
pub fn found_job(matches: &ArgMatches<'_>) -> Option<Job>
    ensures value { result ≡ found_job (rows_of (found_of matches.now)) }
    ensures limits { IfSome result IsJob }
{
    let mode = Mode::named(text_of(matches, "mode")?)?;
    job_in(
        mode,
        has_flag(matches, "json"),
        text_of(matches, "workers"),
        text_of(matches, "count"),
        text_of(matches, "number"),
    )
}
