//! Words are read.
ghost use Rattle.std.specs.Prelude.{◌≡◌, IfOk, Err, None, Some, map};
ghost use Rattle.run_words.specs.Words.{IsJob, job_of};

use crate::command::command;
use crate::job::Job;
use crate::matched::found_job;
use crate::words_refusal::WordsRefusal;
use clap::error::ErrorKind;
use std::alloc::Global;

/// The job that the words of a command line ask for, without the name of the program. `Usage` where they ask for
/// none. Whether the program serves the mode is for the caller.
pub fn read_words(alloc: Global, words: &[&str]) -> Result<Job, WordsRefusal>
    ensures job { IfOk result (λ job. job_of (map (λ word. word.now) words.now) ≡ Some job) }
    ensures usage { result ≡ Err WordsRefusal.Usage → job_of (map (λ word. word.now) words.now) ≡ None }
    ensures limits { IfOk result IsJob }
{
    let Ok(command) = command(alloc) else {
        return Err(WordsRefusal::Memory);
    };
    match command.try_get_matches_from(words) {
        Ok(matches) => match found_job(&matches) {
            Some(job) => Ok(job),
            None => Err(WordsRefusal::Usage),
        },
        Err(error) => match error.kind() {
            ErrorKind::OutOfMemory => Err(WordsRefusal::Memory),
            _ => Err(WordsRefusal::Usage),
        },
    }
}
