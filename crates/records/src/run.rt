// The reading of a run of records: each is handed back as a part of the caller's own input.
ghost use Rattle.std.specs.Prelude.{◌≡◌, length, ◌≤◌};
ghost use Rattle.records.specs.Refusals.{refusal_of};
ghost use Rattle.records.specs.Run.{too_few, run_check, fitting, run_size, run_first, run_rest, Part};

use crate::{Refusal, kind_of};

// 5 where fewer bytes remain than the mark's length.
fn too_few(n: usize, run: &[u8]) -> Result<(), Refusal>
    ensures { refusal_of result ≡ too_few n run.now }
{
    if run.len() < n {
        Err(Refusal::Length)
    } else {
        Ok(())
    }
}

// The refusal with which the run ends here; none where nothing remains, or where a whole record stands in front.
pub fn run_check(run: &[u8]) -> Result<(), Refusal>
    ensures { refusal_of result ≡ run_check run.now }
{
    if run.is_empty() {
        return Ok(());
    }
    let Some(kind) = kind_of(run) else {
        return Err(Refusal::Mark);
    };
    too_few(kind.length(), run)
}

// The number n where the run has so many bytes, else 0.
fn fitting(n: usize, run: &[u8]) -> usize
    ensures { result ≡ fitting n run.now }
{
    if n <= run.len() { n } else { 0 }
}

// The length of the record in front; 0 where the run ends here: what run_first and run_rest cut off is of this length.
fn run_size(run: &[u8]) -> usize
    ensures { (result ≡ run_size run.now) × (result ≤ length run.now) }
{
    match kind_of(run) {
        Some(kind) => fitting(kind.length(), run),
        None => 0,
    }
}

// The record in front; empty where the run ends here.
pub fn run_first<'a>(run: &'a [u8]) -> &'a [u8]
    ensures { Part run.entry result 0 (run_first run.now) }
{
    let n = run_size(run);
    &run[..n]
}

// What comes after the record in front; the whole input where the run ends here.
pub fn run_rest<'a>(run: &'a [u8]) -> &'a [u8]
    ensures { Part run.entry result (run_size run.now) (run_rest run.now) }
{
    let start = run_size(run);
    &run[start..]
}
