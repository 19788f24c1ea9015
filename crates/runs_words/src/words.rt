use cli_words::{Job, WordsEnd, read_words};
use std::alloc::{AllocError, Global};

/// The words of a line: each stands behind a `|`.
fn words_of(alloc: Global, line: &str) -> Result<Vec<String>, AllocError> {
    let mut words = Vec::new(alloc);
    for word in line.split('|').skip(1) {
        words.push(String::from_str(alloc, word)?)?;
    }
    Ok(words)
}

fn show_workers(text: &mut String, workers: Option<u32>) -> Result<(), AllocError> {
    match workers {
        Some(workers) => write!(text, ", {workers} workers"),
        None => Ok(()),
    }
}

fn show_job(text: &mut String, job: &Job) -> Result<(), AllocError> {
    match job {
        Job::Build { config, workers } => {
            text.push_str("build ")?;
            text.push_str(config.get())?;
            show_workers(text, *workers)
        }
        Job::Sample { n, workers } => {
            write!(text, "sample {n}")?;
            show_workers(text, *workers)
        }
    }
}

pub fn job_text(alloc: Global, line: &str) -> Result<String, AllocError> {
    let words = words_of(alloc, line)?;
    let mut text = String::new(alloc);
    match read_words(alloc, &words) {
        Ok(job) => show_job(&mut text, &job)?,
        Err(WordsEnd::Usage) => text.push_str("usage")?,
        Err(WordsEnd::NoMemory) => return Err(AllocError),
    }
    Ok(text)
}
