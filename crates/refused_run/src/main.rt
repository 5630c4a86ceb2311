//! Does what `dp` does with all words but the first, after as many allocations as the first word says, for
//! `tests/refusals`: of a program's allocations the kit refuses the one with a number, and so each that `dp` makes can be
//! the one. Where it is one of these first, or the first word is no number, the exit status is 70.
#![tactic(auto)]

use dp_io::{LazyFile, NoGate, StdErr, StdOut};
use dp_program::run;
use dp_words::file_words;
use std::alloc::{AllocError, Global};
use std::process::ExitCode;
use std::{env, io};

/// The exit status of a call that isn't one of `dp`.
const NO_CALL: u8 = 70;

/// So many texts, each with memory of its own.
fn taken(alloc: Global, count: usize) -> Result<Vec<String>, AllocError> {
    let mut texts = Vec::with_capacity(alloc, count)?;
    for _ in 0..count {
        texts.push(String::from_str(alloc, "taken")?)?;
    }
    Ok(texts)
}

/// The first word as a number, and the words after it.
fn words_of(alloc: Global, args: env::Args) -> Result<Option<(usize, Vec<String>)>, AllocError> {
    let mut args = args.skip(1);
    let Some(first) = args.next() else {
        return Ok(None);
    };
    let Ok(count) = first.as_str().parse::<usize>() else {
        return Ok(None);
    };
    Ok(Some((count, args.collect(alloc)?)))
}

/// The word at the place, or an empty one.
fn word(words: &[String], place: Option<usize>) -> &str {
    match place {
        Some(place) if place < words.len() => words[place].as_str(),
        _ => "",
    }
}

fn main(rt: HostRuntime) -> ExitCode {
    let Ok(args) = env::args(&rt) else {
        return ExitCode::from(NO_CALL);
    };
    let Ok(Some((count, words))) = words_of(rt.alloc(), args) else {
        return ExitCode::from(NO_CALL);
    };
    let Ok(_taken) = taken(rt.alloc(), count) else {
        return ExitCode::from(NO_CALL);
    };
    let words = words.as_slice();
    let [first, second, third] = file_words(words);
    let status = run(
        &rt,
        rt.alloc(),
        words,
        &mut LazyFile::new(&rt, word(words, first)),
        &mut LazyFile::new(&rt, word(words, second)),
        &mut LazyFile::new(&rt, word(words, third)),
        &mut StdOut::new(&rt),
        &mut StdErr::new(&rt),
        &NoGate,
    );
    ExitCode::from(status.code())
}
