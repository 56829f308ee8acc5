// The tests that read files or whose memory is refused, in one program: `lab80_tests WORD ..`. A word is the
// name of a run of refusal_tests, or else a file with a session that kern_tests replays; data/README.md says
// how that is written. The gate makes one run and all sessions, and refusals/run each alone. The status is 0
// if all was as expected, 1 if the kernel deviated from a session, and 2 where a test couldn't go on.
#![tactic(auto)]

use anyhow::Result;
use kern_tests::replay;
use refusal_tests::Run;
use refusal_tests::again::{fail, tell_want};
use std::env;
use std::process::ExitCode;
use std::rt::{Clock, Env, Files};
use std::sync::Wait;
use std::thread::Threads;

fn words_of<R: Env + AllocGlobal>(rt: &R) -> Result<Vec<String>> {
    Ok(env::args(rt)?.skip(1).collect(rt.alloc())?)
}

// The words, read once more if memory ran out.
fn read_words<R: Env + Print + AllocGlobal>(rt: &R) -> Result<Vec<String>> {
    match words_of(rt) {
        Ok(words) => Ok(words),
        Err(_) => {
            tell_want(rt, "the words")?;
            words_of(rt)
        }
    }
}

// Whether all was as the word's test expects.
fn test<R: Threads + Wait + Clock + Files + Print + AllocGlobal + Sync>(
    rt: &R,
    word: &str,
) -> Result<bool> {
    match Run::from_name(word) {
        Some(run) => {
            run.make(rt, rt.alloc())?;
            Ok(true)
        }
        None => Ok(replay(rt, word)?),
    }
}

fn test_all<R: Threads + Wait + Clock + Files + Print + AllocGlobal + Sync>(
    rt: &R,
    words: &[String],
) -> Result<bool> {
    if words.is_empty() {
        return fail("usage: lab80_tests WORD .., each the name of a run or a file with a session");
    }
    let mut is_all_well = true;
    for word in words {
        if !test(rt, word.as_str())? {
            is_all_well = false;
        }
    }
    Ok(is_all_well)
}

fn run<R: Threads + Wait + Clock + Env + Files + Print + AllocGlobal + Sync>(
    rt: &R,
) -> Result<bool> {
    let words = read_words(rt)?;
    let is_all_well = test_all(rt, words.as_slice());
    drop(words);
    is_all_well
}

fn main(rt: HostRuntime) -> ExitCode {
    match run(&rt) {
        Ok(true) => ExitCode::SUCCESS,
        Ok(false) => ExitCode::FAILURE,
        Err(error) => {
            let _ = rt.eprintln(&error);
            drop(error);
            ExitCode::from(2)
        }
    }
}
