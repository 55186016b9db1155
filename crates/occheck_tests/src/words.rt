//! Tests: the mode that words name.
use occheck_words::{Mode, WordsFault, read_words};
use std::test::Fail;

/// Whether a script stands at a place.
fn stands_at(scripts: &[String], place: usize, name: &str) -> bool {
    match scripts.get(place) {
        Some(script) => script.as_str() == name,
        None => false,
    }
}

/// Whether sessions of two scripts are asked for, beside two workers.
fn are_two(mode: &Mode, first: &str, second: &str) -> bool {
    match mode {
        Mode::Workers(workers, scripts) => {
            *workers == 2
                && scripts.len() == 2
                && stands_at(scripts.as_slice(), 0, first)
                && stands_at(scripts.as_slice(), 1, second)
        }
        Mode::Steps(_) => false,
    }
}

/// Whether one script is asked for, step by step.
fn is_one(mode: &Mode, name: &str) -> bool {
    match mode {
        Mode::Steps(script) => script.as_str() == name,
        Mode::Workers(_, _) => false,
    }
}

#[test]
fn words_name_what_is_to_be_run(rt: HostRuntime) -> Result<(), Fail> {
    let a = rt.alloc();
    match read_words(a, &["--workers", "2", "one", "-"]) {
        Ok(mode) => assert!(rt; are_two(&mode, "one", "-")),
        Err(_) => assert!(rt; false),
    }
    match read_words(a, &["--steps", "one"]) {
        Ok(mode) => assert!(rt; is_one(&mode, "one")),
        Err(_) => assert!(rt; false),
    }
    match read_words(a, &["--steps", "--workers", "2", "one"]) {
        Ok(_) => assert!(rt; false),
        Err(fault) => assert!(rt; matches!(&fault, WordsFault::Refused(_))),
    }
    Ok(())
}
