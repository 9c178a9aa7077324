// What the words of a command line ask for.
use mw_words::{Asked, Options, WordsError, read_words};
use std::alloc::Global;
use std::test::Fail;

/// Words that are parted by single spaces.
fn asked(alloc: Global, line: &str) -> Result<Result<Asked, WordsError>, Fail> {
    let mut words = Vec::new(alloc);
    for word in line.split(' ') {
        words.push(String::from_str(alloc, word)?)?;
    }
    Ok(read_words(alloc, words.as_slice()))
}

#[test]
fn words_are_read(rt: HostRuntime) -> Result<(), Fail> {
    let alloc = rt.alloc();
    for (line, max, proof) in [
        ("mw run", 1_000_000, false),
        ("another run", 1_000_000, false),
        ("mw run --", 1_000_000, false),
        ("mw run --max 1", 1, false),
        ("mw run --max 5", 5, false),
        ("mw run --max=10000000", 10_000_000, false),
        ("mw run --proof", 1_000_000, true),
        ("mw run --max 5 --proof", 5, true),
        ("mw run --proof --max=5", 5, true),
    ] {
        let options = Options { max, proof };
        assert_eq!(rt; asked(alloc, line)?, Ok(Asked::Run(options)), "{line}");
    }
    for (line, want) in [
        ("mw --help", Asked::Help),
        ("mw -h", Asked::Help),
        ("mw run --help", Asked::Help),
        ("mw run -h", Asked::Help),
        ("mw run --max 007 --help", Asked::Help),
        ("mw run --proof --help", Asked::Help),
        ("mw --help more", Asked::Help),
        ("mw --version", Asked::Version),
        ("mw -V", Asked::Version),
    ] {
        assert_eq!(rt; asked(alloc, line)?, Ok(want), "{line}");
    }
    Ok(())
}

#[test]
fn words_of_check_are_read(rt: HostRuntime) -> Result<(), Fail> {
    let alloc = rt.alloc();
    for (line, max) in [
        ("mw check", 1_000_000),
        ("mw check --", 1_000_000),
        ("mw check --max 1", 1),
        ("mw check --max 5", 5),
        ("mw check --max=5", 5),
        ("mw check --max=10000000", 10_000_000),
    ] {
        assert_eq!(rt; asked(alloc, line)?, Ok(Asked::Check { max }), "{line}");
    }
    for line in [
        "mw check --help",
        "mw check -h",
        "mw check --max 007 --help",
        "mw check --max 5 -h",
    ] {
        assert_eq!(rt; asked(alloc, line)?, Ok(Asked::Help), "{line}");
    }
    Ok(())
}

#[test]
fn other_words_ask_for_nothing(rt: HostRuntime) -> Result<(), Fail> {
    let alloc = rt.alloc();
    for line in [
        "mw",
        "mw 5",
        "mw help",
        "mw Run",
        "mw Check",
        "mw gen 2",
        "mw --max 5 run",
        "mw --max 5 check",
        "mw run check",
        "mw run 5",
        "mw run --max",
        "mw run --max=",
        "mw run --max 0",
        "mw run --max 007",
        "mw run --max +5",
        "mw run --max -5",
        "mw run --max 5x",
        "mw run --max 10000001",
        "mw run --max 18446744073709551617",
        "mw run --max 5 --max 5",
        "mw --proof run",
        "mw run --proof 1",
        "mw run --proof=true",
        "mw run --proof --proof",
        "mw run --workers 2",
        "mw run --rounds",
        "mw run --version",
        "mw check x",
        "mw check --max",
        "mw check --max 0",
        "mw check --max 007",
        "mw check --max 10000001",
        "mw check --max 5 --max 5",
        "mw check --proof",
        "mw check --proof --help",
        "mw check --version",
    ] {
        assert_eq!(rt; asked(alloc, line)?, Err(WordsError::Usage), "{line}");
    }
    assert_eq!(rt; read_words(alloc, &[]), Err(WordsError::Usage));
    Ok(())
}
