//! Words, and what they ask for.

use ft_answers::Wanted;
use ft_words::{WordsFault, wanted};
use std::alloc::Global;
use std::test::Fail;

// What the words ask for; nothing where they are not accepted.
fn asked(alloc: Global, words: &[&str]) -> Result<Option<Wanted>, Fail> {
    let mut owned = Vec::new(alloc);
    for word in words {
        owned.push(String::from_str(alloc, word)?)?;
    }
    match wanted(alloc, &owned) {
        Ok(wanted) => Ok(Some(wanted)),
        Err(WordsFault::Usage) => Ok(None),
        Err(WordsFault::Memory) => Err("no memory")?,
    }
}

const RUN: Wanted = Wanted::Run { budget: 1_000_000 };

const EXPORT: Wanted = Wanted::Export { budget: 1_000_000 };

const CHECK: Wanted = Wanted::Check { one_thread: false };

#[test]
fn accepted_words_are_read(rt: HostRuntime) -> Result<(), Fail> {
    let cases: [(&[&str], Wanted); 14] = [
        (&["run"], RUN),
        (&["export"], EXPORT),
        (&["check"], CHECK),
        (&["run", "--budget", "1"], Wanted::Run { budget: 1 }),
        (&["run", "--budget", "6"], Wanted::Run { budget: 6 }),
        (&["run", "--budget", "1000000"], RUN),
        (
            &["run", "--budget", "1000000000"],
            Wanted::Run {
                budget: 1_000_000_000,
            },
        ),
        (&["run", "--budget=25"], Wanted::Run { budget: 25 }),
        (&["run", "--"], RUN),
        (&["export", "--budget", "2"], Wanted::Export { budget: 2 }),
        (
            &["export", "--budget", "999999999"],
            Wanted::Export {
                budget: 999_999_999,
            },
        ),
        (&["export", "--budget=9"], Wanted::Export { budget: 9 }),
        (
            &["check", "--one-thread"],
            Wanted::Check { one_thread: true },
        ),
        (&["check", "--"], CHECK),
    ];
    for (words, answer) in cases {
        assert!(rt; asked(rt.alloc(), words)? == Some(answer), "{words:?}");
    }
    Ok(())
}

#[test]
fn other_words_are_refused(rt: HostRuntime) -> Result<(), Fail> {
    let cases: [&[&str]; 26] = [
        &[],
        &[""],
        &["Run"],
        &["run "],
        &["ru"],
        &["help"],
        &["--help"],
        &["-h"],
        &["--version"],
        &["sample", "5"],
        &["run", "run"],
        &["run", ""],
        &["run", "--help"],
        &["run", "help"],
        &["check", "export"],
        &["run", "--one-thread"],
        &["run", "--bud", "5"],
        &["run", "-b", "5"],
        &["--budget", "5", "run"],
        &["run", "--budget", "5", "--budget", "6"],
        &["run", "--budget"],
        &["check", "--budget", "5"],
        &["check", "--one-thread", "true"],
        &["check", "--one-thread=true"],
        &["check", "--one-thread", "--one-thread"],
        &["run", "--budget", "5", "6"],
    ];
    for words in cases {
        assert!(rt; asked(rt.alloc(), words)?.is_none(), "{words:?}");
    }
    Ok(())
}

#[test]
fn a_budget_is_a_number_within_its_limits(rt: HostRuntime) -> Result<(), Fail> {
    let cases = [
        "",
        "0",
        "00",
        "05",
        "+5",
        "-5",
        "5.0",
        "5 ",
        " 5",
        "five",
        "5x",
        "0x5",
        "1_000",
        "٥",
        "1000000001",
        "10000000000",
        "18446744073709551616",
        "99999999999999999999999999",
    ];
    for number in cases {
        let budget: &[&str] = &["run", "--budget", number];
        assert!(rt; asked(rt.alloc(), budget)?.is_none(), "{number}");
        let budget: &[&str] = &["export", "--budget", number];
        assert!(rt; asked(rt.alloc(), budget)?.is_none(), "{number}");
    }
    Ok(())
}
