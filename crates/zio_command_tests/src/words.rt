//! The options of `run` and of `scrub`, and what they ask for.

use std::alloc::Global;
use std::process::Abort;
use std::test::Fail;
use zio_command::{Command, WordsError, read_words};
use zio_report::Show;

/// A report without what options add.
const PLAIN: Show = Show::Report {
    journal: false,
    bytes: false,
};

const WITH_JOURNAL: Show = Show::Report {
    journal: true,
    bytes: false,
};

const WITH_BOTH: Show = Show::Report {
    journal: true,
    bytes: true,
};

pub(crate) fn words_of(alloc: Global, words: &[&str]) -> Result<Vec<String>, Fail> {
    let mut owned = Vec::new(alloc);
    for word in words {
        owned.push(String::from_str(alloc, word)?)?;
    }
    Ok(owned)
}

/// How many workers, which picks, what report and how many images a `run` asks for.
type Asked = (u32, Option<u64>, Show, usize);

/// What these words ask for; nothing where they are no command.
fn asked(alloc: Global, serial: bool, words: &[&str]) -> Result<Option<Asked>, Fail> {
    let words = words_of(alloc, words)?;
    match read_words(alloc, serial, words.as_slice()) {
        Ok(
            Command::Run {
                workers,
                picks,
                show,
                images,
            },
        ) => Ok(Some((workers, picks, show, images.len()))),
        Ok(_) => Err(Fail::from("another command")),
        Err(WordsError::Words) => Ok(None),
        Err(WordsError::Memory) => Err(Fail::from("no memory")),
    }
}

/// The words ask for this much, or are no command where nothing is wanted.
fn check(
    rt: &impl Abort,
    alloc: Global,
    serial: bool,
    words: &[&str],
    wanted: Option<Asked>,
) -> Result<(), Fail> {
    assert_eq!(rt; asked(alloc, serial, words)?, wanted, "{words:?}");
    Ok(())
}

/// The words between commas.
fn words_in<'a>(alloc: Global, line: &'a str) -> Result<Vec<&'a str>, Fail> {
    let mut words = Vec::new(alloc);
    for word in line.split(',') {
        words.push(word)?;
    }
    Ok(words)
}

/// The words, with a comma between two, ask for this much.
fn accepts(
    rt: &impl Abort,
    alloc: Global,
    serial: bool,
    line: &str,
    wanted: Asked,
) -> Result<(), Fail> {
    check(
        rt,
        alloc,
        serial,
        words_in(alloc, line)?.as_slice(),
        Some(wanted),
    )
}

/// The words, with a comma between two, are no command.
fn refuses(rt: &impl Abort, alloc: Global, serial: bool, line: &str) -> Result<(), Fail> {
    check(rt, alloc, serial, words_in(alloc, line)?.as_slice(), None)
}

/// Seeds from 0 to the largest.
const SEEDS: [(&str, u64); 4] = [
    ("0", 0),
    ("7", 7),
    ("4294967296", 4294967296),
    ("18446744073709551615", 18446744073709551615),
];

/// What is no seed.
const NO_SEEDS: [&str; 10] = [
    "18446744073709551616",
    "100000000000000000000",
    "00",
    "01",
    "+1",
    "-1",
    "",
    " 1",
    "1a",
    "0x1",
];

#[test]
fn a_seed_of_picks_is_below_2_to_the_64th(rt: HostRuntime) -> Result<(), Fail> {
    let alloc = rt.alloc();
    for (word, seed) in &SEEDS {
        let wanted = Some((1, Some(*seed), PLAIN, 1));
        check(&rt, alloc, true, &["run", "--picks", word, "a"], wanted)?;
    }
    for word in &NO_SEEDS {
        check(&rt, alloc, true, &["run", "--picks", word, "a"], None)?;
    }
    Ok(())
}

/// Words that ask for picks, a journal and the bytes of reads, with a comma between two.
const WITH_ALL: [&str; 6] = [
    "run,--picks,9,--journal,--data,a",
    "run,--picks,9,--data,--journal,a",
    "run,--journal,--picks,9,--data,a",
    "run,--data,--picks,9,--journal,a",
    "run,--journal,--data,--picks,9,a",
    "run,--data,--journal,--picks,9,a",
];

#[test]
fn picks_stand_in_any_order_with_other_options(rt: HostRuntime) -> Result<(), Fail> {
    let alloc = rt.alloc();
    accepts(&rt, alloc, true, "run,a,b", (1, None, PLAIN, 2))?;
    accepts(
        &rt,
        alloc,
        true,
        "run,--picks,9,7,8",
        (1, Some(9), PLAIN, 2),
    )?;
    accepts(
        &rt,
        alloc,
        true,
        "run,--picks,9,--journal,a",
        (1, Some(9), WITH_JOURNAL, 1),
    )?;
    accepts(
        &rt,
        alloc,
        true,
        "run,--journal,--picks,9,a",
        (1, Some(9), WITH_JOURNAL, 1),
    )?;
    for line in &WITH_ALL {
        accepts(&rt, alloc, true, line, (1, Some(9), WITH_BOTH, 1))?;
    }
    Ok(())
}

/// Words about picks that are no command, with a comma between two.
const NO_PICKS: [&str; 13] = [
    "run,--picks,1,--picks,1,a",
    "run,--picks,1,--journal,--picks,2,a",
    "run,--picks",
    "run,--picks,a",
    "run,--picks,--journal,a",
    "run,--picks,1",
    "run,a,--picks,1",
    "run,a,--picks,1,b",
    "run,--picks=1,a",
    "run,--pick,1,a",
    "--picks,1,run,a",
    "gen,--picks,1,7,1",
    "load,--picks,1,7,1,a",
];

#[test]
fn picks_are_asked_for_once_with_a_seed_before_the_images(rt: HostRuntime) -> Result<(), Fail> {
    for line in &NO_PICKS {
        refuses(&rt, rt.alloc(), true, line)?;
    }
    Ok(())
}

/// Words that are no command of the program with workers, with a comma between two.
const NO_WORKERS: [&str; 5] = [
    "run,--picks,1,a",
    "run,--workers,4,--picks,1,a",
    "run,--workers,0,a",
    "run,--workers,17,a",
    "run,--workers,4,--workers,4,a",
];

#[test]
fn each_program_has_its_own_option(rt: HostRuntime) -> Result<(), Fail> {
    let alloc = rt.alloc();
    refuses(&rt, alloc, true, "run,--workers,4,a")?;
    refuses(&rt, alloc, true, "run,--picks,1,--workers,4,a")?;
    for line in &NO_WORKERS {
        refuses(&rt, alloc, false, line)?;
    }
    accepts(&rt, alloc, false, "run,a", (4, None, PLAIN, 1))?;
    accepts(
        &rt,
        alloc,
        false,
        "run,--journal,--workers,16,a",
        (16, None, WITH_JOURNAL, 1),
    )
}

/// Which picks and how many images a `scrub` of these words, with a comma between two, asks for; nothing where they are no
/// command.
fn scrub_asked(
    alloc: Global,
    serial: bool,
    line: &str,
) -> Result<Option<(Option<u64>, usize)>, Fail> {
    let words = words_of(alloc, words_in(alloc, line)?.as_slice())?;
    match read_words(alloc, serial, words.as_slice()) {
        Ok(Command::Scrub { picks, images }) => Ok(Some((picks, images.len()))),
        Ok(_) => Err(Fail::from("another command")),
        Err(WordsError::Words) => Ok(None),
        Err(WordsError::Memory) => Err(Fail::from("no memory")),
    }
}

/// Words about a scrub that are no command, with a comma between two.
const NO_SCRUBS: [&str; 8] = [
    "scrub",
    "scrub,--picks,1",
    "scrub,--journal,a",
    "scrub,--picks,1,--data,a",
    "scrub,--workers,4,a",
    "scrub,--picks,1,--picks,1,a",
    "scrub,a,--picks,1",
    "scrub,a,a",
];

#[test]
fn a_scrub_has_picks_and_images_alone(rt: HostRuntime) -> Result<(), Fail> {
    let alloc = rt.alloc();
    assert_eq!(rt; scrub_asked(alloc, true, "scrub,a")?, Some((None, 1)));
    assert_eq!(rt;
        scrub_asked(alloc, true, "scrub,--picks,9,a,b")?,
        Some((Some(9), 2))
    );
    for line in &NO_SCRUBS {
        refuses(&rt, alloc, true, line)?;
    }
    refuses(&rt, alloc, false, "scrub,a")
}
