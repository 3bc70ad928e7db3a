//! What words ask for.
use pp_language::{Command, CommandKind, Settings};
use pp_words::{WordsError, read_words};
use std::alloc::Global;
use std::process::Abort;

const PLAIN: Settings = Settings {
    depth: 1_000,
    turns: 10_000,
    workers: 4,
    ahead: 1,
};

fn words(rt: &impl Abort, alloc: Global, texts: &[&str]) -> Vec<String> {
    let mut words = Vec::new(alloc);
    for text in texts {
        let word = String::from_str(alloc, text).expect(rt, "memory");
        words.push(word).expect(rt, "memory");
    }
    words
}

fn read(rt: &impl Abort, alloc: Global, texts: &[&str]) -> Result<Command, WordsError> {
    read_words(alloc, &words(rt, alloc, texts))
}

#[test]
fn words_ask_for_a_command(rt: HostRuntime) {
    let rows: [(&[&str], CommandKind, Settings); 3] = [
        (
            &["alone", "--depth", "007"],
            CommandKind::Alone,
            Settings { depth: 7, ..PLAIN },
        ),
        (
            &["run", "--workers=64", "--ahead", "8"],
            CommandKind::Run,
            Settings {
                workers: 64,
                ahead: 8,
                ..PLAIN
            },
        ),
        (
            &["make", "--workers", "2", "10"],
            CommandKind::Make(10),
            Settings {
                workers: 2,
                ..PLAIN
            },
        ),
    ];
    for (texts, kind, settings) in rows {
        let command = read(&rt, rt.alloc(), texts).expect(&rt, "a command");
        assert_eq!(rt;
            command,
            Command {
                kind,
                settings,
                trace: false
            }
        );
    }
}

#[test]
fn other_words_ask_for_none(rt: HostRuntime) {
    let rows: [&[&str]; 10] = [
        &[],
        &["run", "--workers", "0"],
        &["run", "--workers", "65"],
        &["alone", "--workers", "2"],
        &["run", "--depth", "5", "--depth", "5"],
        &["run", "--"],
        &["make"],
        &["make", "0"],
        &["make", "1000"],
        &["alone", "extra"],
    ];
    for texts in rows {
        assert_eq!(rt; read(&rt, rt.alloc(), texts), Err(WordsError::Usage));
    }
}
