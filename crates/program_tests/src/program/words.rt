//! Which words are a command's.
use super::serve::ONE_WORKER;
use super::{TOKEN, run_with, whole, words_of};
use std::test::Fail;
use wopi_program::{Asked, Keep, ServeAsk, asked_by, read_words, serve_ask};

/// Words that are no command.
const NO_COMMANDS: [&[&str]; 52] = [
    &[],
    &["once", ".", "4a6", "http://localhost"],
    &["once", ".", "4a", "http://localhost/"],
    &["once", ".", "4a", "http://localhost", "--editors"],
    &[
        "once",
        ".",
        "4a",
        "http://localhost",
        "--editor",
        "--editor",
    ],
    &[
        "once",
        ".",
        "4a",
        "http://localhost",
        "--origin",
        "https://cloud.example",
    ],
    &[
        "once",
        ".",
        "4a",
        "http://localhost",
        "--editor",
        "--origin",
    ],
    &[
        "once",
        ".",
        "4a",
        "http://localhost",
        "--editor",
        "--origin",
        "https://cloud.example/",
    ],
    &[
        "serve",
        ".",
        "8880",
        "4a",
        "http://localhost",
        "2",
        "--origin",
        "https://cloud.example",
    ],
    &[
        "serve",
        ".",
        "8880",
        "4a",
        "http://localhost",
        "2",
        "--editor",
        "--each",
        "3",
        "--origin",
        "https://cloud.example",
    ],
    &[
        "serve",
        ".",
        "8880",
        "4a",
        "http://localhost",
        "2",
        "--each",
        "3",
        "--editor",
    ],
    &["token"],
    &["Token", "4a", "ann", "a.csv", "w", "1", "0", "1"],
    &["token", "4a6", "ann", "a.csv", "w", "1", "0", "1"],
    &["token", "4g", "ann", "a.csv", "w", "1", "0", "1"],
    &["token", "4a", "", "a.csv", "w", "1", "0", "1"],
    &["token", "4a", "\u{e9}", "a.csv", "w", "1", "0", "1"],
    &["token", "4a", "ann", "a/b.csv", "w", "1", "0", "1"],
    &["token", "4a", "ann", "a.csv", "rw", "1", "0", "1"],
    &["token", "4a", "ann", "a.csv", "w", "01", "0", "1"],
    &[
        "token",
        "4a",
        "ann",
        "a.csv",
        "w",
        "18446744073709551616",
        "0",
        "1",
    ],
    &[
        "token",
        "4a",
        "ann",
        "a.csv",
        "w",
        "1",
        "253402300800000",
        "1",
    ],
    &[
        "token",
        "4a",
        "ann",
        "a.csv",
        "w",
        "1",
        "0",
        "253402300800000",
    ],
    &["token", "4a", "ann", "a.csv", "w", "1", "0"],
    &["token", "4a", "ann", "a.csv", "w", "1", "0", "1", "2"],
    &["edit", "localhost", "612e637376", TOKEN, "n"],
    &["edit", ":8880", "612e637376", TOKEN, "n"],
    &["edit", "localhost:0", "612e637376", TOKEN, "n"],
    &["edit", "localhost:65536", "612e637376", TOKEN, "n"],
    &["edit", "localhost:080", "612e637376", TOKEN, "n"],
    &["edit", "local host:80", "612e637376", TOKEN, "n"],
    &["edit", "localhost:8880", "612E637376", TOKEN, "n"],
    &["edit", "localhost:8880", "612e637376", "", "n"],
    &["edit", "localhost:8880", "612e637376", "a b", "n"],
    &["edit", "localhost:8880", "612e637376", TOKEN, ""],
    &["edit", "localhost:8880", "612e637376", TOKEN, "n-1"],
    &["Replay"],
    &["replay", "7"],
    &["replay", "7", "10001"],
    &["replay", "07", "1"],
    &["replay", "18446744073709551616", "1"],
    &["replay", "7", "1", "2"],
    &[
        "serve",
        ".",
        "8880",
        "4a",
        "http://localhost",
        "1",
        "--first",
    ],
    &[
        "serve",
        ".",
        "8880",
        "4a",
        "http://localhost",
        "1",
        "--first",
        "0",
    ],
    &[
        "serve",
        ".",
        "8880",
        "4a",
        "http://localhost",
        "1",
        "--first",
        "01",
    ],
    &[
        "serve",
        ".",
        "8880",
        "4a",
        "http://localhost",
        "1",
        "--first",
        "1000000000000000001",
    ],
    &[
        "serve",
        ".",
        "8880",
        "4a",
        "http://localhost",
        "1",
        "--first",
        "2",
        "--first",
        "2",
    ],
    &[
        "serve",
        ".",
        "8880",
        "4a",
        "http://localhost",
        "1",
        "--journal",
        "2",
        "--each",
        "3",
        "--first",
        "7",
        "--each",
        "3",
    ],
    &[
        "serve",
        ".",
        "8880",
        "4a",
        "http://localhost",
        "1",
        "--ids",
        "9",
    ],
    &[
        "serve",
        ".",
        "8880",
        "4a",
        "http://localhost",
        "1",
        "--keep",
        "",
    ],
    &[
        "serve",
        ".",
        "8880",
        "4a",
        "http://localhost",
        "1",
        "--keep",
        "logs",
        "--journal",
        "9",
    ],
    &[
        "serve",
        ".",
        "8880",
        "4a",
        "http://localhost",
        "1",
        "--keep",
        "logs",
        "--ids",
        "32769",
    ],
];

#[test]
fn words_out_of_form_are_no_command(rt: HostRuntime) -> Result<(), Fail> {
    let alloc = rt.alloc();
    for (place, words) in NO_COMMANDS.iter().enumerate() {
        let left = run_with(&rt, alloc, words, &whole(b""))?;
        assert!(rt; left.status == 2, "{place}");
        assert!(rt; left.notes.as_slice() == b"usage\n".as_slice());
        assert!(rt; left.output.as_slice().is_empty());
    }
    Ok(())
}

/// The options of `serve`, in some orders.
const ORDERS: [[&str; 6]; 3] = [
    ["--journal", "2", "--each", "3", "--first", "7"],
    ["--first", "7", "--journal", "2", "--each", "3"],
    ["--each", "3", "--first", "7", "--journal", "2"],
];

#[test]
fn the_options_of_serve_stand_in_any_order(rt: HostRuntime) -> Result<(), Fail> {
    let alloc = rt.alloc();
    let wanted = ServeAsk {
        port: 8880,
        workers: 1,
        capacity: 2,
        each: 3,
        first: 7,
        editor: false,
        keep: None,
    };
    for options in &ORDERS {
        let mut words = words_of(alloc, &ONE_WORKER)?;
        for option in options {
            words.push(String::from_str(alloc, option)?)?;
        }
        assert!(rt; serve_ask(&words) == Some(wanted));
    }
    Ok(())
}

/// Words of `serve` and of `once` for editors, which tell an origin.
const TELLING: [&[&str]; 2] = [
    &[
        "serve",
        ".",
        "8880",
        "4a",
        "http://localhost",
        "2",
        "--editor",
        "--origin",
        "https://cloud.example:8443",
        "--each",
        "3",
    ],
    &[
        "once",
        ".",
        "4a",
        "http://localhost",
        "--editor",
        "--origin",
        "http://cloud",
    ],
];

#[test]
fn an_origin_stands_behind_the_word_for_editors(rt: HostRuntime) -> Result<(), Fail> {
    let alloc = rt.alloc();
    for list in &TELLING {
        let words = words_of(alloc, list)?;
        assert!(rt; read_words(&words).is_some());
    }
    let [serve, _] = TELLING;
    match serve_ask(&words_of(alloc, serve)?) {
        Some(ask) => assert!(rt; ask.editor && ask.each == 3),
        None => assert!(rt; false),
    }
    Ok(())
}

/// Words of `serve` that keep logs, for how many ids each shard has places, and whether all changes are synced.
const KEEPING: [(&[&str], u32, bool); 4] = [
    (&["--keep", "/srv/logs"], 4096, false),
    (
        &["--keep", "/srv/logs", "--each", "3", "--ids", "9"],
        9,
        false,
    ),
    (&["--keep", "/srv/logs", "--sync", "all"], 4096, true),
    (
        &["--keep", "/srv/logs", "--sync", "all", "--ids", "9"],
        9,
        true,
    ),
];

#[test]
fn logs_are_kept_in_a_folder_with_a_number_of_ids(rt: HostRuntime) -> Result<(), Fail> {
    let alloc = rt.alloc();
    for (options, ids, syncs_all) in &KEEPING {
        let mut words = words_of(alloc, &ONE_WORKER)?;
        for option in *options {
            words.push(String::from_str(alloc, option)?)?;
        }
        match asked_by(&words) {
            Asked::Serve { numbers, logs, .. } => {
                let keep = Keep {
                    ids: *ids,
                    syncs_all: *syncs_all,
                };
                assert!(rt; numbers.keep == Some(keep) && logs == Some("/srv/logs"));
            }
            _ => assert!(rt; false),
        }
    }
    Ok(())
}

const HELP: &str =
    "mokdrai once FOLDER KEY BASE [--editor [--origin ORIGIN]]\n    answers the requests of the input on the output\nmokdrai serve FOLDER PORT KEY BASE WORKERS [--journal J] [--each C] [--first V]\n    answers the requests of many connections, and then writes the journal on the output\nmokdrai serve .. [--links N] [--listen ADDRESS] [--idle S] [--patience S] [--grace S] [--verbose] [--editor [--origin ORIGIN]]\n    serves N connections at a time, at that address, with these limits in seconds\nmokdrai serve .. --keep LOGS [--ids I] [--sync all]\n    appends each entry to a log of its shard in that folder, and writes no journal\nmokdrai edit AUTHORITY ID TOKEN NONCE\n    runs the script of the input over a sheet at a host\nmokdrai edit AUTHORITY --file NAME TOKEN [--nonce NONCE] [--idle S]\n    does the same, with the name of the file and a nonce of its own\nmokdrai replay\n    runs the schedule of the input, and writes its trace on the output\nmokdrai replay SEED COUNT\n    runs a schedule that is made from two numbers, and writes its summary on the output\nmokdrai token KEY USER NAME RIGHTS SERIAL ISSUED EXPIRES\n    writes the text of an access token\nmokdrai token KEY --file NAME --user USER --for TIME [--write]\n    writes one that is issued now, and lasts for a time such as 10h\nmokdrai ctoken KEY USER RIGHTS SERIAL ISSUED EXPIRES\n    writes the text of a token of the container\nmokdrai ctoken KEY --user USER --for TIME [--write]\n    writes one that is issued now, and lasts for that time\nmokdrai upgrade\n    reads a journal from the input, and writes it in the second form on the output\nmokdrai audit\n    reads a journal from the input, and says whether it is legal, or its first line that isn't\nmokdrai contents ID VERSION\n    reads a journal from the input, and writes what the file had at that version on the output\nmokdrai --help\n    writes these lines\nmokdrai --version\n    writes the version\nKEY, and TOKEN of edit, may be @PATH: a file that only its owner may read\n";

#[test]
fn help_and_version_go_to_the_output(rt: HostRuntime) -> Result<(), Fail> {
    let alloc = rt.alloc();
    for [word, text] in [["--help", HELP], ["--version", "mokdrai 0.1.0\n"]] {
        let left = run_with(&rt, alloc, &[word], &whole(b""))?;
        assert!(rt; left.status == 0);
        assert!(rt; left.output.as_slice() == text.as_bytes());
    }
    Ok(())
}
