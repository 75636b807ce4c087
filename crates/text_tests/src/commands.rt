//! The words of the commands, as people write them.
use access_tokens::is_origin;
use command_words::{Chance, Given, Refused, explain, meant, secret_place, span_of, wrong_line};
use std::alloc::Global;
use std::test::Fail;
use wopi_text::Memory;

/// At hand: the moment 1000, and sixteen bytes 0xab.
const CHANCE: Chance = Chance {
    moment: 1000,
    random: [0xab; 16],
};

fn words_of(alloc: Global, line: &str) -> Result<Vec<String>, Memory> {
    let mut words = Vec::new(alloc);
    for word in line.split(' ') {
        words.push(String::from_str(alloc, word)?)?;
    }
    Ok(words)
}

/// What a line means, with a space between its words.
fn line_of(alloc: Global, given: &Given) -> Result<String, Memory> {
    let mut line = String::new(alloc);
    for word in &given.words {
        if !line.is_empty() {
            line.push_str(" ")?;
        }
        line.push_str(word.as_str())?;
    }
    Ok(line)
}

/// Lines, and the words that the program reads.
const MEANT: [[&str; 2]; 25] = [
    ["once . 4a http://localhost", "once . 4a http://localhost"],
    [
        "serve . 8880 4a http://localhost 2 --first 7 --each 3",
        "serve . 8880 4a http://localhost 2 --first 7 --each 3",
    ],
    [
        "serve --links=40 --listen 0.0.0.0 . 8880 --each 3 4a http://localhost 2 --verbose",
        "serve . 8880 4a http://localhost 2 --links 40 --each 3",
    ],
    [
        "serve . 8880 4a http://localhost 2 --idle=5 --patience 6 --grace 7",
        "serve . 8880 4a http://localhost 2",
    ],
    [
        "serve --editor . 8880 --each 3 4a http://localhost --editor 2",
        "serve . 8880 4a http://localhost 2 --editor --each 3",
    ],
    [
        "once . 4a http://localhost --editor",
        "once . 4a http://localhost --editor",
    ],
    [
        "serve . --ids=9 8880 4a --keep /srv/logs http://localhost 2 --first 7 --editor",
        "serve . 8880 4a http://localhost 2 --editor --keep /srv/logs --ids 9 --first 7",
    ],
    [
        "serve . 8880 4a http://localhost 2 --sync all --keep=logs",
        "serve . 8880 4a http://localhost 2 --keep logs --sync all",
    ],
    [
        "serve --keep=logs . 8880 4a --each 3 http://localhost 2 --editor --origin http://cloud",
        "serve . 8880 4a http://localhost 2 --editor --origin http://cloud --keep logs --each 3",
    ],
    [
        "serve --origin https://cloud.example . 8880 --each=3 4a http://localhost 2 --editor",
        "serve . 8880 4a http://localhost 2 --editor --origin https://cloud.example --each 3",
    ],
    [
        "serve . 8880 4a http://localhost 2 --editor --origin=http://cloud:8080 --verbose",
        "serve . 8880 4a http://localhost 2 --editor --origin http://cloud:8080",
    ],
    [
        "serve . 8880 4a http://localhost 2 --each 3 --origin https://cloud.example",
        "serve . 8880 4a http://localhost 2 --origin https://cloud.example --each 3",
    ],
    [
        "once . 4a http://localhost --editor --origin https://cloud.example",
        "once . 4a http://localhost --editor --origin https://cloud.example",
    ],
    [
        "edit localhost:8880 612e637376 t n1",
        "edit localhost:8880 612e637376 t n1",
    ],
    [
        "edit localhost:8880 --file a.csv t",
        "edit localhost:8880 612e637376 t abababababababababababababababab",
    ],
    [
        "edit --nonce=n2 localhost:8880 t --file=a.csv",
        "edit localhost:8880 612e637376 t n2",
    ],
    ["token 4a ann a.csv w 1 0 9", "token 4a ann a.csv w 1 0 9"],
    [
        "token --file a.csv --user ann --write --for 10h 4a",
        "token 4a ann a.csv w 1000 1000 36001000",
    ],
    [
        "token 4a --for=1d --file=a.csv --user=bob",
        "token 4a bob a.csv r 1000 1000 86401000",
    ],
    [
        "ctoken 4a --for 90s --user ann --read",
        "ctoken 4a ann r 1000 1000 91000",
    ],
    ["-h", "--help"],
    ["help", "--help"],
    ["serve --help", "--help"],
    ["-V", "--version"],
    ["replay 7 10", "replay 7 10"],
];

#[test]
fn lines_mean_the_words_that_the_program_reads(rt: HostRuntime) -> Result<(), Fail> {
    let alloc = rt.alloc();
    for [line, wanted] in &MEANT {
        let words = words_of(alloc, line)?;
        match meant(alloc, &words, &CHANCE) {
            Ok(given) => {
                let line = line_of(alloc, &given)?;
                assert!(rt; line.as_str() == *wanted, "{line}");
            }
            Err(_) => assert!(rt; false, "{line}"),
        }
    }
    Ok(())
}

#[test]
fn the_adapters_take_their_options(rt: HostRuntime) -> Result<(), Fail> {
    let alloc = rt.alloc();
    let words = words_of(
        alloc,
        "serve --listen 0.0.0.0 . 8880 --idle=0 4a http://localhost 2 --grace 7 --verbose",
    )?;
    let Ok(given) = meant(alloc, &words, &CHANCE) else {
        return Err(Fail::from(Memory));
    };
    assert!(rt; given.around.listen.as_str() == "0.0.0.0");
    assert!(rt; given.around.idle == 0);
    assert!(rt; given.around.patience == 120);
    assert!(rt; given.around.grace == 7);
    assert!(rt; given.around.verbose);
    Ok(())
}

/// The line that is told of words, of those that `meant` refuses and of those that the program would.
fn told(alloc: Global, line: &str) -> Result<Vec<u8>, Memory> {
    let words = words_of(alloc, line)?;
    match meant(alloc, &words, &CHANCE) {
        Err(Refused::Words(wrong)) => wrong_line(alloc, &words, wrong),
        Err(Refused::Memory) => Err(Memory),
        Ok(given) => match explain(&given.words) {
            Some(wrong) => wrong_line(alloc, &given.words, wrong),
            None => Ok(Vec::new(alloc)),
        },
    }
}

/// Lines that are no command, and what begins the line that is told.
const TOLD: [[&str; 2]; 41] = [
    ["frob", "a command frob: once, serve, edit"],
    ["once", "FOLDER is missing: the path of a folder"],
    ["once . 4a6 http://localhost", "KEY: 1 to 64 bytes in hex"],
    [
        "once . 4a http://localhost/",
        "BASE http://localhost/: 1 to 200 visible",
    ],
    [
        "once . 4a http://localhost more",
        "the word more: no word stands there",
    ],
    [
        "once . 4a http://localhost --editor more",
        "the word more: no word stands there",
    ],
    [
        "serve . 99999 4a http://localhost 2",
        "PORT 99999: a number from 1 to 65535",
    ],
    [
        "serve . 8880 4a http://localhost 17",
        "WORKERS 17: a number from 1 to 16",
    ],
    [
        "serve . 8880 4a http://localhost 2 --links 1025",
        "--links 1025: a number from 1 to 1024",
    ],
    [
        "serve . 8880 4a http://localhost 2 --first 1 --first 1",
        "an option --first: --journal, --each, --first, --links,",
    ],
    [
        "serve . 8880 4a http://localhost 2 --frob 1",
        "an option --frob: --journal",
    ],
    [
        "serve . 8880 4a http://localhost 2 --ids 9",
        "an option --ids: --journal",
    ],
    [
        "serve . 8880 4a http://localhost 2 --journal 9 --keep logs",
        "an option --journal: --journal",
    ],
    [
        "serve . 8880 4a http://localhost 2 --keep logs --ids 32769",
        "--ids 32769: a number from 1 to 32768",
    ],
    [
        "serve . 8880 4a http://localhost 2 --keep logs --ids 0",
        "--ids 0: a number from 1 to 32768",
    ],
    [
        "serve . 8880 4a http://localhost 2 --sync all",
        "an option --sync: --journal",
    ],
    [
        "serve . 8880 4a http://localhost 2 --keep logs --sync some",
        "--sync some: the word all",
    ],
    [
        "serve . 8880 4a http://localhost 2 --keep= --ids 9",
        "--keep: the path of a folder",
    ],
    [
        "serve . 8880 4a http://localhost 2 --keep",
        "the value of the last option is missing",
    ],
    [
        "serve . 8880 4a http://localhost 2 --keep logs --keep logs",
        "an option --keep: --journal",
    ],
    [
        "serve . 8880 4a http://localhost 2 --editor --links 1025",
        "--links 1025: a number from 1 to 1024",
    ],
    [
        "serve . 8880 4a http://localhost 2 --origin https://cloud.example",
        "an option --origin: --journal, --each, --first, --links,",
    ],
    [
        "serve . 8880 4a http://localhost 2 --editor --origin https://cloud.example/",
        "--origin https://cloud.example/: http:// or https://, a host in lower case,",
    ],
    [
        "serve . 8880 4a http://localhost 2 --editor --origin=https://cloud.example:443",
        "--origin https://cloud.example:443: http:// or https://",
    ],
    [
        "serve . 8880 4a http://localhost 2 --editor --origin http://a --origin http://b",
        "an option --origin: --journal",
    ],
    [
        "serve . 8880 4a http://localhost 2 --editor --origin",
        "the value of the last option is missing",
    ],
    [
        "once . 4a http://localhost --origin https://cloud.example",
        "the word --origin: no word stands there",
    ],
    [
        "once . 4a http://localhost --editor --origin",
        "--origin is missing: http:// or https://",
    ],
    [
        "once . 4a http://localhost --editor --origin https://cloud.example more",
        "the word more: no word stands there",
    ],
    [
        "serve . 8880 4a http://localhost 2 --idle x",
        "--idle S: a number of seconds",
    ],
    [
        "serve . 8880 4a http://localhost 2 --each",
        "the value of the last option is missing",
    ],
    [
        "edit localhost 612e637376 t n",
        "AUTHORITY localhost: the host's name",
    ],
    [
        "edit localhost:8880 a.csv t n",
        "ID a.csv: a file's name in lower-case hex",
    ],
    [
        "edit localhost:8880 --file a/b t",
        "--file NAME: the name of a file",
    ],
    ["replay 7 10001", "COUNT 10001: a number from 0 to 10000"],
    ["token 4a ann a.csv rw 1 0 1", "RIGHTS rw: r or w"],
    [
        "token 4a --user ann --file a.csv --for 10",
        "--for TIME: it stands once",
    ],
    [
        "token 4a --user a.b --file a.csv --for 10h",
        "USER a.b: 1 to 64 ASCII",
    ],
    [
        "ctoken 4a --user ann --for 1h --read --write",
        "--read, --write: one of them",
    ],
    ["upgrade more", "the word more: no word stands there"],
    ["contents 612e637376 v1", "VERSION v1: a number below 2^64"],
];

#[test]
fn what_is_wrong_is_told(rt: HostRuntime) -> Result<(), Fail> {
    let alloc = rt.alloc();
    for [line, wanted] in &TOLD {
        let text = told(alloc, line)?;
        assert!(rt; text.starts_with(wanted.as_bytes()), "{line}");
        assert!(rt; text.last() == Some(&b'\n'), "{line}");
    }
    Ok(())
}

#[test]
fn a_secret_may_be_a_path(rt: HostRuntime) -> Result<(), Fail> {
    let alloc = rt.alloc();
    for [line, wanted] in &[
        ["once . @k http://localhost", "2 k"],
        ["serve . 8880 @/etc/k http://localhost 2", "3 /etc/k"],
        ["edit localhost:8880 612e637376 @t n", "3 t"],
        ["token @ ann a.csv w 1 0 9", "1 "],
    ] {
        let words = words_of(alloc, line)?;
        let Some((place, path)) = secret_place(&words) else {
            return Err(Fail::from(Memory));
        };
        let found = format!(in alloc; "{place} {path}")?;
        assert!(rt; found.as_str() == *wanted);
    }
    let words = words_of(alloc, "once @k 4a http://localhost")?;
    assert!(rt; secret_place(&words).is_none());
    Ok(())
}

#[test]
fn a_time_has_a_unit(rt: HostRuntime) -> Result<(), Fail> {
    assert!(rt; span_of("90s") == Some(90_000));
    assert!(rt; span_of("2m") == Some(120_000));
    assert!(rt; span_of("10h") == Some(36_000_000));
    assert!(rt; span_of("7d") == Some(604_800_000));
    for word in [
        "",
        "h",
        "10",
        "0h",
        "01h",
        "1w",
        "-1h",
        "1 h",
        "99999999999999999d",
    ] {
        assert!(rt; span_of(word).is_none(), "{word}");
    }
    Ok(())
}

/// Texts that are the origin of a page.
const ORIGINS: [&str; 6] = [
    "http://a",
    "https://cloud.example",
    "https://cloud.example:8443",
    "http://127.0.0.1:65535",
    "https://my_page-2.example",
    "http://cloud:443",
];

/// Texts that are none.
const NO_ORIGINS: [&str; 17] = [
    "",
    "null",
    "http://",
    "https://:8443",
    "https://cloud.example/",
    "https://cloud.example/page",
    "https://cloud.example:",
    "https://cloud.example:0",
    "https://cloud.example:08",
    "https://cloud.example:443",
    "http://cloud.example:80",
    "https://cloud.example:65536",
    "https://Cloud.example",
    "HTTPS://cloud.example",
    "ftp://cloud.example",
    "https://ann@cloud.example",
    "https://cloud.example\"",
];

#[test]
fn an_origin_has_one_form(rt: HostRuntime) -> Result<(), Fail> {
    for text in &ORIGINS {
        assert!(rt; is_origin(text.as_bytes()), "{text}");
    }
    for text in &NO_ORIGINS {
        assert!(rt; !is_origin(text.as_bytes()), "{text}");
    }
    Ok(())
}
