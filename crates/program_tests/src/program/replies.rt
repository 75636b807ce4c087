//! Requests to `once`, one after another, and their replies.
use super::{ONCE, joined, once, requests, run_with, whole};
use std::test::Fail;

const VERSION_1: &str = "HTTP/1.1 200 OK\r\nContent-Length: 0\r\nX-WOPI-ItemVersion: v1\r\n\r\n";

const VERSION_2: &str = "HTTP/1.1 200 OK\r\nContent-Length: 0\r\nX-WOPI-ItemVersion: v2\r\n\r\n";

const BAD: &str = "HTTP/1.1 400 Bad Request\r\nContent-Length: 0\r\n\r\n";

const MISSING: &str = "HTTP/1.1 404 Not Found\r\nContent-Length: 0\r\n\r\n";

const UNKNOWN: &str = "HTTP/1.1 501 Not Implemented\r\nContent-Length: 0\r\n\r\n";

const LOCK: [&str; 4] = [
    "POST",
    "",
    "X-WOPI-Override: LOCK\r\nX-WOPI-Lock: L1\r\n",
    "",
];

const LOCK_2: [&str; 4] = [
    "POST",
    "",
    "X-WOPI-Override: LOCK\r\nX-WOPI-Lock: L2\r\n",
    "",
];

const PUT: &str = "X-WOPI-Override: PUT\r\nX-WOPI-Lock: L1\r\n";

const RELATIVE: &str = "X-WOPI-Override: PUT_RELATIVE\r\n";

/// Requests one after another, the replies to them, and what the folder then has under a name.
struct Row {
    shows: &'static str,
    requests: &'static [[&'static str; 4]],
    replies: &'static [&'static str],
    name: &'static str,
    kept: &'static str,
}

const ROWS: [Row; 12] = [
    Row {
        shows: "nothing is answered to nothing",
        requests: &[],
        replies: &[],
        name: "a.csv",
        kept: "1,2\n",
    },
    Row {
        shows: "the first id takes the lock and another is told of it",
        requests: &[LOCK, LOCK_2, LOCK],
        replies: &[
            VERSION_1,
            "HTTP/1.1 409 Conflict\r\nContent-Length: 0\r\nX-WOPI-Lock: L1\r\nX-WOPI-LockFailureReason: locked\r\n\r\n",
            VERSION_1,
        ],
        name: "a.csv",
        kept: "1,2\n",
    },
    Row {
        shows: "an id may be a JSON text",
        requests: &[[
            "POST",
            "",
            "X-WOPI-Override: LOCK\r\nX-WOPI-Lock: {\"S\":\"0e6cb0ad\",\"F\":4}\r\n",
            "",
        ]],
        replies: &[VERSION_1],
        name: "a.csv",
        kept: "1,2\n",
    },
    Row {
        shows: "a save under the lock is read back and kept in the folder",
        requests: &[
            LOCK,
            ["POST", "/contents", PUT, "1,9\n"],
            ["GET", "/contents", "", ""],
        ],
        replies: &[
            VERSION_1,
            VERSION_2,
            "HTTP/1.1 200 OK\r\nContent-Length: 4\r\nContent-Type: application/octet-stream\r\nX-WOPI-ItemVersion: v2\r\n\r\n1,9\n",
        ],
        name: "a.csv",
        kept: "1,9\n",
    },
    Row {
        shows: "a save without a lock is refused where there are contents",
        requests: &[["POST", "/contents", "X-WOPI-Override: PUT\r\n", "x"]],
        replies: &[
            "HTTP/1.1 409 Conflict\r\nContent-Length: 0\r\nX-WOPI-Lock: \r\nX-WOPI-LockFailureReason: not locked\r\n\r\n",
        ],
        name: "a.csv",
        kept: "1,2\n",
    },
    Row {
        shows: "an unlocked file has an empty lock",
        requests: &[["POST", "", "X-WOPI-Override: GET_LOCK\r\n", ""]],
        replies: &["HTTP/1.1 200 OK\r\nContent-Length: 0\r\nX-WOPI-Lock: \r\n\r\n"],
        name: "a.csv",
        kept: "1,2\n",
    },
    Row {
        shows: "contents of more bytes than expected are not sent",
        requests: &[
            ["GET", "/contents", "X-WOPI-MaxExpectedSize: 3\r\n", ""],
            ["GET", "/contents", "X-WOPI-MaxExpectedSize: 4\r\n", ""],
        ],
        replies: &[
            "HTTP/1.1 412 Precondition Failed\r\nContent-Length: 0\r\n\r\n",
            "HTTP/1.1 200 OK\r\nContent-Length: 4\r\nContent-Type: application/octet-stream\r\nX-WOPI-ItemVersion: v1\r\n\r\n1,2\n",
        ],
        name: "a.csv",
        kept: "1,2\n",
    },
    Row {
        shows: "both ids of an unlock and relock are spent once they ended",
        requests: &[
            LOCK,
            [
                "POST",
                "",
                "X-WOPI-Override: LOCK\r\nX-WOPI-Lock: L2\r\nX-WOPI-OldLock: L1\r\n",
                "",
            ],
            [
                "POST",
                "",
                "X-WOPI-Override: UNLOCK\r\nX-WOPI-Lock: L1\r\n",
                "",
            ],
            [
                "POST",
                "",
                "X-WOPI-Override: UNLOCK\r\nX-WOPI-Lock: L2\r\n",
                "",
            ],
            LOCK_2,
        ],
        replies: &[
            VERSION_1,
            VERSION_1,
            "HTTP/1.1 409 Conflict\r\nContent-Length: 0\r\nX-WOPI-Lock: L2\r\nX-WOPI-LockFailureReason: lock id spent\r\n\r\n",
            VERSION_1,
            "HTTP/1.1 409 Conflict\r\nContent-Length: 0\r\nX-WOPI-Lock: \r\nX-WOPI-LockFailureReason: lock id spent\r\n\r\n",
        ],
        name: "a.csv",
        kept: "1,2\n",
    },
    Row {
        shows: "a file is told of in JSON",
        requests: &[["GET", "", "", ""]],
        replies: &[
            "HTTP/1.1 200 OK\r\nContent-Length: 259\r\nContent-Type: application/json\r\n\r\n{\"BaseFileName\":\"a.csv\",\"OwnerId\":\"owner\",\"Size\":4,\"SupportsDeleteFile\":true,\"SupportsExtendedLockLength\":true,\"SupportsGetLock\":true,\"SupportsLocks\":true,\"SupportsUpdate\":true,\"UserCanNotWriteRelative\":false,\"UserCanWrite\":true,\"UserId\":\"ann\",\"Version\":\"v1\"}",
        ],
        name: "a.csv",
        kept: "1,2\n",
    },
    Row {
        shows: "nothing is told of a file that is gone",
        requests: &[
            ["POST", "", "X-WOPI-Override: DELETE\r\n", ""],
            ["GET", "", "", ""],
        ],
        replies: &["HTTP/1.1 200 OK\r\nContent-Length: 0\r\n\r\n", MISSING],
        name: "a.csv",
        kept: "",
    },
    Row {
        shows: "a file is made beside another and told with its address",
        requests: &[
            [
                "POST",
                "",
                "X-WOPI-Override: PUT_RELATIVE\r\nX-WOPI-SuggestedTarget: .txt\r\n",
                "x",
            ],
            [
                "POST",
                "",
                "X-WOPI-Override: PUT_RELATIVE\r\nX-WOPI-SuggestedTarget: a.csv\r\n",
                "x",
            ],
        ],
        replies: &[
            "HTTP/1.1 200 OK\r\nContent-Length: 188\r\nContent-Type: application/json\r\n\r\n{\"Name\":\"a.txt\",\"Url\":\"http://localhost:8880/wopi/files/612e747874?access_token=v2.0.ann.612e747874.w.1.0.253402300799999.96a5b061d5b86785edf68549bb66ebac461dda2df9fcf94f6ba13ae8691ce213\"}",
            "HTTP/1.1 200 OK\r\nContent-Length: 208\r\nContent-Type: application/json\r\n\r\n{\"Name\":\"a (1).csv\",\"Url\":\"http://localhost:8880/wopi/files/61202831292e637376?access_token=v2.0.ann.61202831292e637376.w.1.1.253402300799999.ccb360db1cad054c9a4da29df281c359ae34a9ed6a60abdfc692b56b582a04f2\"}",
        ],
        name: "a.txt",
        kept: "x",
    },
    Row {
        shows: "a copy is refused under a taken name, with two names and with none",
        requests: &[
            [
                "POST",
                "",
                "X-WOPI-Override: PUT_RELATIVE\r\nX-WOPI-RelativeTarget: a.csv\r\n",
                "x",
            ],
            [
                "POST",
                "",
                "X-WOPI-Override: PUT_RELATIVE\r\nX-WOPI-SuggestedTarget: b.csv\r\nX-WOPI-RelativeTarget: b.csv\r\n",
                "x",
            ],
            ["POST", "", RELATIVE, "x"],
        ],
        replies: &[
            "HTTP/1.1 409 Conflict\r\nContent-Length: 0\r\nX-WOPI-Lock: \r\nX-WOPI-LockFailureReason: name taken\r\n\r\n",
            UNKNOWN,
            BAD,
        ],
        name: "a.csv",
        kept: "1,2\n",
    },
];

#[test]
fn requests_get_their_replies(rt: HostRuntime) -> Result<(), Fail> {
    let alloc = rt.alloc();
    for row in &ROWS {
        let input = requests(alloc, row.requests)?;
        let wanted = joined(alloc, row.replies)?;
        for piece in [1, 1_000_000] {
            let mut given = whole(&input);
            given.piece = piece;
            let left = run_with(&rt, alloc, &ONCE, &given)?;
            assert!(rt; left.status == 0, "{}", row.shows);
            assert!(rt;
                left.output.as_slice() == wanted.as_slice(),
                "{}",
                row.shows
            );
            assert!(rt; left.kept(row.name) == row.kept.as_bytes(), "{}", row.shows);
        }
    }
    Ok(())
}

/// Texts of requests that are refused, and what the reply begins with.
const REFUSED: [[&str; 2]; 6] = [
    [
        "POST /wopi/files/zz?access_token=t HTTP/1.1\r\nHost: h\r\nX-WOPI-Override: LOCK\r\nX-WOPI-Lock: L1\r\n\r\n",
        "HTTP/1.1 404 Not Found\r\n",
    ],
    [
        "GET /wopi/files/612e637376/contents?access_token=v1.ann.612e637376.w.1.253402300000000.253402300799999.e4367dab632e0b350a8cebce225b4b3af9ddf3ae5a45f45b85a6abd4ffe2d92b HTTP/1.1\r\nHost: h\r\n\r\n",
        "HTTP/1.1 401 Unauthorized\r\n",
    ],
    [
        "POST /wopi/files/612e637376?access_token=t HTTP/1.1\r\nHost: h\r\nX-WOPI-Lock: L1\r\n\r\n",
        "HTTP/1.1 501 Not Implemented\r\n",
    ],
    [
        "POST /wopi/files/612e637376?access_token=t HTTP/1.1\r\nHost: h\r\nX-WOPI-Override: LOCK\r\n\r\n",
        "HTTP/1.1 400 Bad Request\r\n",
    ],
    [
        "POST /wopi/files/612e637376?access_token=t HTTP/1.1\r\nHost: h\r\nX-WOPI-Override: LOCK\r\nX-WOPI-Lock:\r\n\r\n",
        "HTTP/1.1 400 Bad Request\r\n",
    ],
    [
        "POST /wopi/files/612e637376 HTTP/1.1\r\nHost: h\r\nX-WOPI-Override: LOCK\r\nX-WOPI-Lock: L1\r\n\r\n",
        "HTTP/1.1 401 Unauthorized\r\n",
    ],
];

#[test]
fn a_refused_request_is_answered_and_the_connection_goes_on(rt: HostRuntime) -> Result<(), Fail> {
    let alloc = rt.alloc();
    let good = requests(alloc, &[LOCK])?;
    for [refused, line] in &REFUSED {
        let mut input = joined(alloc, &[refused])?;
        input.extend_from_slice(&good)?;
        let left = once(&rt, alloc, &input)?;
        let output = left.output.as_slice();
        assert!(rt; left.status == 0, "{refused}");
        assert!(rt; output.starts_with(line.as_bytes()), "{refused}");
        assert!(rt; output.ends_with(VERSION_1.as_bytes()), "{refused}");
    }
    Ok(())
}

const CLOSED: &str = "HTTP/1.1 400 Bad Request\r\nContent-Length: 0\r\nConnection: close\r\n\r\n";

/// Texts that are no message, and the replies to them, which close.
const NO_MESSAGES: [[&str; 2]; 5] = [
    [
        "POST /wopi/files/612e637376?access_token=t HTTP/1.1\r\nHost: h\r\nX-WOPI-Override: LOCK\r\nX-WOPI-Lock: L1\r\nContent-Length: 0\r\n\r",
        CLOSED,
    ],
    [
        "POST /wopi/files/612e637376?access_token=t HTTP/1.1\r\nHost: h\r\nContent-Length: 1\r\n\r\n",
        CLOSED,
    ],
    [
        "POST / HTTP/1.1\r\nHost: h\r\nContent-Length: 2\r\nTransfer-Encoding: chunked\r\n\r\n",
        CLOSED,
    ],
    ["GET / HTTP/1.1\r\n\r\n", CLOSED],
    [
        "POST / HTTP/1.1\r\nHost: h\r\nTransfer-Encoding: gzip\r\n\r\n",
        "HTTP/1.1 501 Not Implemented\r\nContent-Length: 0\r\nConnection: close\r\n\r\n",
    ],
];

#[test]
fn what_is_no_message_closes(rt: HostRuntime) -> Result<(), Fail> {
    let alloc = rt.alloc();
    for [text, wanted] in &NO_MESSAGES {
        let left = once(&rt, alloc, text.as_bytes())?;
        assert!(rt; left.output.as_slice() == wanted.as_bytes(), "{text}");
    }
    Ok(())
}
