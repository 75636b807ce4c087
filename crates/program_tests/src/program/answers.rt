//! Replies to `edit` that refuse, that say what they shouldn't, and whose bodies are out of form.
use super::edits::{CONTENTS, INFO, VERSION_1, VERSION_2, VERSION_3, edit};
use std::alloc::Global;
use std::test::Fail;
use wopi_text::Memory;

const DEAD: &[u8] = b"HTTP/1.1 401 Unauthorized\r\nContent-Length: 0\r\n\r\n";

const GONE: &[u8] = b"HTTP/1.1 404 Not Found\r\nContent-Length: 0\r\n\r\n";

const LARGE: &[u8] = b"HTTP/1.1 413 Content Too Large\r\nContent-Length: 0\r\n\r\n";

const FAULT: &[u8] = b"HTTP/1.1 500 Internal Server Error\r\n\r\nstore fault";

const BUSY: &[u8] = b"HTTP/1.1 503 \r\nContent-Length: 0\r\n\r\n";

const NOTHING: &[u8] = b"HTTP/1.1 204 No Content\r\nContent-Length: 9\r\n\r\n";

const TAKEN: &[u8] =
    b"HTTP/1.1 409 Conflict\r\nContent-Length: 0\r\nX-WOPI-Lock: other\r\nX-WOPI-LockFailureReason: locked\r\n\r\n";

const BARE: &[u8] = b"HTTP/1.1 409 Conflict\r\nContent-Length: 0\r\n\r\n";

const ODD: &[u8] =
    b"HTTP/1.1 409 Conflict\r\nContent-Length: 0\r\nX-WOPI-Lock: \xe9\r\nX-WOPI-LockFailureReason: because\r\n\r\n";

const RELOCKED: &[u8] =
    b"HTTP/1.1 409 Conflict\r\nContent-Length: 0\r\nX-WOPI-Lock: n-2\r\nX-WOPI-LockFailureReason: lock id spent\r\n\r\n";

const SPENT: &[u8] =
    b"HTTP/1.1 409 Conflict\r\nContent-Length: 0\r\nX-WOPI-Lock: \r\nX-WOPI-LockFailureReason: lock id spent\r\n\r\n";

const SCRIPT: &[u8] = b"open\nset 1 2 9\nsave\nset 1 1 7\nsave\nclose\n";

/// The host's answers to a script of two saves, and what it comes to: the status, the output and how many
/// requests there were.
struct Row {
    replies: &'static [&'static [u8]],
    status: u8,
    output: &'static [u8],
    requests: usize,
}

const ROWS: [Row; 18] = [
    Row {
        replies: &[DEAD],
        status: 8,
        output: b"token dead\n",
        requests: 1,
    },
    Row {
        replies: &[TAKEN],
        status: 8,
        output: b"host fault 409\n",
        requests: 1,
    },
    Row {
        replies: &[INFO, GONE],
        status: 8,
        output: b"gone\n",
        requests: 2,
    },
    Row {
        replies: &[INFO, BARE],
        status: 8,
        output: b"conflict - -\n",
        requests: 2,
    },
    Row {
        replies: &[INFO, ODD],
        status: 8,
        output: b"conflict - -\n",
        requests: 2,
    },
    Row {
        replies: &[INFO, VERSION_1, FAULT],
        status: 8,
        output: b"host fault 500\n",
        requests: 3,
    },
    Row {
        replies: &[INFO, VERSION_1, LARGE],
        status: 8,
        output: b"host fault 413\n",
        requests: 3,
    },
    Row {
        replies: &[INFO, VERSION_1, CONTENTS, LARGE],
        status: 8,
        output: b"opened v1 1\ntoo large\n",
        requests: 4,
    },
    Row {
        replies: &[INFO, VERSION_1, CONTENTS, BUSY],
        status: 8,
        output: b"opened v1 1\nhost fault 503\n",
        requests: 4,
    },
    Row {
        replies: &[INFO, VERSION_1, CONTENTS, NOTHING],
        status: 8,
        output: b"opened v1 1\nhost fault 204\n",
        requests: 4,
    },
    Row {
        replies: &[INFO, VERSION_1, CONTENTS, TAKEN],
        status: 8,
        output: b"opened v1 1\nlock lost other locked\n",
        requests: 4,
    },
    Row {
        replies: &[INFO, VERSION_1, CONTENTS, SPENT],
        status: 8,
        output: b"opened v1 1\nlock lost - lock id spent\n",
        requests: 4,
    },
    Row {
        replies: &[INFO, VERSION_1, CONTENTS, VERSION_2, TAKEN],
        status: 8,
        output: b"opened v1 1\nsaved v2\nlock lost other locked\n",
        requests: 5,
    },
    Row {
        replies: &[
            INFO, VERSION_1, CONTENTS, VERSION_2, RELOCKED, VERSION_3, VERSION_3,
        ],
        status: 0,
        output: b"opened v1 1\nsaved v2\nsaved v3\nclosed\n",
        requests: 7,
    },
    Row {
        replies: &[INFO, VERSION_1, CONTENTS, VERSION_2, VERSION_2, RELOCKED],
        status: 8,
        output: b"opened v1 1\nsaved v2\nlock lost n-2 lock id spent\n",
        requests: 6,
    },
    Row {
        replies: &[
            INFO, VERSION_1, CONTENTS, VERSION_2, VERSION_2, VERSION_3, SPENT,
        ],
        status: 0,
        output: b"opened v1 1\nsaved v2\nsaved v3\nclosed\n",
        requests: 7,
    },
    Row {
        replies: &[
            INFO, VERSION_1, CONTENTS, VERSION_2, VERSION_2, VERSION_3, TAKEN,
        ],
        status: 8,
        output: b"opened v1 1\nsaved v2\nsaved v3\nlock lost other locked\n",
        requests: 7,
    },
    Row {
        replies: &[INFO, VERSION_1, CONTENTS, VERSION_2, VERSION_2, GONE],
        status: 8,
        output: b"opened v1 1\nsaved v2\ngone\n",
        requests: 6,
    },
];

#[test]
fn each_refusal_of_a_host_has_its_outcome(rt: HostRuntime) -> Result<(), Fail> {
    let alloc = rt.alloc();
    for (place, row) in ROWS.iter().enumerate() {
        let left = edit(&rt, alloc, SCRIPT, row.replies)?;
        assert!(rt; left.status == row.status, "row {place}");
        assert!(rt; left.output.as_slice() == row.output, "row {place}");
        assert!(rt;
            left.dialer.exchanges().len() == row.requests,
            "row {place}"
        );
    }
    Ok(())
}

/// A reply of 200 with this body.
pub fn sized(alloc: Global, body: &[u8]) -> Result<Vec<u8>, Memory> {
    let head = format!(in alloc; "HTTP/1.1 200 OK\r\nContent-Length: {}\r\n\r\n", body.len())?;
    let mut bytes = head.into_bytes();
    bytes.extend_from_slice(body)?;
    Ok(bytes)
}
