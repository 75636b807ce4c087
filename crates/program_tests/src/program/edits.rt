//! The command `edit` over a host that answers by a script.
use super::{Given, Left, TOKEN, fakes, run_in, run_with, whole};
use outside::ScriptDialer;
use std::alloc::Global;
use std::sync::Wait;
use std::test::Fail;
use std::thread::Threads;
use wopi_text::{Bytes, Memory};

const WORDS: [&str; 5] = ["edit", "localhost:8880", "612e637376", TOKEN, "n"];

pub const INFO: &[u8] =
    b"HTTP/1.1 200 OK\r\nContent-Length: 79\r\nContent-Type: application/json\r\n\r\n\
{\"BaseFileName\":\"a.csv\",\"OwnerId\":\"owner\",\"Size\":4,\"UserId\":\"u\",\"Version\":\"v1\"}";

pub const CONTENTS: &[u8] =
    b"HTTP/1.1 200 OK\r\nContent-Length: 4\r\nX-WOPI-ItemVersion: v1\r\n\r\n1,2\n";

pub const VERSION_1: &[u8] =
    b"HTTP/1.1 200 OK\r\nContent-Length: 0\r\nX-WOPI-ItemVersion: v1\r\n\r\n";

pub const VERSION_2: &[u8] =
    b"HTTP/1.1 200 OK\r\nContent-Length: 0\r\nX-WOPI-ItemVersion: v2\r\n\r\n";

pub const VERSION_3: &[u8] =
    b"HTTP/1.1 200 OK\r\nContent-Length: 0\r\nX-WOPI-ItemVersion: v3\r\n\r\n";

const SUMS: &[u8] = b"HTTP/1.1 200 OK\r\nContent-Length: 31\r\nX-WOPI-ItemVersion: v1\r\n\r\n\
1,2,=A1+B1\n=SUM(A1:C1),=A2*2,x\n";

const CYCLE: &[u8] =
    b"HTTP/1.1 200 OK\r\nContent-Length: 16\r\nX-WOPI-ItemVersion: v1\r\n\r\n=B1,=A1,=A1,=1+\n";

const LOCKED: &[u8] =
    b"HTTP/1.1 409 Conflict\r\nContent-Length: 0\r\nX-WOPI-Lock: other\r\nX-WOPI-LockFailureReason: locked\r\n\r\n";

const COPIED: &[u8] =
    b"HTTP/1.1 200 OK\r\nContent-Length: 26\r\nContent-Type: application/json\r\n\r\n{\"Name\":\"b.csv\",\"Url\":\"u\"}";

/// A script, the host's answers, and what it comes to: the status, the output and how many requests there were.
struct Row {
    script: &'static [u8],
    replies: &'static [&'static [u8]],
    status: u8,
    output: &'static [u8],
    requests: usize,
}

const ROWS: [Row; 11] = [
    Row {
        script: b"open\nset 1 2 9\nsave\nset 1 1 7\nsave\nclose",
        replies: &[
            INFO, VERSION_1, CONTENTS, VERSION_2, VERSION_2, VERSION_3, VERSION_3,
        ],
        status: 0,
        output: b"opened v1 1\nsaved v2\nsaved v3\nclosed\n",
        requests: 7,
    },
    Row {
        script: b"open\nset 1 2 9\nsave\nset 1 1 7\nsave\nsaveas b.csv\nclose\n",
        replies: &[
            INFO, VERSION_1, CONTENTS, VERSION_2, VERSION_2, VERSION_3, COPIED, VERSION_3,
        ],
        status: 0,
        output: b"opened v1 1\nsaved v2\nsaved v3\nsaved as b.csv\nclosed\n",
        requests: 8,
    },
    Row {
        script: b"show\nopen\ninsrow 1\nundo\nundo\nshow\nclose\n",
        replies: &[INFO, VERSION_1, CONTENTS, VERSION_1],
        status: 0,
        output: b"not open\nopened v1 1\nnothing to undo\n1,2\nclosed\n",
        requests: 4,
    },
    Row {
        script: b"values\nopen\nvalues\nset 1 1 5\nvalues\ninsrow 1\nvalues\nundo\nvalues\nclose\n",
        replies: &[INFO, VERSION_1, SUMS, VERSION_1],
        status: 0,
        output: b"not open\nopened v1 2\n1,2,3\n6,12,x\n5,2,7\n14,28,x\n\"\"\n5,2,0\n0,10,x\n\
5,2,7\n14,28,x\nclosed\n",
        requests: 4,
    },
    Row {
        script: b"open\nvalues\nset 1 2 4\nvalues\n\
set 1 1 =170141183460469231731687303715884105727+1\nvalues\nclose\n",
        replies: &[INFO, VERSION_1, CYCLE, VERSION_1],
        status: 0,
        output: b"opened v1 1\n#CYCLE,#CYCLE,#CYCLE,#NAME\n4,4,4,#NAME\n#NUM,4,#NUM,#NAME\nclosed\n",
        requests: 4,
    },
    Row {
        script: b"open\n\nset 1 x\nclose\n",
        replies: &[INFO],
        status: 7,
        output: b"line 3: bad line\n",
        requests: 0,
    },
    Row {
        script: b"set 1 1 \xff\nopen now",
        replies: &[INFO],
        status: 7,
        output: b"line 2: bad line\n",
        requests: 0,
    },
    Row {
        script: b"open\nclose",
        replies: &[INFO, LOCKED],
        status: 8,
        output: b"conflict other locked\n",
        requests: 2,
    },
    Row {
        script: b"open\nclose",
        replies: &[],
        status: 9,
        output: b"no answer\n",
        requests: 3,
    },
    Row {
        script: b"open\nsaveas b.csv\nclose",
        replies: &[INFO, VERSION_1, CONTENTS],
        status: 9,
        output: b"opened v1 1\nno answer\n",
        requests: 4,
    },
    Row {
        script: b"open\nclose",
        replies: &[b"HTP"],
        status: 11,
        output: b"bad reply 0\n",
        requests: 1,
    },
];

/// Runs `edit` on this, over this host.
pub fn edit_on<R: Threads + Wait + Sync>(
    rt: &R,
    alloc: Global,
    given: &Given,
    host: ScriptDialer,
) -> Result<Left, Memory> {
    let mut outside = fakes(alloc, given)?;
    outside.dialer = host;
    run_in(rt, alloc, &WORDS, outside)
}

/// Runs `edit` on a script, over a host that answers so.
pub fn edit<R: Threads + Wait + Sync>(
    rt: &R,
    alloc: Global,
    script: &[u8],
    replies: &[&[u8]],
) -> Result<Left, Memory> {
    let mut list = Vec::new(alloc);
    for reply in replies {
        list.push(Some(Bytes::from_slice(alloc, reply)?))?;
    }
    edit_on(rt, alloc, &whole(script), ScriptDialer::new(alloc, list))
}

#[test]
fn scripts_have_their_outputs_requests_and_statuses(rt: HostRuntime) -> Result<(), Fail> {
    let alloc = rt.alloc();
    for (place, row) in ROWS.iter().enumerate() {
        let left = edit(&rt, alloc, row.script, row.replies)?;
        assert!(rt; left.status == row.status, "row {place}");
        assert!(rt; left.output.as_slice() == row.output, "row {place}");
        assert!(rt;
            left.dialer.exchanges().len() == row.requests,
            "row {place}"
        );
        assert!(rt; left.notes.as_slice().is_empty(), "row {place}");
    }
    Ok(())
}

#[test]
fn the_sheet_is_sent_as_it_is_then(rt: HostRuntime) -> Result<(), Fail> {
    let alloc = rt.alloc();
    let script = b"open\nset 1 2 9\nsave";
    let left = edit(&rt, alloc, script, &[INFO, VERSION_1, CONTENTS, VERSION_2])?;
    let put = format!(in alloc;
        "POST /wopi/files/612e637376/contents?access_token={TOKEN} HTTP/1.1\r\nHost: localhost:8880\r\n\
X-WOPI-Override: PUT\r\nX-WOPI-Lock: n-1\r\nContent-Length: 4\r\nConnection: close\r\n\r\n1,9\n"
    )?;
    let last = left.dialer.exchanges().last().ok_or("a request")?;
    assert!(rt; last.request.as_slice() == put.as_bytes());
    Ok(())
}
