//! The container: the command `ctoken`, and what `once` answers to the tokens that it writes.
use super::{ONCE, TOKEN, joined, lock_request, once, request_by, run_with, whole};
use std::alloc::Global;
use std::test::Fail;
use wopi_text::Memory;

/// The words for the container's token of the tests.
const WORDS: [&str; 7] = [
    "ctoken",
    "4a656665",
    "ann",
    "w",
    "1",
    "253402300000000",
    "253402300799999",
];

/// What the command writes of them.
const LIVE: &str =
    "c1.0.ann.w.1.253402300000000.253402300799999.e2b832a4c30620fa62365c81321ab7cf3cad269f2f432a44e0a600495fe7db72";

/// The same with a zero too many in the key's number, and the code of that text.
const ZERO: &str =
    "c1.00.ann.w.1.253402300000000.253402300799999.98c0f6c4a3e0c0aca5a5650bd36e620511a7e8fb9ffdb5618ec4cca9865ff289";

/// One that expired at the moment 0.
const DEAD: &str =
    "c1.0.ann.w.1.0.0.3269c7db0ac9a02870e61f5f4cb9ef90c034a803234c3079cd32db19b0463ccb";

/// One under the key `k` with the number 0.
const FORMER: &str =
    "c1.0.ann.w.1.253402300000000.253402300799999.acd0e87bbbf99ac0d600971530e3a72bca76245168a9204571631e6c4070467c";

/// The token for `a.csv` that a list that is made at the moment 2 carries.
const CHILD: &str =
    "v2.0.ann.612e637376.w.1.2.253402300799999.52a2979c1f924ede07141f1f03b84515804dc562790a0a799ec90b0c0d3477c1";

const ROOT: &str = "/wopi/containers/root";

const CHILDREN: &str = "/wopi/containers/root/children";

const NAMED: &str =
    "HTTP/1.1 200 OK\r\nContent-Length: 15\r\nContent-Type: application/json\r\n\r\n{\"Name\":\"root\"}";

const DENIED: &str = "HTTP/1.1 401 Unauthorized\r\nContent-Length: 0\r\n\r\n";

const MISSING: &str = "HTTP/1.1 404 Not Found\r\nContent-Length: 0\r\n\r\n";

const UNKNOWN: &str = "HTTP/1.1 501 Not Implemented\r\nContent-Length: 0\r\n\r\n";

#[test]
fn a_container_token_is_written_with_a_line_feed(rt: HostRuntime) -> Result<(), Fail> {
    let alloc = rt.alloc();
    let left = run_with(&rt, alloc, &WORDS, &whole(b""))?;
    let wanted = joined(alloc, &[LIVE, "\n"])?;
    assert!(rt; left.status == 0);
    assert!(rt; left.output.as_slice() == wanted.as_slice());
    assert!(rt; left.notes.as_slice() == b"".as_slice());
    Ok(())
}

/// Words that are no command: a name too many, a right too few, a serial number out of form, no key.
const NO_WORDS: [&[&str]; 4] = [
    &["ctoken", "4a656665", "ann", "a.csv", "w", "1", "0", "1"],
    &["ctoken", "4a656665", "ann", "1", "0", "1"],
    &["ctoken", "4a656665", "ann", "w", "01", "0", "1"],
    &["ctoken", "4a65666", "ann", "w", "1", "0", "1"],
];

#[test]
fn words_out_of_form_are_no_container_token(rt: HostRuntime) -> Result<(), Fail> {
    let alloc = rt.alloc();
    for words in &NO_WORDS {
        let left = run_with(&rt, alloc, words, &whole(b""))?;
        assert!(rt; left.status == 2);
        assert!(rt; left.notes.as_slice() == b"usage\n".as_slice());
    }
    Ok(())
}

/// A request's method, its path and its token, and the reply.
const ANSWERS: [[&str; 4]; 14] = [
    ["GET", ROOT, LIVE, NAMED],
    ["GET", "/wopi/containers/x", LIVE, MISSING],
    ["GET", "/wopi/containers/", LIVE, MISSING],
    ["GET", "/wopi/containers/root/", LIVE, MISSING],
    ["GET", "/wopi/containers/root/children/x", LIVE, MISSING],
    ["POST", "/wopi/containers/x", LIVE, MISSING],
    ["POST", ROOT, LIVE, UNKNOWN],
    ["POST", CHILDREN, LIVE, UNKNOWN],
    ["GET", CHILDREN, TOKEN, DENIED],
    ["GET", CHILDREN, DEAD, DENIED],
    ["GET", CHILDREN, FORMER, DENIED],
    ["GET", CHILDREN, ZERO, DENIED],
    ["GET", ROOT, "", DENIED],
    ["GET", "/wopi/files/612e637376", LIVE, DENIED],
];

/// A request without a body.
fn asking(alloc: Global, method: &str, path: &str, token: &str) -> Result<Vec<u8>, Memory> {
    let text = format!(in alloc;
        "{method} {path}?access_token={token} HTTP/1.1\r\nHost: h\r\nContent-Length: 0\r\n\r\n"
    )?;
    Ok(text.into_bytes())
}

#[test]
fn the_container_is_told_of_by_its_path_and_its_token(rt: HostRuntime) -> Result<(), Fail> {
    let alloc = rt.alloc();
    for [method, path, token, reply] in &ANSWERS {
        let input = asking(alloc, method, path, token)?;
        let left = once(&rt, alloc, &input)?;
        assert!(rt; left.status == 0, "{path}");
        assert!(rt; left.output.as_slice() == reply.as_bytes(), "{path}");
    }
    Ok(())
}

/// The list of the folder of the tests once its file was saved.
fn listed(alloc: Global) -> Result<Vec<u8>, Memory> {
    let body = format!(in alloc;
        "{{\"ChildContainers\":[],\"ChildFiles\":[{{\"Name\":\"a.csv\",\"Size\":4,\"Url\":\"http://localhost:8880/wopi/files/612e637376?access_token={CHILD}\",\"Version\":\"v2\"}}]}}"
    )?;
    let text = format!(in alloc;
        "HTTP/1.1 200 OK\r\nContent-Length: {}\r\nContent-Type: application/json\r\n\r\n{body}",
        body.len()
    )?;
    Ok(text.into_bytes())
}

#[test]
fn a_save_is_seen_in_the_list_behind_it(rt: HostRuntime) -> Result<(), Fail> {
    let alloc = rt.alloc();
    let put = "X-WOPI-Override: PUT\r\nX-WOPI-Lock: L1\r\n";
    let mut input = lock_request(alloc, "L1")?;
    input.extend_from_slice(&request_by(alloc, TOKEN, &["POST", "/contents", put, "1,9\n"])?)?;
    input.extend_from_slice(&asking(alloc, "GET", CHILDREN, LIVE)?)?;
    let left = once(&rt, alloc, &input)?;
    let wanted = listed(alloc)?;
    assert!(rt; left.status == 0);
    assert!(rt; left.output.as_slice().ends_with(&wanted));
    Ok(())
}

#[test]
fn a_listed_address_opens_its_file(rt: HostRuntime) -> Result<(), Fail> {
    let alloc = rt.alloc();
    let input = request_by(alloc, CHILD, &["GET", "/contents", "", ""])?;
    let left = run_with(&rt, alloc, &ONCE, &whole(&input))?;
    assert!(rt; left.output.as_slice().ends_with(b"\r\n\r\n1,2\n"));
    Ok(())
}
