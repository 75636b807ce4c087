use super::{FILE, request};
use std::alloc::Global;
use std::test::Fail;
use wopi_headers::{AskFault, ContainerOp, Op, Place, place_into, place_of};
use wopi_http::Method;
use wopi_text::Memory;

#[test]
fn the_container_is_asked_for_with_its_token(rt: HostRuntime) -> Result<(), Fail> {
    let alloc = rt.alloc();
    let targets = [
        (
            "/wopi/containers/root?access_token=a%2Bb+c&access_token=d",
            ContainerOp::Info,
        ),
        (
            "HTTP://h:80/wopi/containers/root/children?x&access_token=a%2Bb+c",
            ContainerOp::Children,
        ),
    ];
    for (target, op) in targets {
        match place_of(alloc, &request(alloc, Method::Get, target, &[])?)? {
            Place::Container(ask) => {
                assert!(rt; ask.op == op);
                assert!(rt; ask.token.as_slice() == b"a+b+c".as_slice());
            }
            Place::File(_) => assert!(rt; false),
        }
    }
    Ok(())
}
