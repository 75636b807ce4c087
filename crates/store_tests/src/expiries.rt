//! The queue and the chains over several calls.
use expiry_queue::{ExpiryQueue, SpentChains};
use std::process::Abort;
use std::test::Fail;
use wopi_model::Spent;
use wopi_text::LockId;

fn id(rt: &impl Abort, text: &[u8]) -> LockId {
    LockId::read(text).expect(rt, "a lock id")
}

#[test]
fn a_spent_id_goes_and_its_place_is_free(rt: HostRuntime) -> Result<(), Fail> {
    let mut chains = SpentChains::new(rt.alloc());
    chains.reserve(1).map_err(|_| "memory")?;
    assert!(rt; chains.reserve(usize::MAX).is_err());
    let chain = chains.add(
        None,
        Spent {
            id: id(&rt, b"L1"),
            until: 30,
        },
    );
    assert!(rt; chains.reserve(usize::MAX).is_err());
    assert!(rt; chains.holds(chain, &id(&rt, b"L1")));
    assert!(rt; chains.refuses(chain, &id(&rt, b"L1"), 29));
    assert!(rt; !chains.refuses(chain, &id(&rt, b"L1"), 30));
    let Some(place) = chain else {
        return Err("a chain".into());
    };
    let (one, rest) = chains.take(place);
    assert!(rt; one.until == 30);
    assert!(rt; !chains.holds(rest, &id(&rt, b"L1")));
    Ok(())
}

#[test]
fn a_refused_reserve_changes_nothing(rt: HostRuntime) -> Result<(), Fail> {
    let mut queue = ExpiryQueue::new(rt.alloc());
    queue.reserve(2).map_err(|_| "memory")?;
    let five = queue.push(5, 0);
    assert!(rt; queue.reserve(usize::MAX).is_err());
    let _six = queue.push(6, 10);
    assert!(rt; queue.reserve(usize::MAX).is_err());
    queue.refresh(five, 20);
    assert!(rt; queue.pop_expired(1_800_009) == None);
    assert!(rt; queue.pop_expired(1_800_010) == Some(6));
    assert!(rt; queue.pop_expired(1_800_010) == None);
    Ok(())
}
