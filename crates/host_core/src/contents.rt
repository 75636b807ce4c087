//! Contents of a file, which a store may share with it.
ghost use Rattle.std.specs.Prelude.{◌≡◌, ◌≤◌, length, vec_capacity, IfOk, IfSome, OnOk};

use std::alloc::Global;
use std::marker::Model;
use std::mem;
use std::sync::Arc;
use wopi_text::{Bytes, Memory, are_equal};

/// Contents, by one owner or by several. Those that were shared lie once, until their last owner lets them go.
#[derive(Drop)]
pub struct Contents {
    form: Form,
}

#[derive(Drop)]
enum Form {
    Own(Bytes),
    Shared(Arc<Bytes, Global>),
}

impl Model for Contents {
    ghost use Rattle.std.specs.Prelude.{List, ℕ};
    ghost use Rattle.host_core.specs.Shared.{bytes_in};

    ghost Value = { List ℕ };

    ghost view = { λ c. bytes_in c.form };
}

impl Contents {
    /// Takes the bytes over, for one owner. It takes no memory.
    pub fn own(bytes: Bytes) -> Contents
        ensures { result ≡ bytes }
    {
        Contents {
            form: Form::Own(bytes),
        }
    }

    /// Takes the bytes over, so that they can be shared where there is memory to count their owners.
    pub fn shareable(alloc: Global, bytes: Bytes) -> Contents
        ensures { result ≡ bytes }
    {
        match Arc::new(alloc, bytes) {
            Ok(shared) => Contents {
                form: Form::Shared(shared),
            },
            Err(failed) => Contents::own(failed.value),
        }
    }

    /// The bytes, which stay where they are.
    pub fn as_slice(&self) -> &[u8]
        ensures { result.now ≡ self.now }
    {
        match &self.form {
            Form::Own(bytes) => bytes.as_slice(),
            Form::Shared(bytes) => bytes.as_slice(),
        }
    }

    /// One more owner of the same contents, where they can be shared. It takes no memory.
    pub fn share(&self) -> Option<Contents>
        ensures { IfSome result (λ other. other ≡ self.now) }
    {
        match &self.form {
            Form::Own(_) => None,
            Form::Shared(bytes) => match Arc::try_clone(bytes) {
                Ok(bytes) => Some(Contents {
                    form: Form::Shared(bytes),
                }),
                Err(_) => None,
            },
        }
    }

    /// The same contents for one more owner. They are copied where they can't be shared.
    pub fn share_or_copy(&self, alloc: Global) -> Result<Contents, Memory>
        ensures { IfOk result (λ other. other ≡ self.now) }
    {
        match self.share() {
            Some(other) => return Ok(other),
            None => {
                let copy = Bytes::from_slice(alloc, self.as_slice())?;
                return Ok(Contents::own(copy));
            }
        }
    }
}

/// Makes the room at least so large, and empty.
pub fn widen(alloc: Global, room: &mut Vec<u8>, size: usize) -> Result<(), Memory>
    ensures { OnOk result (size ≤ vec_capacity room.new) }
{
    if room.capacity() < size {
        *room = Vec::with_capacity(alloc, size)?;
    }
    Ok(())
}

/// A copy of bytes that lies in the room, which is large enough.
fn copy_in(alloc: Global, room: &mut Vec<u8>, bytes: &[u8]) -> Bytes
    requires { length bytes.now ≤ vec_capacity room.old }
    ensures { result ≡ bytes.now }
{
    let mut copy = mem::replace(room, Vec::new(alloc));
    copy.clear();
    match copy.extend_from_slice(bytes) {
        Ok(()) => {}
        Err(_) => unreachable!(),
    }
    Bytes::from_vec(copy)
}

/// The contents for two owners. They lie once, but where there is no memory to count these: then one has a copy in the
/// room, which is large enough.
fn pair(alloc: Global, bytes: Bytes, room: &mut Vec<u8>) -> (Contents, Contents)
    requires { length bytes ≤ vec_capacity room.old }
    ensures first { result.0 ≡ bytes }
    ensures second { result.1 ≡ bytes }
{
    let first = Contents::shareable(alloc, bytes);
    match first.share() {
        Some(second) => return (first, second),
        None => {
            let copy = copy_in(alloc, room, first.as_slice());
            return (first, Contents::own(copy));
        }
    }
}

/// The former contents for two more owners, where they are these bytes and can be shared.
fn pair_again(former: Option<&Contents>, bytes: &[u8]) -> Option<(Contents, Contents)>
    ensures first { IfSome result (λ owners. owners.0 ≡ bytes.now) }
    ensures second { IfSome result (λ owners. owners.1 ≡ bytes.now) }
{
    let Some(former) = former else {
        return None;
    };
    if !are_equal(former.as_slice(), bytes) {
        return None;
    }
    let Some(first) = former.share() else {
        return None;
    };
    let Some(second) = former.share() else {
        return None;
    };
    Some((first, second))
}

/// The bytes for two owners. Where they equal the former contents they are let go, and those get two more owners. Where there
/// is no memory to count owners, one has a copy in the room, which is large enough.
pub fn share_between(
    alloc: Global,
    former: Option<&Contents>,
    bytes: Bytes,
    room: &mut Vec<u8>,
) -> (Contents, Contents)
    requires { length bytes ≤ vec_capacity room.old }
    ensures first { result.0 ≡ bytes }
    ensures second { result.1 ≡ bytes }
{
    match pair_again(former, bytes.as_slice()) {
        Some(owners) => return owners,
        None => return pair(alloc, bytes, room),
    }
}
