//! Bytes that several hold.

ghost use Rattle.std.specs.Prelude.{◌≡◌, ◌+◌, ◌≤◌, IfOk, OnErr, drop, length, take};
ghost use Rattle.zio_shared.specs.Held.{items_of};

use std::alloc::Global;
use std::marker::Model;
use std::mem::replace;
use std::sync::Arc;
use zio_types::{Bytes, List, NoMemory};

/// Bytes that one has, or that several hold together.
#[derive(Drop)]
enum Held {
    One(Vec<u8>),
    Many(Arc<Vec<u8>, Global>),
}

/// Bytes that others may hold too, or a part of such. None of them can change what it holds. They are seen as the bytes.
#[derive(Drop)]
pub struct Shared {
    held: Held,
    start: usize,
    len: usize,
}

impl Model for Shared {
    ghost use Rattle.std.specs.Prelude.{List, ℕ, ◌+◌, ◌≤◌, drop, length, take};
    ghost use Rattle.zio_shared.specs.Held.{items_of};

    ghost Value = { List ℕ };

    ghost view = { λ s. take s.len (drop s.start (items_of s.held)) };

    ghost invariant = { λ s. s.start + s.len ≤ length (items_of s.held) };
}

impl Shared {
    /// Bytes that nobody else holds. Needs no memory.
    pub fn alone(bytes: Bytes) -> Shared
        ensures { result ≡ bytes }
    {
        let items = bytes.into_vec();
        let len = items.len();
        Shared {
            held: Held::One(items),
            start: 0,
            len,
        }
    }

    pub fn as_slice(&self) -> &[u8]
        ensures { result.now ≡ self.now }
    {
        let items = match &self.held {
            Held::One(items) => items.as_slice(),
            Held::Many(whole) => whole.as_slice(),
        };
        &items[self.start..self.start + self.len]
    }

    /// So many of the bytes from one on, without a copy: both hold them from then on. Where memory is refused these are
    /// as they were.
    pub fn part(&mut self, alloc: Global, start: usize, len: usize) -> Result<Shared, NoMemory>
        requires inside { start + len ≤ length self.old }
        ensures part { IfOk result (λ part. part ≡ take len (drop start self.old)) }
        ensures same { self.new ≡ self.old }
    {
        let held = again(&mut self.held, alloc)?;
        Ok(Shared {
            held,
            start: self.start + start,
            len,
        })
    }

    /// All of the bytes, without a copy.
    pub fn share(&mut self, alloc: Global) -> Result<Shared, NoMemory>
        ensures same_bytes { IfOk result (λ share. share ≡ self.old) }
        ensures same { self.new ≡ self.old }
    {
        let held = again(&mut self.held, alloc)?;
        Ok(Shared {
            held,
            start: self.start,
            len: self.len,
        })
    }

    /// The bytes as one's own. They are copied only where they are a part, or others may hold them too.
    pub fn into_bytes(self, alloc: Global) -> Result<Bytes, NoMemory>
        ensures { IfOk result (λ bytes. bytes ≡ self) }
    {
        let Shared { held, start, len } = self;
        match held {
            Held::One(mut items) if start == 0 => {
                items.truncate(len);
                Ok(Bytes::from_vec(items))
            }
            Held::One(items) => copied(alloc, &items[start..start + len]),
            Held::Many(whole) => copied(alloc, &whole.as_slice()[start..start + len]),
        }
    }

    /// So many bytes to be written over, in the memory of these where nobody else holds any of them.
    pub fn into_room(self, alloc: Global, len: usize) -> Result<Vec<u8>, NoMemory>
        ensures { IfOk result (λ room. length room.items ≡ len) }
    {
        let mut room = match self.held {
            Held::One(items) => items,
            Held::Many(whole) => match Arc::into_inner(whole) {
                Some(items) => items,
                None => Vec::new(alloc),
            },
        };
        room.resize(len, 0)?;
        Ok(room)
    }

    /// The first so many, as many as there are.
    pub fn front(self, len: usize) -> Shared
        ensures { result ≡ take len self }
    {
        let len = len.min(self.len);
        Shared { len, ..self }
    }
}

/// The same bytes, held once more.
fn again(held: &mut Held, alloc: Global) -> Result<Held, NoMemory>
    ensures again { IfOk result (λ again. items_of again ≡ items_of held.old) }
    ensures same { items_of held.new ≡ items_of held.old }
{
    let whole = match replace(held, Held::One(Vec::new(alloc))) {
        Held::Many(whole) => whole,
        Held::One(items) => match Arc::new(alloc, items) {
            Ok(whole) => whole,
            Err(refused) => {
                *held = Held::One(refused.value);
                return Err(NoMemory);
            }
        },
    };
    let again = Arc::try_clone(&whole);
    *held = Held::Many(whole);
    match again {
        Ok(again) => Ok(Held::Many(again)),
        Err(_) => Err(NoMemory),
    }
}

fn copied(alloc: Global, bytes: &[u8]) -> Result<Bytes, NoMemory>
    ensures { IfOk result (λ copy. copy ≡ bytes.now) }
{
    let mut copy = Bytes::new(alloc);
    copy.extend_from_slice(bytes)?;
    Ok(copy)
}
