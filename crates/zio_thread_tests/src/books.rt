//! A counter under a book.
ghost use Rattle.std.specs.Prelude.{◌≡◌, ◌%◌, ◌+◌, ◌^◌};
ghost use Rattle.zio_book.specs.Books.{IsPassOf};

use std::alloc::Global;
use std::sync::Wait;
use std::test::Fail;
use std::thread;
use zio_book::{Book, Held, Pass};
use zio_types::List;

#[derive(Debug, Drop)]
struct Counter {
    count: u64,
}

impl Held for Counter {
    type Cmd = u64;

    type Reply = u64;

    type Note = u64;

    ghost gives = { λ s n t. t.count ≡ (s.count + n) % 2 ^ 64 };

    ghost fits = { λ s cmd reply note. (note ≡ cmd) × (reply ≡ (s.count + cmd) % 2 ^ 64) };

    fn act(&mut self, cmd: u64) -> (u64, u64) {
        self.count = self.count.wrapping_add(cmd);
        (self.count, cmd)
    }
}

#[test]
fn an_act_after_another_has_the_next_number(rt: HostRuntime) -> Result<(), Fail> {
    let (book, passes) = Book::new(rt.alloc(), Counter { count: 7 }, 2)?;
    let mut passes = passes.into_vec();
    assert_eq!(rt; passes.len(), 2);
    let pass = &mut passes[0];
    let (reply, first) = book.act(&rt, pass, 5)?;
    assert_eq!(rt; (reply, first.number()), (12, 0));
    let mut after = Vec::new(rt.alloc());
    after.push(first)?;
    let pass = &mut passes[1];
    let (reply, second) = book.act_after(&rt, pass, 3, after.as_mut_slice())?;
    assert_eq!(rt; (reply, second.number()), (15, 1));
    let (counter, notes) = book.close(List::from_vec(passes), List::new(rt.alloc()));
    assert_eq!(rt; counter.count, 15);
    assert_eq!(rt; notes.as_slice(), [5, 3].as_slice());
    Ok(())
}

// Many acts of one pass, with their numbers.
fn act_often<R: Wait>(
    rt: &R,
    alloc: Global,
    book: &Book<Counter>,
    mut pass: Pass<Counter>,
) -> Option<Vec<u64>>
    requires { IsPassOf book.now pass }
{
    let mut numbers = Vec::with_capacity(alloc, 10_000).ok()?;
    for _ in 0..10_000u32 {
        let (_, receipt) = book.act(rt, &mut pass, 1).ok()?;
        numbers.push(receipt.number()).ok()?;
    }
    Some(numbers)
}

#[test]
fn sixteen_threads_draw_every_number_once(rt: HostRuntime) -> Result<(), Fail> {
    let (book, passes) = Book::new(rt.alloc(), Counter { count: 0 }, 16)?;
    let alloc = rt.alloc();
    let shared = &book;
    let drawn = thread::map_vec(
        &rt,
        passes.into_vec(),
        &|pass: Pass<Counter>| -> Option<Vec<u64>>
            requires { IsPassOf shared.now pass }
        { act_often(&rt, alloc, shared, pass) },
    )?;
    let mut seen = Vec::from_elem(rt.alloc(), 0u8, 160_000)?;
    for numbers in &drawn {
        let numbers = numbers.as_ref().expect(&rt, "there was memory");
        for number in numbers {
            let at = *number as usize;
            assert!(rt; at < seen.len());
            seen[at] = seen[at].saturating_add(1);
        }
    }
    assert!(rt; seen.iter().all(|times| *times == 1));
    Ok(())
}
