//! Numbers that leave a lock and come back to it.
ghost use Rattle.std.specs.Prelude.{◌≡◌, ◌+◌, ◌≤◌, [], ℕ, IfSome, length, vec_capacity, vec_len};
ghost use Rattle.zio_loans.specs.Lending.{IsLender, IsLoan, Shows, lent_by, table_of};
ghost use Rattle.zio_loans.specs.Out.{count_out};

use std::marker::{Brand, Model, PhantomData};
use std::mem;
use std::sync::{Mutex, Wait};
use std::test::Fail;
use std::thread::{self, Threads};
use zio_loans::{Lender, Loan, Loans};

// Three values go out and come back in another order; the first and the last are equal, and yet told apart.
fn lend_three(loans: &Loans<u64>, lender: &mut Lender<u64>)
    requires { IsLender (table_of loans.now) lender.old }
    ensures lender { IsLender (table_of loans.now) lender.new }
    ensures count { count_out (lent_by lender.new) ≡ count_out (lent_by lender.old) }
{
    let value = 30;
    let other = 31;
    let first = loans.lend(lender, &value);
    let second = loans.lend(lender, &other);
    let third = loans.lend(lender, &value);
    let (first, third) = loans.compare(first, third);
    loans.settle(lender, second);
    loans.settle(lender, third);
    loans.settle(lender, first);
}

#[test]
fn loans_are_settled_in_another_order_than_they_were_lent(rt: HostRuntime) -> Result<(), Fail> {
    let (loans, mut lender) = Loans::new(rt.alloc())?;
    lend_three(&loans, &mut lender);
    lend_three(&loans, &mut lender);
    assert_eq!(rt; mem::size_of::<Loan<u64>>(), 0usize);
    assert_eq!(rt; mem::size_of::<Lender<u64>>(), 0usize);
    Ok(())
}

// Which loans they are, and how many numbers there are, at home or out. Each call of `turn_all` picks it.
trait Course {
    ghost use Rattle.std.specs.Prelude.{ℕ};
    ghost use Rattle.atomic_table.specs.Seated.{TableId};

    ghost table: { TableId };

    ghost count: { ℕ };
}

impl Course for Brand {
    ghost table = { record { words = 0; slots = 0; views_name = 0; atom = 0; block = 0; offset = 0; slot_names = [] } };

    ghost count = { 0 };
}

// What lies under the lock: the numbers at home, with room for those that are out, and who lends them.
#[derive(Drop)]
struct Pot<J: Course> {
    home: Vec<u64>,
    lender: Lender<u64>,
    of: PhantomData<J>,
}

impl<J: Course> Model for Pot<J> {
    ghost use Rattle.std.specs.Prelude.{◌≡◌, ◌+◌, ◌≤◌, ℕ, List, vec_capacity, vec_len};
    ghost use Rattle.zio_loans.specs.Lending.{IsLender, lent_by};
    ghost use Rattle.zio_loans.specs.Out.{count_out};

    ghost Value = { List ℕ };

    ghost view = { λ p. p.home.items };

    ghost invariant = { λ p. IsLender J.table p.lender × (vec_len p.home + count_out (lent_by p.lender) ≡ J.count)
        × (J.count ≤ vec_capacity p.home) };
}

impl<J: Course> Pot<J> {
    // Takes a number out.
    fn take(&mut self, loans: &Loans<u64>) -> Option<(u64, Loan<u64>)>
        requires { table_of loans.now ≡ J.table }
        ensures { IfSome result (λ r. (number : ℕ) × Shows J.table r.1 number r.0) }
    {
        let value = self.home.pop()?;
        let loan = loans.lend(&mut self.lender, &value);
        Some((value, loan))
    }

    // Brings one back in the place of that which was lent. Since something is out, there is room.
    fn put(&mut self, loans: &Loans<u64>, loan: Loan<u64>, value: u64)
        requires table { table_of loans.now ≡ J.table }
        requires loan { IsLoan J.table loan }
    {
        loans.settle(&mut self.lender, loan);
        self.home.push_reserved(value);
    }
}

// Takes a number out, adds one outside of the lock, and brings it back, again and again. The answer is how often.
fn turn<J: Course, R: Wait>(rt: &R, loans: &Loans<u64>, shared: &Mutex<Pot<J>>) -> u32
    requires { table_of loans.now ≡ J.table }
{
    let mut turns = 0u32;
    for _ in 0..1000u32 {
        let taken = shared.lock(rt).take(loans);
        if let Some((value, loan)) = taken {
            let more = value.wrapping_add(1);
            shared.lock(rt).put(loans, loan, more);
            turns = turns.wrapping_add(1);
        }
    }
    turns
}

fn turn_each<J: Course + Send + Sync, R: Threads + Wait + Sync>(
    rt: &R,
    loans: &Loans<u64>,
    lender: Lender<u64>,
    home: Vec<u64>,
    turns: &mut [u32],
) -> Vec<u64>
    requires table { table_of loans.now ≡ J.table }
    requires lender { IsLender J.table lender × (lent_by lender ≡ []) }
    requires count { vec_len home ≡ J.count }
{
    let pot: Pot<J> = Pot {
        home,
        lender,
        of: PhantomData,
    };
    let pot = Mutex::new(pot);
    let shared = &pot;
    thread::for_each_mut(
        rt,
        turns,
        4,
        &|_, count: &mut u32|
            requires { table_of loans.now ≡ J.table }
        { *count = turn(rt, loans, shared) },
    );
    let Pot {
        home,
        lender: _,
        of: _,
    } = pot.into_inner();
    home
}

// Several threads take numbers out of one lock and bring them back, as often as is counted.
fn turn_all<R: Threads + Wait + Sync>(
    rt: &R,
    loans: &Loans<u64>,
    lender: Lender<u64>,
    home: Vec<u64>,
    turns: &mut [u32],
) -> Vec<u64>
    requires { IsLender (table_of loans.now) lender × (lent_by lender ≡ []) }
{
    turn_each::<Brand, R>(rt, loans, lender, home, turns)
}

#[test]
fn four_threads_bring_back_what_they_took(rt: HostRuntime) -> Result<(), Fail> {
    let (loans, lender) = Loans::new(rt.alloc())?;
    let home = vec![in rt.alloc(); 100u64, 200, 300, 400, 500, 600]?;
    let mut turns = [0u32; 4];
    let home = turn_all(&rt, &loans, lender, home, &mut turns);
    assert_eq!(rt; turns, [1000u32; 4]);
    assert_eq!(rt; home.len(), 6);
    let mut all = 0u64;
    for number in &home {
        all = all.wrapping_add(*number);
    }
    assert_eq!(rt; all, 2100 + 4000);
    Ok(())
}
