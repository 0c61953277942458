//! The book of two replicas on one conit, and writes for it.

ghost use Rattle.std.specs.Prelude.{◌<◌, ◌≡◌, ◌+◌, All};
ghost use Rattle.book_tests.specs.Groups.{IsBookOfTwo, IsWriteOf};

use reference_book::Book;
use run_model::Config;
use std::alloc::Global;
use std::process::Abort;
use tact_base::{Op, Weight, Weights, Write};

/// The setup of two replicas on one conit, each of which allows 10 and lends it all.
pub(crate) fn config_of_two(rt: &impl Abort, alloc: Global) -> Config
    ensures replicas { result.replicas ≡ 2 }
    ensures conits { result.conits ≡ 1 }
{
    Config::new(alloc, 2, 1, &[10; 2], &[0, 10, 10, 0]).expect(rt, "a setup")
}

/// Its book.
pub(crate) fn fresh_book(rt: &impl Abort, alloc: Global) -> Book
    ensures { IsBookOfTwo result 0 0 }
{
    let config = config_of_two(rt, alloc);
    Book::new(alloc, &config).expect(rt, "a book")
}

// A weight on conit 0, which weighs 1 in the order.
fn weights_of(rt: &impl Abort, amount: i8) -> Weights
    ensures { All (λ weight. weight.conit < 1) result }
{
    let weight = Weight {
        conit: 0,
        nweight: i64::from(amount),
        oweight: 1,
    };
    Weights::new(&[weight]).expect(rt, "a weight")
}

/// A write of an origin, the one at this index.
pub(crate) fn write(
    rt: &impl Abort,
    origin: u32,
    index: u64,
    stamp: u64,
    moment: u64,
    amount: i8,
    op: Op,
) -> Write
    ensures { IsWriteOf result origin index }
{
    Write {
        origin,
        index,
        stamp,
        moment,
        weights: weights_of(rt, amount),
        op,
    }
}

/// The book takes in the next write of replica 0, where replica 1 wrote nothing.
pub(crate) fn accept_of_zero(rt: &impl Abort, book: &mut Book, write: &Write)
    requires write { IsWriteOf write.now 0 write.now.index }
    requires few { write.now.index < 20 }
    requires book { IsBookOfTwo book.old write.now.index 0 }
    ensures { IsBookOfTwo book.new (write.now.index + 1) 0 }
{
    assert_eq!(rt; book.accept(write), Ok(()));
}

/// The book takes in the next write of replica 1, where replica 0 wrote once.
pub(crate) fn accept_of_one(rt: &impl Abort, book: &mut Book, write: &Write)
    requires write { IsWriteOf write.now 1 write.now.index }
    requires few { write.now.index < 20 }
    requires book { IsBookOfTwo book.old 1 write.now.index }
    ensures { IsBookOfTwo book.new 1 (write.now.index + 1) }
{
    assert_eq!(rt; book.accept(write), Ok(()));
}

/// The book takes in the first write of replica 1, and then that of replica 0.
pub(crate) fn accept_in_turn(rt: &impl Abort, book: &mut Book, one: &Write, zero: &Write)
    requires one { IsWriteOf one.now 1 0 }
    requires zero { IsWriteOf zero.now 0 0 }
    requires book { IsBookOfTwo book.old 0 0 }
    ensures { IsBookOfTwo book.new 1 1 }
{
    assert_eq!(rt; book.accept(one), Ok(()));
    assert_eq!(rt; book.accept(zero), Ok(()));
}
