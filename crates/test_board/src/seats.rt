//! What a board answers its seats: rights, and words that are put in and found.

ghost use Rattle.std.specs.Prelude.{◌≡◌};
ghost use Rattle.seen_board.specs.Clauses.{IsAtRest, IsOf, HasClaim, HasPlace};
ghost use Rattle.test_board.specs.Worker.{IsIdle};

use crate::fan::Fan;
use crate::start::{FIRST, START, put_after_start};
use seen_board::{Board, BoardSeat, Got, Put};
use state_space::Space;
use std::alloc::Global;
use std::process::Abort;
use std::sync::Wait;
use std::sync::atomic::AtomicBool;
use std::sync::atomic::Ordering::SeqCst;
use std::test::Fail;
use std::thread::{join, yield_now};

/// A board of the first word and those after it.
type FanBoard<'a> = Board<Fan<'a>, Global>;

/// Two words of one shard.
const AFTER: [u128; 2] = [1, 14];

/// One seat writes a shard, in which another then gets no right until it is given up, though it gets one of the next
/// shard.
fn write_alone(rt: &impl Abort, board: &FanBoard<'_>, writer: &mut BoardSeat, other: &mut BoardSeat)
    requires writer { IsAtRest board.now writer.old }
    requires other { IsAtRest board.now other.old }
{
    assert!(rt; board.try_write(writer, 0) == Got::Right);
    assert!(rt; board.try_read(other, 0) == Got::Busy);
    assert!(rt; board.try_write(other, 0) == Got::Busy);
    assert!(rt; board.try_read(other, 1) == Got::Right);
    board.give(writer, 0);
    board.leave(other, 1);
    assert!(rt; board.try_read(other, 0) == Got::Right);
}

#[test]
fn a_writer_keeps_others_out(rt: HostRuntime) -> Result<(), Fail> {
    let (board, mut seat, _) = Board::open(rt.alloc(), &Fan { after: &AFTER }, 16)?;
    let mut other = board.split(&mut seat);
    write_alone(&rt, &board, &mut seat, &mut other);
    Ok(())
}

/// Waits for a flag, for a bounded number of rounds. `false` if it stays down.
fn waits_for(flag: &AtomicBool) -> bool {
    for _ in 0..10_000_000u32 {
        if flag.load(SeqCst) {
            return true;
        }
        yield_now();
    }
    false
}

/// Reads the shard 0, says so, and keeps the right until the other reader says so too. `false` if that stays out.
fn reads_beside_another<R: Wait>(
    rt: &R,
    board: &FanBoard<'_>,
    seat: &mut BoardSeat,
    mine: &AtomicBool,
    other: &AtomicBool,
) -> bool
    requires { IsAtRest board.now seat.old }
    ensures { IsAtRest board.now seat.new }
{
    board.read(rt, seat, 0);
    mine.store(true, SeqCst);
    let met = waits_for(other);
    board.leave(seat, 0);
    met
}

#[test]
fn two_readers_are_in_at_once(rt: HostRuntime) -> Result<(), Fail> {
    let (board, mut seat, _) = Board::open(rt.alloc(), &Fan { after: &AFTER }, 16)?;
    let mut other = board.split(&mut seat);
    let (first, second) = (AtomicBool::new(false), AtomicBool::new(false));
    let (shared, handle, one, two) = (&board, &rt, &first, &second);
    let (mine, its) = (&mut seat, &mut other);
    let met = join(
        &rt,
        move ||
            requires { IsAtRest shared.now mine.now }
        { reads_beside_another(handle, shared, mine, one, two) },
        move ||
            requires { IsAtRest shared.now its.now }
        { reads_beside_another(handle, shared, its, two, one) },
    );
    assert!(rt; met == (true, true));
    Ok(())
}

/// A seat puts the word 1 in, and then it is known, at the same place, and found without a right.
fn put_first<S: Space>(rt: &impl Abort, board: &Board<S, Global>, space: &S, seat: &mut BoardSeat)
    requires board { IsOf board.now seat.old × (board.now.space ≡ space.now) }
    requires free { seat.old.right ≡ 0 }
    requires claim { HasClaim seat.old START × HasPlace seat.old.seen START }
    ensures board { IsOf board.now seat.new × (seat.new.right ≡ 0) }
    ensures claim { HasClaim seat.new START × HasPlace seat.new.seen START }
{
    assert!(rt; board.find(seat, 1) == None);
    assert!(rt; put_after_start(board, space, seat, 0) == Some(Put::New(FIRST)));
    assert!(rt; seat.has_seen(START));
    assert!(rt; put_after_start(board, space, seat, 0) == Some(Put::Known(FIRST)));
    assert!(rt; seat.has_seen(START));
    assert!(rt; board.find(seat, 1) == Some(FIRST));
    assert!(rt; seat.has_seen(START));
}

/// What one seat puts in another finds without a right. While that one writes the shard, a new word is not put in, and
/// one that was put in is known.
fn put_beside_another<S: Space>(
    rt: &impl Abort,
    board: &Board<S, Global>,
    space: &S,
    seat: &mut BoardSeat,
    other: &mut BoardSeat,
)
    requires seat { IsIdle board.now seat.old × (board.now.space ≡ space.now) }
    requires start { HasPlace seat.old.seen START }
    requires other { IsIdle board.now other.old }
{
    assert!(rt; board.find(other, 1) == None);
    assert!(rt; board.claim(seat, START));
    put_first(rt, board, space, seat);
    assert!(rt; board.find(other, 1) == Some(FIRST));
    assert!(rt; board.try_write(other, 1) == Got::Right);
    assert!(rt; put_after_start(board, space, seat, 1) == Some(Put::Busy));
    assert!(rt; seat.has_seen(START));
    assert!(rt; put_after_start(board, space, seat, 0) == Some(Put::Known(FIRST)));
}

#[test]
fn an_entry_is_new_then_known_and_found_without_a_right(rt: HostRuntime) -> Result<(), Fail> {
    let fan = Fan { after: &AFTER };
    let (board, mut seat, _) = Board::open(rt.alloc(), &fan, 16)?;
    let mut other = board.split(&mut seat);
    put_beside_another(&rt, &board, &fan, &mut seat, &mut other);
    Ok(())
}
