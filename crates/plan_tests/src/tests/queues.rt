// Ten moves on each of the 20 lists of one pool: the first is active, eight wait, the tenth is
// refused.

use buffer_modes::{QueueFull, admit};
use command_pool::{CommandPool, Follow, Notes, OutOfMemory, Rates, Wanted};
use plc_types::{BlockKind, BufferMode};

const LISTS: usize = 20;

// A buffered move of an instance.
fn move_of(owner: u16) -> Wanted {
    let target = i64::from(owner);
    Wanted {
        kind: BlockKind::MoveAbsolute,
        owner: Some(owner),
        target: Some(target),
        targets: [target, 0, 0, 0, 0, 0],
        rates: Rates { v: 6, a: 2, d: 2 },
        mode: BufferMode::Buffered,
        follow: Follow::None,
    }
}

// The answer to a move that is given to a list which is there.
fn answer(
    pool: &mut CommandPool,
    list: u8,
    active: &mut Option<Wanted>,
    wanted: Wanted,
) -> Option<Result<bool, QueueFull>> {
    if list >= pool.lists() {
        return None;
    }
    Some(admit(pool, list, active, wanted, &mut Notes::new()))
}

// Whether each list in turn answers so to one more move.
fn all_answer(
    pool: &mut CommandPool,
    actives: &mut [Option<Wanted>; LISTS],
    owner: u16,
    wanted: Result<bool, QueueFull>,
) -> bool {
    for (list, active) in actives.iter_mut().enumerate() {
        if answer(pool, list as u8, active, move_of(owner)) != Some(wanted) {
            return false;
        }
    }
    true
}

#[test]
fn of_ten_moves_on_each_list_one_is_active_eight_wait_and_the_tenth_is_refused(
    rt: HostRuntime,
) -> Result<(), OutOfMemory> {
    let mut pool = CommandPool::open(rt.alloc(), LISTS as u8)?;
    let mut actives = [None; LISTS];
    assert!(rt; all_answer(&mut pool, &mut actives, 0, Ok(true)));
    for owner in 1..9u16 {
        assert!(rt;
            all_answer(&mut pool, &mut actives, owner, Ok(false)),
            "move {owner}"
        );
    }
    assert_eq!(rt; pool.free(), 0);
    assert!(rt; all_answer(&mut pool, &mut actives, 9, Err(QueueFull)));
    assert_eq!(rt; actives[19], Some(move_of(0)));
    Ok(())
}
