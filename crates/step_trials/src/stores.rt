//! A store beside a plain list, over thousands of calls, for small rooms and a large one.
ghost use Rattle.std.specs.Prelude.{◌<◌};

use crate::mill::{path_of, ranked_of};
use mill_model::{OutOfMemory, Path};
use nogood_store::{Noted, Store};
use split_tree::{LiveKey, NodeState};
use std::alloc::Global;
use std::test::Fail;

/// A note as the list keeps it: the number of its key, its dead loss, and its own number.
#[derive(Clone, Copy, Debug, Drop)]
struct Note {
    key: usize,
    dead: u64,
    number: u16,
}

/// Of the notes with this key and a dead loss at most `dead` the number of the one with the least
/// dead loss, of equal ones the first.
fn listed(notes: &[Note], key: usize, dead: u64) -> Option<u16> {
    let mut best: Option<Note> = None;
    for note in notes {
        let better = match best {
            Some(other) => note.dead < other.dead,
            None => true,
        };
        if note.key == key && note.dead <= dead && better {
            best = Some(*note);
        }
    }
    Some(best?.number)
}

/// The live keys of a first order that weighs one to six, where another is to come.
fn six_keys(alloc: Global) -> Result<Vec<LiveKey>, OutOfMemory> {
    let mut keys = Vec::new(alloc);
    for weight in 1..7u32 {
        let ranked = ranked_of(alloc, 20, &[(weight, 1), (1, 1)], 1)?;
        let path = path_of(alloc, &ranked, &[0])?;
        keys.push(NodeState::of(alloc, &ranked, &path)?.live_key(alloc)?)?;
    }
    Ok(keys)
}

// A draw below 2 ^ 16.
fn draw(state: &mut u64) -> u64
    ensures { result < 65536 }
{
    *state = state.wrapping_mul(1_103_515_245).wrapping_add(12_345) % 2_147_483_648;
    *state / 65_536 % 65_536
}

/// How many calls on a store with this room answer otherwise than the list.
fn unlike(alloc: Global, room: u32, calls: u16) -> Result<u32, OutOfMemory> {
    let keys = six_keys(alloc)?;
    let mut store = Store::new(alloc, room);
    let mut notes: Vec<Note> = Vec::new(alloc);
    let mut state = u64::from(room);
    let mut unlike = 0u32;
    for number in 0..calls {
        let which = (draw(&mut state) % 6) as usize;
        let dead = draw(&mut state) % 50;
        let Some(key) = keys.get(which) else {
            continue;
        };
        let found = match store.find(key, dead) {
            Some(path) => path.numbers().last().copied(),
            None => None,
        };
        let mut same = found == listed(&notes, which, dead);
        if draw(&mut state) % 4 == 0 {
            let path = Path::root(alloc).child(number)?;
            let noted = store.note(key.copy()?, dead, path);
            if notes.len() < room as usize {
                notes.push(Note {
                    key: which,
                    dead,
                    number,
                })?;
                same = same && noted == Noted::Kept;
            } else {
                same = same && noted == Noted::Full;
            }
        }
        if !same {
            unlike = unlike.saturating_add(1);
        }
    }
    Ok(unlike)
}

#[test]
fn a_store_answers_as_a_list(rt: HostRuntime) -> Result<(), Fail> {
    let alloc = rt.alloc();
    for room in [0, 1, 2, 3, 20, 65_536] {
        assert_eq!(rt; unlike(alloc, room, 3000)?, 0, "room {room}");
    }
    Ok(())
}
