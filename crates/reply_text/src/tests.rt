//! Replies as a sink gets them: in whole blocks and a rest, with no empty piece. The clauses say
//! which text is written of which outcome.
ghost use Rattle.std.specs.Prelude.{IfOk};
ghost use Rattle.reply_text.specs.Outcome.{IsToTell};

use super::*;
use mill_io::{Failed, Sink, VecSink};
use mill_model::{OutOfMemory, Path};
use std::alloc::Global;
use std::test::Fail;

// A sink that keeps the lengths of the first eight pieces.
#[derive(Drop)]
struct PieceLengths {
    lengths: [usize; 8],
    count: usize,
}

impl Sink for PieceLengths {
    ghost use Rattle.std.specs.Prelude.{None};

    ghost written = { λ _. None };

    ghost held = { λ _. None };

    ghost faults = { λ _. 0 };

    fn write_all(&mut self, piece: &[u8]) -> Result<(), Failed> {
        if self.count < 8 {
            self.lengths[self.count] = piece.len();
            self.count += 1;
        }
        Ok(())
    }
}

// What a sink gets of a reply.
fn pieces_of(reply: &Outcome) -> Result<PieceLengths, Failed>
    requires { IsToTell reply.now }
{
    let mut pieces = PieceLengths {
        lengths: [0; 8],
        count: 0,
    };
    reply.write(&mut pieces)?;
    Ok(pieces)
}

// That a path of so many groups, each the thousandth, has no record.
fn missing(alloc: Global, groups: usize) -> Result<Outcome, OutOfMemory>
    ensures { IfOk result IsToTell }
{
    let path = Path::from_list(vec![in alloc; 999; groups]?);
    Ok(Outcome::Judged(Judgement::Missing { path }))
}

// A line has 17 bytes before the number of groups, 5 for each group, and its line feed. Each row:
// how many groups there are, and the lengths of the pieces that are written.
#[test]
fn only_the_last_piece_is_short(rt: HostRuntime) -> Result<(), Fail> {
    let rows: [(usize, &[usize]); 6] = [
        (0, &[19]),
        (814, &[4091]),
        (815, &[4096]),
        (816, &[4096, 5]),
        (1024, &[4096, 1046]),
        (1634, &[4096, 4096]),
    ];
    for (groups, want) in rows {
        let reply = missing(rt.alloc(), groups)?;
        let pieces = pieces_of(&reply)?;
        assert_eq!(rt; &pieces.lengths[..pieces.count.min(8)], want);
    }
    Ok(())
}

// Whether a reply is this text, in one piece.
fn is_one_piece(alloc: Global, reply: &Outcome, text: &str) -> bool
    requires { IsToTell reply.now }
{
    let mut whole = VecSink::new(alloc);
    let wrote = reply.write(&mut whole);
    let is_alone = pieces_of(reply).is_ok_and(|pieces| pieces.count == 1);
    is_alone && wrote.is_ok() && whole.into_bytes().as_slice() == text.as_bytes()
}

// Slabs and orders are counted from 0 in an outcome, and from 1 in its text.
#[test]
fn a_short_reply_is_one_piece(rt: HostRuntime) -> Result<(), Fail> {
    let alloc = rt.alloc();
    let long = Outcome::Refused(Refusal::TooLong { limit: 5 });
    assert!(rt; is_one_piece(alloc, &long, "refused long 5\n"));
    let heavy = Outcome::Judged(Judgement::Heavy { slab: 0, load: 45 });
    assert!(rt; is_one_piece(alloc, &heavy, "rejected heavy slab 1 load 45\n"));
    let drilled = Outcome::Drilled(Summary {
        seed: 1,
        orders: 1,
        weight: 9,
        ending: Ending::Optimal { loss: 3 },
    });
    let text = "drill seed 1 orders 1 weight 9\noptimal\nloss 3\nend\n";
    assert!(rt; is_one_piece(alloc, &drilled, text));
    Ok(())
}
