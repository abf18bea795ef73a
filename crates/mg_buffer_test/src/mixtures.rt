//! Long mixtures of commands, undos and operations of others, against a plain text.
use crate::sessions::{FILL, Session, open_session};
use mg_buffer::{BufferFault, Memo};
use mg_plain::{Command, Notice, View, plan};
use rga_ops::{Refusal, Splice};
use rga_store::{Taker, TextStore};
use rga_tree::TreeStore;
use std::alloc::Global;
use test_fixtures::Random;

/// A text with two places, which the plans of commands edit.
#[derive(PartialEq, Drop)]
struct Plain {
    text: Vec<char>,
    point: usize,
    mark: Option<usize>,
}

fn seen<S: TextStore>(s: &Session<S>) -> Result<Plain, Refusal> {
    let sight = s.buffer.sight()?;
    Ok(Plain {
        text: Vec::from_slice(s.alloc, sight.text.as_slice())?,
        point: sight.point,
        mark: sight.mark,
    })
}

/// What a buffer shows, if it shows the same before it is listed.
fn shown<S: TextStore>(s: &mut Session<S>) -> Result<Plain, Refusal> {
    let made = seen(s)?;
    s.buffer.list();
    let lent = seen(s)?;
    if made == lent {
        Ok(lent)
    } else {
        Err(Refusal::Range)
    }
}

/// The text with one part replaced.
fn spliced(
    alloc: Global,
    text: &[char],
    (lo, hi): (usize, usize),
    put: &[char],
) -> Result<Vec<char>, Refusal> {
    let mut new = Vec::new(alloc);
    new.extend_from_slice(&text[..lo.min(text.len())])?;
    new.extend_from_slice(put)?;
    new.extend_from_slice(&text[hi.min(text.len())..])?;
    Ok(new)
}

/// The text with the parts of all splices replaced, in turn.
fn spliced_each(alloc: Global, text: &[char], splices: &[Splice]) -> Result<Vec<char>, Refusal> {
    let mut new = Vec::from_slice(alloc, text)?;
    for splice in splices {
        new = spliced(alloc, &new, (splice.lo, splice.hi), &splice.put)?;
    }
    Ok(new)
}

/// The text and its places once a command is done, or the notice why it is not.
fn edited(
    alloc: Global,
    before: &Plain,
    memo: &Memo,
    command: &Command,
) -> Result<Plain, BufferFault> {
    let length = before.text.as_slice().len();
    let view = View {
        text: &before.text,
        point: before.point.min(length),
        mark: before.mark.map(|mark| mark.min(length)),
        kill: &memo.kill,
        goal: memo.goal,
        last: memo.kind,
    };
    let plan = plan(alloc, command, 1, &view, FILL)?;
    Ok(Plain {
        text: spliced_each(alloc, &before.text, &plan.splices)?,
        point: plan.point,
        mark: plan.mark,
    })
}

/// The command of a number.
fn command_of(number: usize) -> Command {
    match number {
        0 => Command::Newline,
        1 => Command::Insert(' '),
        2 => Command::BackwardChar,
        3 => Command::BackwardWord,
        4 => Command::ForwardWord,
        5 => Command::NextLine,
        6 => Command::PreviousLine,
        7 => Command::DeleteBackwardChar,
        8 => Command::KillWord,
        9 => Command::KillLine,
        10 => Command::Yank,
        11 => Command::SetMarkCommand,
        12 => Command::KillRegion,
        13 => Command::TransposeChars,
        14 => Command::CapitalizeWord,
        15 => Command::FillParagraph,
        16 => Command::NewlineAndIndent,
        17 => Command::DeleteChar,
        _ => Command::Insert('a'),
    }
}

/// Runs a command, and tells whether the buffer then shows what the plan makes of the text, or
/// refuses as the plan does.
fn runs<S: TextStore>(s: &mut Session<S>, command: &Command) -> Result<bool, BufferFault> {
    let before = shown(s)?;
    let expected = edited(s.alloc, &before, &s.memo, command);
    let answer = s.run(command);
    let after = shown(s)?;
    Ok(match (expected, answer) {
        (Ok(plain), Ok(())) => plain == after,
        (Err(fault), Err(answer)) => fault == answer && before == after,
        _ => false,
    })
}

/// Runs a command or an undo that is rolled, and tells whether that went well.
fn steps<S: TextStore>(s: &mut Session<S>, random: &mut Random) -> Result<bool, BufferFault> {
    if random.below(6) > 0 {
        return runs(s, &command_of(random.below(30)));
    }
    match s.buffer.undo(&mut s.memo) {
        Ok(()) | Err(BufferFault::Notice(Notice::NothingToUndo)) => Ok(true),
        Err(fault) => Err(fault),
    }
}

/// Types, moves or deletes in the other session, and passes all operations on, both ways.
fn exchanges<S: TextStore>(
    s: &mut Session<S>,
    other: &mut Session<S>,
    random: &mut Random,
) -> Result<(), BufferFault> {
    other.buffer.apply_all(s.buffer.unsaved())?;
    s.buffer.mark_saved();
    let _ = match random.below(4) {
        0 => other.run(&Command::DeleteChar),
        1 => other.run(&Command::BackwardWord),
        2 => other.run(&Command::EndOfBuffer),
        _ => other.run(&Command::Insert('X')),
    };
    s.buffer.apply_all(other.buffer.unsaved())?;
    other.buffer.mark_saved();
    Ok(())
}

/// Undoes all, and tells whether nothing but what the other session typed is left.
fn goes_back<S: TextStore>(s: &mut Session<S>) -> Result<bool, BufferFault> {
    s.buffer.idle(&mut s.memo);
    for _ in 0..10000u32 {
        match s.buffer.undo(&mut s.memo) {
            Ok(()) => {}
            Err(BufferFault::Notice(Notice::NothingToUndo)) => {
                return Ok(shown(s)?.text.iter().all(|ch| *ch == 'X'));
            }
            Err(fault) => return Err(fault),
        }
    }
    Ok(false)
}

/// A turn: a step, and now and then an exchange behind it, unless the sessions stay apart. Tells
/// whether it went well.
fn turn<S: TextStore>(
    s: &mut Session<S>,
    other: &mut Session<S>,
    random: &mut Random,
    apart: bool,
) -> Result<bool, BufferFault> {
    let answer = steps(s, random);
    if answer != Ok(true) || apart || random.below(4) > 0 {
        return answer;
    }
    exchanges(s, other, random)?;
    Ok(true)
}

/// Many turns, up to one that does not go well.
fn turns<S: TextStore>(
    s: &mut Session<S>,
    other: &mut Session<S>,
    seed: u64,
    apart: bool,
) -> Result<bool, BufferFault> {
    let mut random = Random::new(seed);
    for _ in 0..100u32 {
        if !turn(s, other, &mut random, apart)? {
            return Ok(false);
        }
    }
    Ok(true)
}

/// Whether two sessions show the same once they exchanged what they have.
fn show_the_same<S: TextStore>(
    s: &mut Session<S>,
    other: &mut Session<S>,
    seed: u64,
) -> Result<bool, BufferFault> {
    exchanges(s, other, &mut Random::new(seed))?;
    let text = shown(s)?.text;
    Ok(shown(other)?.text.as_slice() == text.as_slice())
}

/// Whether the turns go well and all can be undone, which leaves nothing, or what both show.
fn mixes_together<S: TextStore>(
    s: &mut Session<S>,
    other: &mut Session<S>,
    seed: u64,
    apart: bool,
) -> Result<bool, BufferFault> {
    if !turns(s, other, seed, apart)? || !goes_back(s)? {
        return Ok(false);
    }
    if apart {
        return Ok(shown(s)?.text.is_empty());
    }
    show_the_same(s, other, seed)
}

/// The same beside a new session of another replica.
fn mixes_beside<S: TextStore>(
    alloc: Global,
    s: &mut Session<S>,
    seed: u64,
    apart: bool,
) -> Result<bool, BufferFault> {
    match open_session::<S>(alloc, 2, 20000) {
        Ok(mut other) => mixes_together(s, &mut other, seed, apart),
        Err(refusal) => Err(BufferFault::Store(refusal)),
    }
}

/// The same of a new session. Each function owns one session at most, which is proved far sooner.
fn mixes<S: TextStore>(alloc: Global, seed: u64, apart: bool) -> Result<bool, BufferFault> {
    match open_session::<S>(alloc, 1, 20000) {
        Ok(mut s) => mixes_beside(alloc, &mut s, seed, apart),
        Err(refusal) => Err(BufferFault::Store(refusal)),
    }
}

#[test]
fn commands_do_what_their_plans_do_to_a_plain_text(rt: HostRuntime) {
    for seed in 0..4u64 {
        assert!(rt;
            mixes::<TreeStore>(rt.alloc(), seed, true) == Ok(true),
            "{seed} apart"
        );
        assert!(rt;
            mixes::<TreeStore>(rt.alloc(), seed, false) == Ok(true),
            "{seed}"
        );
    }
}
