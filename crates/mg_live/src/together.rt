//! Theorems about writers whose notes are open in live sessions, each with files of its own.
//!
//! Each session takes keys, and reports of what another told or has in a log, in any order and as
//! often as it may be; it ends, or is killed at any point, and starts anew. A key that asks to meet a
//! peer is not among them. As in the other laws, what the types keep of each moment is a premise
//! (`AreKept`, within the acts).
ghost use Rattle.std.specs.Prelude.{◌≡◌, ◌≢◌, ℕ, true, List, Err, Contains, filter};
ghost use Rattle.rga_ops.specs.Content.{IsWithin};
ghost use Rattle.rga_ops.specs.Identifier.{Identifier};
ghost use Rattle.rga_ops.specs.ListAnswer.{list_answer};
ghost use Rattle.rga_ops.specs.Order.{order, text};
ghost use Rattle.rga_ops.specs.RootPath.{is_complete};
ghost use Rattle.rga_ops.specs.declared.op.Op.{Op};
ghost use Rattle.rga_ops.specs.declared.refusal.Refusal.TheVariants.{Conflict};
ghost use Rattle.rga_world.specs.Together.{HaveSameIdentifiers};
ghost use Rattle.mg_buffer.specs.OpenState.{OpenState};
ghost use Rattle.mg_files.specs.Writers.{Writer, AreReached, IsInALog};
ghost use Rattle.mg_live.specs.Together.{LiveWriter, LiveAct, MayLiveOn, AreLive, IsLiveBuffer, IsLoggedByOne, IsShared, AreWriters, all_live_logged};

/// Writers in live sessions are writers of mg_files, which are sites of a world: what each of them
/// does is a list of commands, undos, saves and openings, and takes what is in logs.
pub fn live_writers_are_writers()
    ensures { (xs : List LiveWriter) (told : List Op) → AreLive xs told → (ws : List Writer)
        × AreReached ws × AreWriters xs ws
        × ((op : Op) → Contains told op → IsInALog ws op) }
{}

/// What was told is in a log of one of them.
pub fn what_live_writers_told_is_in_logs()
    ensures { (xs : List LiveWriter) (told : List Op) → AreLive xs told
        → (op : Op) → Contains told op → IsLoggedByOne xs op }
{}

/// Operations that were told, or that are in logs, are refused by no live buffer for a conflict.
pub fn live_writers_never_conflict()
    ensures { (xs : List LiveWriter) (told : List Op) → AreLive xs told
        → (x : LiveWriter) (b : OpenState) (ops : List Op) (id : Identifier) → Contains xs x
        → IsLiveBuffer x b → ((op : Op) → Contains ops op → IsShared xs told op)
        → list_answer b.buffer.limit b.buffer.content ops ≢ Err (Conflict id) }
{}

/// Live buffers that have the same identifiers show the same text.
pub fn live_writers_show_one_text()
    ensures { (xs : List LiveWriter) (told : List Op) → AreLive xs told
        → (x y : LiveWriter) (b d : OpenState) → Contains xs x → Contains xs y
        → IsLiveBuffer x b → IsLiveBuffer y d
        → HaveSameIdentifiers b.buffer.content d.buffer.content
        → text b.buffer.content ≡ text d.buffer.content }
{}

/// What is in logs stays there, and its order is for good: the join of what all logs say grows, and
/// what is complete in it stays complete and in the same order, whatever the sessions do.
pub fn what_live_writers_log_is_in_order_for_good()
    ensures within { (xs ys : List LiveWriter) (told more : List Op) (acts : List LiveAct)
        → AreLive xs told → MayLiveOn xs told acts ys more
        → IsWithin (all_live_logged xs) (all_live_logged ys) }
    ensures complete { (xs ys : List LiveWriter) (told more : List Op) (acts : List LiveAct)
        (id : Identifier) → AreLive xs told → MayLiveOn xs told acts ys more
        → is_complete (all_live_logged xs) id ≡ true
        → is_complete (all_live_logged ys) id ≡ true }
    ensures order { (xs ys : List LiveWriter) (told more : List Op) (acts : List LiveAct)
        → AreLive xs told → MayLiveOn xs told acts ys more
        → order (all_live_logged xs)
        ≡ filter (is_complete (all_live_logged xs)) (order (all_live_logged ys)) }
{}
