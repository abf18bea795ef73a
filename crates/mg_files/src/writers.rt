//! Theorems about writers, each with a buffer and files of its own, and with its own replica number.
//!
//! What each of them takes is in a log of one of them. They run commands and undos, save, and may be
//! killed at any point and start anew; saves may fail, or be cut off in the middle. All of this is a
//! list of events of a world of rga_world, so what is proved of its sites is true of the writers.
ghost use Rattle.std.specs.Prelude.{◌≡◌, ◌≢◌, ℕ, true, List, Some, Ok, Err, Contains, filter, map};
ghost use Rattle.std.specs.List.{AllByRecursion};
ghost use Rattle.rga_ops.specs.Answer.{answer};
ghost use Rattle.rga_ops.specs.Content.{IsWithin};
ghost use Rattle.rga_ops.specs.Identifier.{Identifier};
ghost use Rattle.rga_ops.specs.ListAnswer.{list_answer};
ghost use Rattle.rga_ops.specs.Order.{order, text};
ghost use Rattle.rga_ops.specs.Places.{character, is_visible, visible};
ghost use Rattle.rga_ops.specs.RootPath.{is_complete};
ghost use Rattle.rga_ops.specs.declared.op.Op.{Op};
ghost use Rattle.rga_ops.specs.declared.refusal.Refusal.TheVariants.{Conflict};
ghost use Rattle.rga_store.specs.Limit.{is_limit};
ghost use Rattle.rga_world.specs.Sites.{World, new_world};
ghost use Rattle.rga_world.specs.Steps.{world_after};
ghost use Rattle.rga_world.specs.Together.{PutsCharacters, IsReached, HaveSameIdentifiers};
ghost use Rattle.rga_world.specs.declared.event.Event.{Event};
ghost use Rattle.mg_files.specs.Writers.{Writer, Act, IsInALog, MayAct, MayActOn, AreFresh, HaveOwnNumbers, AreReached, AreSites, own_content, own_limit, all_logged, all_written};

/// Fresh writers are sites of a world in which nothing has happened. What a writer does is a list of
/// events of their world, and their numbers stay. So writers that are reached are sites of a world
/// that is reached.
pub fn writers_are_sites_of_a_world()
    ensures begin { (ws : List Writer) (most : ℕ) → is_limit most ≡ true → AreFresh ws most
        → HaveOwnNumbers ws → IsReached (new_world 65535 most) × AreSites ws (new_world 65535 most) }
    ensures on { (ws vs : List Writer) (act : Act) (w : World) → IsReached w → AreSites ws w
        → HaveOwnNumbers ws → MayAct ws act vs → (events : List Event)
        × AllByRecursion PutsCharacters events × AreSites vs (world_after w events) }
    ensures numbers { (ws vs : List Writer) (act : Act) → HaveOwnNumbers ws → MayAct ws act vs
        → HaveOwnNumbers vs }
    ensures reached { (ws : List Writer) → AreReached ws
        → (w : World) × IsReached w × AreSites ws w }
    ensures further { (ws vs : List Writer) (act : Act) → AreReached ws → MayAct ws act vs
        → AreReached vs }
{}

/// What is in a log of a writer is refused by no buffer of another for a conflict, alone or in a
/// list with others that are in logs.
pub fn writers_never_conflict()
    ensures one { (ws : List Writer) (x : Writer) (op : Op) (id : Identifier) → AreReached ws
        → Contains ws x → IsInALog ws op
        → answer (own_limit x) (own_content x) op ≢ Err (Conflict id) }
    ensures list { (ws : List Writer) (x : Writer) (ops : List Op) (id : Identifier) → AreReached ws
        → Contains ws x → ((op : Op) → Contains ops op → IsInALog ws op)
        → list_answer (own_limit x) (own_content x) ops ≢ Err (Conflict id) }
{}

/// Writers that have the same identifiers show the same text. There is one order of all elements,
/// that of the join of what all writers hold: each text lists its visible elements in this order,
/// each with the character that the join has of it.
pub fn writers_show_one_text()
    ensures text { (ws : List Writer) (x y : Writer) → AreReached ws → Contains ws x → Contains ws y
        → HaveSameIdentifiers (own_content x) (own_content y)
        → text (own_content x) ≡ text (own_content y) }
    ensures visible { (ws : List Writer) (x : Writer) → AreReached ws → Contains ws x
        → visible (own_content x)
        ≡ filter (is_visible (own_content x)) (order (all_written ws)) }
    ensures characters { (ws : List Writer) (x : Writer) → AreReached ws → Contains ws x
        → map Some (text (own_content x))
        ≡ map (character (all_written ws)) (visible (own_content x)) }
{}

/// What is in logs stays there, and its order is for good: the join of what all logs say grows, and
/// what is complete in it stays complete and in the same order, whatever the writers do.
pub fn what_is_in_logs_is_in_order_for_good()
    ensures within { (ws vs : List Writer) (acts : List Act) → AreReached ws → MayActOn ws acts vs
        → IsWithin (all_logged ws) (all_logged vs) }
    ensures complete { (ws vs : List Writer) (acts : List Act) (id : Identifier) → AreReached ws
        → MayActOn ws acts vs → is_complete (all_logged ws) id ≡ true
        → is_complete (all_logged vs) id ≡ true }
    ensures order { (ws vs : List Writer) (acts : List Act) → AreReached ws → MayActOn ws acts vs
        → order (all_logged ws)
        ≡ filter (is_complete (all_logged ws)) (order (all_logged vs)) }
{}
