//! Theorems about sites that edit, undo, save, restart and take what others have saved.
//!
//! Each function does nothing: its contract is a theorem that the check proves. A world is reached
//! if some list of events, refused ones included, made it of a world in which nothing had happened:
//! of one site or more, at most as many as there are replica numbers, and with a limit that stores
//! have.
ghost use Rattle.std.specs.Prelude.{◌≡◌, ◌≢◌, ◌↔◌, ◌⊎◌, ◌++◌, ◌∷◌, ◌+◌, ◌<◌, ◌≤◌, ◌^◌, ℕ, List, [], true, Some, Ok, Err, Contains, filter, length, map, slice_get};
ghost use Rattle.std.specs.List.{AllByRecursion};
ghost use Rattle.std.specs.declared.vec.Vec.{Vec};
ghost use Rattle.std.specs.declared.alloc.Global.{Global};
ghost use Rattle.rga_ops.specs.Prelude.{Content, Identifier, IsSound, clock_of, join, known_count, nothing, operations, order, single, text, visible};
ghost use Rattle.rga_ops.specs.Content.{Element, Holds, IsWithin};
ghost use Rattle.rga_ops.specs.Identifier.{identifier};
ghost use Rattle.rga_ops.specs.declared.op.Op.{Op};
ghost use Rattle.rga_lines.specs.Stream.{rest_of};
ghost use Rattle.rga_exchange.specs.Sending.{AreWritable, StandsFor, log_text, stream_text};
ghost use Rattle.rga_exchange.specs.Log.{log_outcome};
ghost use Rattle.rga_exchange.specs.Receiving.{exchange_outcome};
ghost use Rattle.rga_exchange.specs.declared.log.LogRead.{LogRead};
ghost use Rattle.std.specs.FinMap as finite_map;
ghost use Rattle.rga_ops.specs.Order.{Precedes};
ghost use Rattle.rga_ops.specs.Places.{is_visible, character};
ghost use Rattle.rga_ops.specs.RootPath.{is_complete};
ghost use Rattle.rga_ops.specs.Splice.{spliced};
ghost use Rattle.rga_ops.specs.declared.refusal.Refusal.{Refusal};
ghost use Rattle.rga_ops.specs.declared.refusal.Refusal.TheVariants.{Conflict};
ghost use Rattle.rga_store.specs.Limit.{is_limit};
ghost use Rattle.rga_doc.specs.Revert.{put_back, StandsDirectlyBehind};
ghost use Rattle.rga_world.specs.Outcomes.{is_site_count};
ghost use Rattle.rga_world.specs.Program.{deliveries};
ghost use Rattle.rga_world.specs.Sites.{Site, World, new_world};
ghost use Rattle.rga_world.specs.Steps.{replica_of, stepped, ran, with_content, with_saved, world_after};
ghost use Rattle.rga_world.specs.Together.{PutsCharacters, IsReached, IsVouched, AllAgree, contents, saved_contents, all_of, all_saved, HaveSameIdentifiers};
ghost use Rattle.rga_world.specs.Words.{with_site, IsEdited, IsReverted, IsSavedSite, IsSavedOne, IsDelivered, IsListDelivered, IsRestarted, LacksSite, LacksOperation, IsRefusedByStore};
ghost use Rattle.rga_world.specs.declared.event.Event.{Event};
ghost use Rattle.rga_world.specs.declared.event.Event.TheVariants.{Edit, Revert, Save, SaveOne, Deliver, DeliverList, Restart};
ghost use Rattle.rga_world.specs.declared.refusal.WorldRefusal.TheVariants.{NoSite, NoOperation, Store};

/// Events lead from one reached world to another. That what they put is characters is true of every
/// event; a definition knows numbers alone.
pub fn events_lead_on()
    ensures begin { (count limit : ℕ) → is_site_count count ≡ true → is_limit limit ≡ true →
        IsReached (new_world count limit) }
    ensures on { (w : World) (events : List Event) → IsReached w →
        AllByRecursion PutsCharacters events → IsReached (world_after w events) }
    ensures in_parts { (w : World) (xs ys : List Event) →
        world_after w (xs ++ ys) ≡ world_after (world_after w xs) ys }
    ensures none_refused { (w v : World) (events : List Event) →
        ran w events ≡ Ok v → world_after w events ≡ v }
{}

/// What an event leads to, and each refusal exactly when it comes, want of memory aside: a site is
/// missing, else an operation is, else a store refuses.
pub fn events_in_words()
    ensures edited { (w v : World) (number lo hi : ℕ) (put : Vec ℕ Global) →
        (stepped w (Edit number lo hi put) ≡ Ok v) ↔ IsEdited w v number lo hi put.items }
    ensures reverted { (w v : World) (number : ℕ)
        (gone : Vec Identifier Global) (back : Vec (Identifier × ℕ) Global) →
        (stepped w (Revert number gone back) ≡ Ok v)
        ↔ IsReverted w v number gone.items back.items }
    ensures saved { (w v : World) (number : ℕ) →
        (stepped w (Save number) ≡ Ok v) ↔ IsSavedSite w v number }
    ensures saved_one { (w v : World) (number place : ℕ) →
        (stepped w (SaveOne number place) ≡ Ok v) ↔ IsSavedOne w v number place }
    ensures delivered { (w v : World) (taker giver place : ℕ) →
        (stepped w (Deliver taker giver place) ≡ Ok v) ↔ IsDelivered w v taker giver place }
    ensures list_delivered { (w v : World) (taker giver lo hi : ℕ) →
        (stepped w (DeliverList taker giver lo hi) ≡ Ok v)
        ↔ IsListDelivered w v taker giver lo hi }
    ensures restarted { (w v : World) (number : ℕ) →
        (stepped w (Restart number) ≡ Ok v) ↔ IsRestarted w v number }

    ensures no_site { (w : World) (event : Event) →
        (stepped w event ≡ Err NoSite) ↔ LacksSite w event }
    ensures no_operation { (w : World) (event : Event) →
        (stepped w event ≡ Err NoOperation) ↔ LacksOperation w event }
    ensures store { (w : World) (event : Event) (e : Refusal) →
        (stepped w event ≡ Err (Store e)) ↔ IsRefusedByStore w event e }
{}

/// What a site has saved it holds, and what it holds was inserted there, or is saved where it was
/// inserted. So what a site inserted is known elsewhere only once it is saved there, and no restart
/// loses it.
pub fn what_is_known_elsewhere_is_saved()
    ensures held { (w : World) (number : ℕ) (s : Site) → IsReached w →
        slice_get w.sites number ≡ Some s → IsWithin s.saved s.content }
    ensures vouched { (w : World) (number : ℕ) (s : Site) (id : Identifier) (x : Element) →
        IsReached w → slice_get w.sites number ≡ Some s →
        finite_map.get s.content.inserted id ≡ Some x → IsVouched w.sites number id x }
{}

/// An identifier names one insertion everywhere, although sites restart, lose what they had not
/// saved and use identifiers of it once more, and although what is saved is delivered in any order,
/// repeatedly or never. So no event is refused for a conflict.
pub fn an_identifier_names_one_insertion()
    ensures agree { (w : World) → IsReached w → AllAgree (contents w) }
    ensures no_conflict { (w : World) (event : Event) (id : Identifier) →
        IsReached w → stepped w event ≢ Err (Store (Conflict id)) }
{}

/// What is held and what is saved anywhere in a reached world are well-formed operations that can be
/// written as lines, and within the limit. So they are few enough for the end line of an exchange.
pub fn what_is_reached_is_sound()
    ensures sound { (w : World) (c : Content) → IsReached w → Contains (contents w) c → IsSound c }
    ensures writable { (w : World) (c : Content) → IsReached w → Contains (contents w) c →
        AreWritable (operations c) }
    ensures known { (w : World) (c : Content) → IsReached w → Contains (contents w) c →
        known_count c ≤ w.limit }
    ensures number { (w : World) (c : Content) → IsReached w → Contains (contents w) c →
        length (operations c) < 2 ^ 64 }
    ensures limit { (w : World) → IsReached w → is_limit w.limit ≡ true }
{}

/// The join of all contents and saved contents, and that of the saved ones, are their least upper
/// bounds.
pub fn joins_are_least_upper_bounds()
    ensures of_all { (w : World) (c : Content) → IsReached w →
        Contains (contents w) c → IsWithin c (all_of w) }
    ensures least { (w : World) (d : Content) →
        ((c : Content) → Contains (contents w) c → IsWithin c d) → IsWithin (all_of w) d }
    ensures of_saved { (w : World) (c : Content) → IsReached w →
        Contains (saved_contents w) c → IsWithin c (all_saved w) }
    ensures least_of_saved { (w : World) (d : Content) →
        ((c : Content) → Contains (saved_contents w) c → IsWithin c d) → IsWithin (all_saved w) d }
{}

/// There is one order of all elements: that of the join of all contents and saved contents. Each
/// site's text lists its visible elements in this order, each with the character that the join has
/// of it.
pub fn all_texts_follow_one_order()
    ensures visible { (w : World) (s : Site) → IsReached w → Contains w.sites s →
        visible s.content ≡ filter (is_visible s.content) (order (all_of w)) }
    ensures characters { (w : World) (s : Site) → IsReached w → Contains w.sites s →
        map Some (text s.content) ≡ map (character (all_of w)) (visible s.content) }
{}

/// What was saved stays saved, and its order is for good: the join of all saved contents grows, and
/// what is complete in it stays complete and in the same order, whatever happens.
pub fn saved_order_is_for_good()
    ensures within { (w : World) (events : List Event) → IsReached w →
        IsWithin (all_saved w) (all_saved (world_after w events)) }
    ensures complete { (w : World) (events : List Event) (id : Identifier) → IsReached w →
        is_complete (all_saved w) id ≡ true →
        is_complete (all_saved (world_after w events)) id ≡ true }
    ensures order { (w : World) (events : List Event) → IsReached w →
        order (all_saved w)
        ≡ filter (is_complete (all_saved w)) (order (all_saved (world_after w events))) }
    ensures precedes { (w : World) (events : List Event) (a b : Identifier) → IsReached w →
        is_complete (all_saved w) a ≡ true → is_complete (all_saved w) b ≡ true →
        Precedes (all_saved w) a b → Precedes (all_saved (world_after w events)) a b }
{}

/// An edit makes the site's text the splice of its text before.
pub fn an_edit_splices_the_text_of_its_site()
    ensures { (w v : World) (number lo hi : ℕ) (put : Vec ℕ Global)
        (s t : Site) →
        stepped w (Edit number lo hi put) ≡ Ok v →
        slice_get w.sites number ≡ Some s → slice_get v.sites number ≡ Some t →
        text t.content ≡ spliced (text s.content) lo hi put.items }
{}

/// After a revert each restored element stands directly after the one that it restores, whatever
/// others put there; nothing else of the order of the site changes.
pub fn a_revert_puts_elements_back_at_its_site()
    ensures order { (w v : World) (number : ℕ)
        (gone : Vec Identifier Global) (back : Vec (Identifier × ℕ) Global) (s t : Site) →
        stepped w (Revert number gone back) ≡ Ok v →
        slice_get w.sites number ≡ Some s → slice_get v.sites number ≡ Some t →
        order t.content
        ≡ put_back (replica_of number) (clock_of s.content) back.items (order s.content) }
    ensures place { (w v : World) (number i : ℕ)
        (gone : Vec Identifier Global) (back : Vec (Identifier × ℕ) Global) (s t : Site)
        (b : Identifier × ℕ) →
        stepped w (Revert number gone back) ≡ Ok v →
        slice_get w.sites number ≡ Some s → slice_get v.sites number ≡ Some t →
        slice_get back.items i ≡ Some b →
        StandsDirectlyBehind (order t.content)
        b.0 (identifier (clock_of s.content + (i + 1)) (replica_of number)) }
{}

/// Two sites that have the same identifiers inserted and the same deleted hold the same and show
/// the same text: nothing has to be known of parents and characters.
pub fn sites_with_the_same_identifiers_show_the_same()
    ensures content { (w : World) (s t : Site) →
        IsReached w → Contains w.sites s → Contains w.sites t →
        HaveSameIdentifiers s.content t.content → s.content ≡ t.content }
    ensures text { (w : World) (s t : Site) →
        IsReached w → Contains w.sites s → Contains w.sites t →
        HaveSameIdentifiers s.content t.content → text s.content ≡ text t.content }
{}

/// A save is an append to the log: if a log ends in a newline, or is empty, and stands for what the
/// site has saved, then with the lines of the operations after it that the site has not saved it
/// stands for what the site has saved after a save. No more is asked of these operations than that
/// with those that the site has saved they are the ones that it holds.
pub fn a_save_is_an_append_to_the_log()
    ensures { (w v : World) (number : ℕ) (s t : Site) (bytes : List ℕ) (ops : List Op) →
        IsReached w → stepped w (Save number) ≡ Ok v →
        slice_get w.sites number ≡ Some s → slice_get v.sites number ≡ Some t →
        StandsFor bytes s.saved → rest_of bytes ≡ [] →
        ((op : Op) → Holds s.content op ↔ (Holds s.saved op ⊎ Contains ops op)) →
        StandsFor (bytes ++ log_text ops) t.saved }
{}

/// Each operation that a site holds can be saved by a save of one. It is joined to what the site has
/// saved, and nothing else changes.
pub fn a_held_operation_can_be_saved()
    ensures { (w : World) (number : ℕ) (s : Site) (op : Op) → IsReached w →
        slice_get w.sites number ≡ Some s → Holds s.content op →
        (place : ℕ) × (stepped w (SaveOne number place)
        ≡ Ok (with_site w number (with_saved s (join s.saved (single op))))) }
{}

/// A save of one operation is refused only if the site is missing, or holds nothing at the place,
/// want of memory aside.
pub fn a_save_of_one_operation_is_taken()
    ensures { (w : World) (number place : ℕ) (e : Refusal) →
        IsReached w → stepped w (SaveOne number place) ≢ Err (Store e) }
{}

/// A save of one operation is an append of its line to the log, which ends in a newline or is empty.
pub fn a_save_of_one_operation_is_an_append_of_its_line()
    ensures { (w v : World) (number place : ℕ) (s t : Site) (op : Op) (bytes : List ℕ) →
        IsReached w → stepped w (SaveOne number place) ≡ Ok v →
        slice_get w.sites number ≡ Some s → slice_get v.sites number ≡ Some t →
        slice_get (operations s.content) place ≡ Some op →
        StandsFor bytes s.saved → rest_of bytes ≡ [] →
        StandsFor (bytes ++ log_text (op ∷ [])) t.saved }
{}

/// A restart is a reading of the log: what holds nothing, and reads a log that stands for what the
/// site has saved, holds what the site holds after a restart.
pub fn a_restart_is_a_reading_of_the_log()
    ensures { (w v : World) (number : ℕ) (s t : Site) (bytes : List ℕ) →
        IsReached w → stepped w (Restart number) ≡ Ok v →
        slice_get w.sites number ≡ Some s → slice_get v.sites number ≡ Some t →
        StandsFor bytes s.saved →
        (read : LogRead) × (log_outcome w.limit nothing bytes ≡ (t.content, Ok read)) }
{}

/// An exchange is a list of deliveries: what comes of all that the giver has saved, delivered to the
/// taker in turn or as one list, is what the taker holds after it received what is sent of that, if
/// it has room for both.
pub fn an_exchange_is_a_list_of_deliveries()
    ensures delivered { (w : World) (taker giver : ℕ) (s g : Site) → IsReached w →
        slice_get w.sites taker ≡ Some s → slice_get w.sites giver ≡ Some g →
        known_count (join s.content g.saved) ≤ w.limit →
        ran w (deliveries taker giver 0 (length (operations g.saved)))
        ≡ Ok (with_site w taker (with_content s (join s.content g.saved))) }
    ensures whole { (w : World) (taker giver : ℕ) (s g : Site) → IsReached w →
        slice_get w.sites taker ≡ Some s → slice_get w.sites giver ≡ Some g →
        known_count (join s.content g.saved) ≤ w.limit →
        stepped w (DeliverList taker giver 0 (length (operations g.saved)))
        ≡ Ok (with_site w taker (with_content s (join s.content g.saved))) }
    ensures received { (w : World) (taker giver : ℕ) (s g : Site) → IsReached w →
        slice_get w.sites taker ≡ Some s → slice_get w.sites giver ≡ Some g →
        known_count (join s.content g.saved) ≤ w.limit →
        exchange_outcome w.limit s.content (stream_text g.saved)
        ≡ (join s.content g.saved, Ok (length (operations g.saved))) }
{}
