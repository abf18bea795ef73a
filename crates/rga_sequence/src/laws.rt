//! What changes of entries are to their identifiers.
ghost use Rattle.std.specs.Prelude.{◌≡◌, Bool, List};
ghost use Rattle.rga_ops.specs.Identifier.{Identifier};
ghost use Rattle.rga_ops.specs.Placement.{put_by_skip_rule, without};
ghost use Rattle.rga_sequence.specs.declared.entry.Entry.{Entry};
ghost use Rattle.rga_sequence.specs.Entries.{ids, put_entry, without_entry, mark_entry};

/// An entry is put where its identifier goes by the rule of the Replicated Growable Array; one that
/// is taken out takes its identifier along, and one that is deleted or not stays in the order.
pub fn identifiers_follow_their_entries()
    ensures put { (parent : Identifier) (e : Entry) (es : List Entry) →
        ids (put_entry parent e es) ≡ put_by_skip_rule parent e.id (ids es) }
    ensures taken_out { (id : Identifier) (es : List Entry) →
        ids (without_entry id es) ≡ without id (ids es) }
    ensures marked { (mark : Bool) (id : Identifier) (es : List Entry) →
        ids (mark_entry mark id es) ≡ ids es }
{}
