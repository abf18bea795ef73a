//! A theorem about merges. The function does nothing: its contract is the theorem.
ghost use Rattle.std.specs.Prelude.{◌≡◌, ◌++◌, ℕ, Bool, true, List, Some};
ghost use Rattle.mg_buffer.specs.OpenState.{is_changed};
ghost use Rattle.mg_files.specs.Calls.{Call};
ghost use Rattle.mg_files.specs.Files.{text_bytes};
ghost use Rattle.mg_files.specs.Held.{Held, MayLead};
ghost use Rattle.mg_files.specs.Kept.{IsBuffer};
ghost use Rattle.mgr_mend.specs.Merging.{Merges, due};
ghost use Rattle.mgr_mend.specs.MergedHeld.{HoldsJoin};
ghost use Rattle.mgr_mend.specs.declared.merged.Torn.{Torn};

/// By what the calls of a merge lead to, the log of the note then stands for what it stood for,
/// joined with all operations of the logs; and where there is a log, or any of these were new, the
/// text is that of all. As the types keep, what is loaded and what is saved can be written.
pub fn a_merge_holds_the_join()
    ensures log { (before made : List Call) (name : List ℕ) (adopt : Bool)
        (logs : List (List ℕ)) (new : ℕ) (torn : List Torn) (s t : Held)
        → (m : Merges (Some before) (Some (before ++ made)) name adopt logs new torn)
        → IsBuffer m.b → IsBuffer m.merges.d → MayLead made s t → HoldsJoin name logs s t }
    ensures text { (before made : List Call) (name : List ℕ) (adopt : Bool)
        (logs : List (List ℕ)) (new : ℕ) (torn : List Torn) (s t : Held)
        → (m : Merges (Some before) (Some (before ++ made)) name adopt logs new torn)
        → is_changed (due m.s m.merges.d) ≡ true → MayLead made s t
        → (t name).text ≡ Some (text_bytes m.merges.d.buffer.content) }
{}
