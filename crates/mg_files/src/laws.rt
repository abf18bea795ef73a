//! Theorems about what is held, and about exchanges. The first is of a buffer that there is; each
//! other function does nothing: its contract is the theorem.
ghost use Rattle.std.specs.Prelude.{◌≡◌, ◌⊎◌, ◌≤◌, ℕ, true, Bool, List, Contains, Some, None, Result, Ok, false};
ghost use Rattle.rga_ops.specs.Content.{Content, IsSound, known_count, join, content_of, IsWithin};
ghost use Rattle.rga_ops.specs.declared.op.Op.{Op};
ghost use Rattle.rga_exchange.specs.declared.log.LogEnd.{LogEnd};
ghost use Rattle.mg_files.specs.Calls.{refusals, found_call};
ghost use Rattle.mg_files.specs.Files.{Files, text_bytes};
ghost use Rattle.mg_files.specs.Loading.{load_outcome, opening_answer};
ghost use Rattle.mg_buffer.specs.OpenState.{OpenState, with_brief, with_runs, is_changed};
ghost use Rattle.mg_files.specs.Saving.{written, saved, save_calls, log_call};
ghost use Rattle.mg_files.specs.declared.port.PortFault.{PortFault};
ghost use Rattle.mg_files.specs.Held.{Held, AnswersLoad, MayLeave, MayLead};
ghost use Rattle.mg_files.specs.Kept.{IsThere, IsBuffer, IsLogged, IsLoggedBy, OpensSaved};
ghost use Rattle.mg_files.specs.Run.{BufferStep, TakesOnly, StepOperations, IsMadeOrTaken, SavesOnce, MayStep, MayGo, HoldsMore};
ghost use Rattle.rga_lines.specs.Log.{stream_operations};
ghost use Rattle.rga_brief.specs.Summary.{DigestsTellApart};
ghost use Rattle.mg_files.specs.Asking.{Role, Connects, Waits};
ghost use Rattle.mg_files.specs.Linking.{Account, ExchangesOver, Whole, HaveMetBriefly, Meet};
ghost use Rattle.mg_files.specs.declared.talking.Exchanged.{Exchanged};

use crate::port::Port;
use mg_buffer::VisitedBuffer;
use rga_store::TextStore;

/// Of each buffer that there is the operations are well-formed, and no more than it may know. Takes no
/// memory.
pub fn every_buffer_is_sound<S: TextStore>(opened: &VisitedBuffer<S>)
    ensures sound { IsSound opened.now.buffer.content }
    ensures fits { known_count opened.now.buffer.content ≤ opened.now.buffer.limit }
{
    let _known = opened.buffer.store().known();
}

/// What is opened by what a load answered, whether saves of it are to append runs or not and its
/// exchanges to be brief or not, is kept beside the log that was found.
pub fn what_is_opened_is_logged()
    ensures { (name : List ℕ) (replica limit : ℕ) (found : Files) (b : OpenState) (end : LogEnd)
        (runs brief : Bool) → load_outcome name replica limit found ≡ Ok (b, end)
        → IsBuffer b → IsLoggedBy (with_brief brief (with_runs runs b)) found.log }
{}

/// What a log that is there stands for is loaded, and nothing of it is unsaved.
pub fn what_is_logged_is_loaded()
    ensures { (held : Content) (b : OpenState) (f found : Files) → IsLogged held b f.log
        → IsThere f.log → AnswersLoad f found
        → opening_answer b.buffer.replica b.buffer.limit ≡ Ok tt
        → OpensSaved b.buffer.name b.buffer.replica b.buffer.limit found held }
{}

/// What was saved is loaded. After a save that answered `Ok` the log stands for the buffer's content;
/// where a log is there, a load opens that content, nothing of it unsaved; and where anything was
/// changed the text file has the text.
pub fn what_was_saved_is_loaded()
    ensures logged { (held : Content) (b : OpenState) (s t : Held)
        → IsLogged held b (s b.buffer.name).log → MayLead (save_calls b) s t
        → IsLogged b.buffer.content (saved b) (t b.buffer.name).log }
    ensures loaded { (held : Content) (b : OpenState) (s t u : Held) (found : Files)
        → IsLogged held b (s b.buffer.name).log → MayLead (save_calls b) s t
        → IsThere (t b.buffer.name).log → MayLeave (found_call b.buffer.name found) t u
        → opening_answer b.buffer.replica b.buffer.limit ≡ Ok tt
        → OpensSaved b.buffer.name b.buffer.replica b.buffer.limit found b.buffer.content }
    ensures text { (b : OpenState) (s t : Held) → is_changed b ≡ true → MayLead (save_calls b) s t
        → (t b.buffer.name).text ≡ Some (text_bytes b.buffer.content) }
{}

/// After a save, whatever it answered, the log stands for all of what was held before, and for
/// nothing that the buffer has not.
pub fn a_save_loses_nothing()
    ensures { (answer : Result Bool PortFault) (held : Content) (b d : OpenState) (s t : Held)
        → IsLogged held b (s b.buffer.name).log → SavesOnce answer b d s t → HoldsMore held d t }
{}

/// So it does after any step: a save, a command, an undo, operations of others, or what leaves the
/// operations.
pub fn what_is_held_stays_held()
    ensures { (step : BufferStep) (held : Content) (b d : OpenState) (s t : Held)
        → IsLogged held b (s b.buffer.name).log → MayStep step b s d t → HoldsMore held d t }
{}

/// A step joins operations to what the buffer holds: those that it takes, or those that a command or
/// an undo makes, which then are unsaved. A save joins none, nor does what leaves the operations.
pub fn a_step_joins_operations()
    ensures { (step : BufferStep) (b d : OpenState) (s t : Held) → MayStep step b s d t
        → (ops : List Op) × (d.buffer.content ≡ join b.buffer.content (content_of ops))
        × StepOperations step b d ops }
{}

/// So do steps in a row. What they insert was made under the number of the buffer's replica, or was
/// taken.
pub fn steps_join_operations()
    ensures { (steps : List BufferStep) (taken : List Op) (b d : OpenState) (s t : Held)
        → MayGo steps b s d t → TakesOnly taken steps
        → (ops : List Op) × (d.buffer.content ≡ join b.buffer.content (content_of ops))
        × ((op : Op) → Contains ops op → IsMadeOrTaken b.buffer.replica taken op) }
{}

/// Through any list of steps, what was held once is held ever after.
pub fn what_was_held_once_is_held()
    ensures { (steps : List BufferStep) (held : Content) (b d : OpenState) (s t : Held)
        → IsLogged held b (s b.buffer.name).log → MayGo steps b s d t → HoldsMore held d t }
{}

/// Where a buffer has a text and no log yet, and writing the log failed, the files are as they
/// were, or the log has all of the buffer.
pub fn a_text_is_not_hidden()
    ensures { (fault : PortFault) (held : Content) (b : OpenState) (s t : Held)
        → IsLogged held b (s b.buffer.name).log → (s b.buffer.name).log ≡ None
        → MayLead (refusals fault (log_call b)) s t
        → (t b.buffer.name ≡ s b.buffer.name)
        ⊎ IsLogged b.buffer.content (written b) (t b.buffer.name).log }
{}

/// What answers its counts had one link, which the port opened for it: all that was sent and heard
/// is over this one, and in its order.
pub fn what_is_exchanged_has_a_link<P: Port>()
    ensures { (a : Account P.Link) (b d : OpenState) (role : Role) (e : Exchanged)
        → ExchangesOver a b d role (Ok e) → Whole a b d role e }
{}

/// Behind an exchange over a link that tells bytes, once all was sent or as it stood when the peer
/// began to send, the content is what it was, joined with what the lines of these bytes stand for:
/// so it is whatever was told before of what either knows.
pub fn what_a_link_tells_is_joined<P: Port>()
    ensures exchanges { (a : Account P.Link) (b d : OpenState) (e : Exchanged) (bytes : List ℕ)
        (over : Whole a b d Connects e)
        → a.wire.remaining over.passes.first.sent.inner ≡ Some bytes
        → d.buffer.content ≡ join b.buffer.content (content_of (stream_operations bytes)) }
    ensures serves { (a : Account P.Link) (b d : OpenState) (e : Exchanged) (bytes : List ℕ)
        (over : Whole a b d Waits e)
        → a.wire.remaining over.passes.0.begins.asked.inner ≡ Some bytes
        → d.buffer.content ≡ join b.buffer.content (content_of (stream_operations bytes)) }
{}

/// Two replicas that meet, the one by `exchange` and the other by `serve`, each over a link that
/// tells what the other wrote, and neither of them briefly, hold one content after it, if their
/// operations are well-formed: the join of both. Had they not agreed, one would have been refused.
pub fn two_that_meet_hold_one_content<P: Port, Q: Port>()
    ensures { (a : Account P.Link) (b d : OpenState) (their : Account Q.Link)
        (their_b their_d : OpenState) → Meet a b d their their_b their_d
        → b.brief ≡ false → their_b.brief ≡ false
        → IsSound b.buffer.content → IsSound their_b.buffer.content
        → (d.buffer.content ≡ join b.buffer.content their_b.buffer.content)
        × (their_d.buffer.content ≡ d.buffer.content) }
{}

/// The same of two that meet briefly, each of which tells truly what it knows, if digests tell their
/// blocks apart, insertions and deletions: those of both as they were, and those of the one that
/// connected and of both joined.
pub fn two_that_meet_briefly_hold_one_content<P: Port, Q: Port>()
    ensures { (a : Account P.Link) (b d : OpenState) (their : Account Q.Link)
        (their_b their_d : OpenState) → HaveMetBriefly a b d their their_b their_d
        → IsSound b.buffer.content → IsSound their_b.buffer.content
        → DigestsTellApart b.buffer.content their_b.buffer.content
        → DigestsTellApart (join their_b.buffer.content b.buffer.content) b.buffer.content
        → (d.buffer.content ≡ join b.buffer.content their_b.buffer.content)
        × (their_d.buffer.content ≡ d.buffer.content) }
{}

/// Whatever the two told each other of what they know, what each takes is a part of what the other
/// holds: so a wrong claim leaves operations out, and does nothing else.
pub fn what_is_taken_is_the_peers<P: Port, Q: Port>()
    ensures { (a : Account P.Link) (b d : OpenState) (their : Account Q.Link)
        (their_b their_d : OpenState) → Meet a b d their their_b their_d
        → IsSound b.buffer.content → IsSound their_b.buffer.content
        → ((part : Content) × (IsWithin part b.buffer.content
        × (their_d.buffer.content ≡ join their_b.buffer.content part)))
        × ((part : Content) × (IsWithin part their_d.buffer.content
        × (d.buffer.content ≡ join b.buffer.content part))) }
{}
