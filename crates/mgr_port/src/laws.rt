//! Theorems about files that are written whole, paths that go, and logs that grow. Each function does
//! nothing: its contract is the theorem.
ghost use Rattle.std.specs.Prelude.{◌≡◌, ◌≢◌, ◌⊎◌, ℕ, Bool, List, ◌++◌, true, false, Option, Some, None, IfSome, codes, length};
ghost use Rattle.mgr_port.specs.declared.log.FoundLog.{FoundLog};
ghost use Rattle.mgr_port.specs.declared.log.LeftLog.{LeftLog};
ghost use Rattle.mgr_port.specs.declared.spare.Look.{Look};
ghost use Rattle.mgr_port.specs.declared.stamp.Stamp.{Stamp};
ghost use Rattle.mgr_port.specs.Folder.{Follows, History, IsQuiet, after};
ghost use Rattle.mg_files.specs.Held.{Leaves};
ghost use Rattle.mg_files.specs.declared.port.CallKind.TheVariants.{Append, PutText, Replace};
ghost use Rattle.mgr_port.specs.Bytes.{HadFront, HasAfter, HasFrontOf, HasLines, IsKnown, IsOnDevice};
ghost use Rattle.mgr_port.specs.Bytes.{MayHave, MaySurvive, OfTold};
ghost use Rattle.mgr_port.specs.Growth.{AddsFront, IsAdded};
ghost use Rattle.mgr_port.specs.Naming.{AreApart, Holds, Stands};
ghost use Rattle.mgr_port.specs.Notes.{LeavesLog, LeavesNext, LoadsLog, MakesLog};
ghost use Rattle.mgr_port.specs.Spares.{ChangesOnlyAt, EndsInTilde, IsNothing, PutsOnlyAt};
ghost use Rattle.mgr_port.specs.Texts.{LeavesNextText, MakesNextText, PutsBeside, PutsText, TriesText};
ghost use Rattle.mgr_port.specs.Verdicts.{MayGrow};
ghost use Rattle.mgr_port.specs.Worlds.{World, Has, Shows, IsLinked, IsMade, IsLeftAlone, IsBare, StoodUnder, Locks};
ghost use Rattle.mgr_port.specs.Worlds.{EndsAt, Grows};
ghost use Rattle.mgr_port.specs.Disk.{DiskStep, Place, BeginsSteps, AreGivenUp, IsUntouched, MayBeFound, behind_steps, whole_steps};

/// If the machine stops behind any beginning of the steps of `put_whole`, the old file stands under
/// the name or the new one with all of its bytes; behind all of them it is the new one. Where it was
/// given up and the file beside removed, it is the old one. What stood there is kept before it loses
/// its name, where it is to be.
pub fn a_file_is_whole_whenever_the_machine_stops()
    ensures whole { (old found : Option (List ℕ)) (p : Place) (bytes : List ℕ)
        (made : List DiskStep) → IsUntouched p → BeginsSteps made (whole_steps bytes)
        → MayBeFound old (behind_steps p made) found → (found ≡ old) ⊎ (found ≡ Some bytes) }
    ensures new { (old found : Option (List ℕ)) (p : Place) (bytes : List ℕ)
        → IsUntouched p → MayBeFound old (behind_steps p (whole_steps bytes)) found
        → found ≡ Some bytes }
    ensures left { (old found : Option (List ℕ)) (p : Place) (bytes : List ℕ)
        (made : List DiskStep) → IsUntouched p → AreGivenUp bytes made
        → MayBeFound old (behind_steps p made) found → found ≡ old }
    ensures kept { (p : Place) (bytes : List ℕ) (made : List DiskStep) → IsUntouched p
        → BeginsSteps made (whole_steps bytes) → (behind_steps p made).is_named ≡ true
        → (behind_steps p made).is_kept ≡ true }
{}

/// What a path stood for when it goes, was nothing, or stood under another name before, if other
/// programs leave the path and its file alone from the look on, the second name, or the reading. They
/// may do anything else, to that name too. `Folder::remove` asks for these steps, unless the path stands
/// for a file that is open.
pub fn a_path_that_goes_loses_nothing()
    ensures nothing { (path : List ℕ) (found : Option Look) (a b : World) → IsNothing found
        → Shows a path found → IsLeftAlone path a b → IsBare b path }
    ensures linked { (path name : List ℕ) (a b c : World) → IsLinked path name a b
        → IsLeftAlone path b c → StoodUnder name b path c }
    ensures copied { (path name bytes : List ℕ) (file : ℕ) (a b c d : World) → Has a path file
        → a.bytes file ≡ bytes → IsLeftAlone path a b → IsMade name bytes b c
        → IsLeftAlone path c d → StoodUnder name c path d }
{}

/// If one session has the file of a path locked, and keeps it so while nobody gives the path to
/// another file, whoever has the file of that path locked then is the same. So a note has one
/// session: `open_locked` and `take_beside` look at the path after they have the lock.
pub fn a_note_has_one_session()
    ensures { (path : List ℕ) (one two first second : ℕ) (a b : World) → Locks one a path first
        → IsLeftAlone path a b → b.holder first ≡ Some one → Locks two b path second
        → one ≡ two }
{}

/// If others only put something behind a log, what was read of it, and then each lines that were added,
/// are a beginning of what it has later, so of what it is read as. Whatever else they do, a log of
/// which lines may be added still has all that was read, if nothing was changed in place before its
/// last bytes: these are looked at. `load` and `append` take these steps, and a text that is put beside
/// leaves a log as it is, if its new file is another one.
pub fn a_log_that_was_read_only_grows()
    ensures grown { (file : ℕ) (before : List ℕ) (a b : World) (left : LeftLog) (found : FoundLog)
        → EndsAt (a.bytes file) (length (a.bytes file)) left.end before
        → left.stamp.length ≡ length (a.bytes file) → MayGrow left found
        → IfSome found.end (λ end. EndsAt (b.bytes file) left.stamp.length end before)
        → Grows file a b }
    ensures read { (file : ℕ) (path next read bytes : List ℕ) (left : LeftLog) (now : History)
        → LoadsLog file path next read left now → MayHave file now bytes
        → (more : List ℕ) × (bytes ≡ read ++ more) }
    ensures added { (file : ℕ) (path lines bytes : List ℕ) (left longer : LeftLog)
        (old now : History) → IsAdded file path left lines longer old now
        → MayHave file now bytes → HasLines file old lines bytes }
    ensures failed { (file : ℕ) (lines bytes : List ℕ) (old now : History)
        → AddsFront file lines old now → MayHave file now bytes → HadFront file old bytes }
    ensures quiet { (file : ℕ) (bytes : List ℕ) (old now : History) → IsQuiet old now
        → MayHave file now bytes → HadFront file old bytes }
    ensures text { (log file : ℕ) (dated : Option ℕ) (path name text bytes : List ℕ)
        (own now_own : Option Stamp) (is_there : Bool) (old made now : History) → file ≢ log
        → MakesNextText file path name is_there old made
        → PutsBeside file dated path name text own now_own made now
        → MayHave log now bytes → HadFront log old bytes }
{}

/// If all that a log had is on the device, and nobody else writes into it, it has that whenever the
/// machine stops in an append, and behind it a beginning of the lines. After one that answered `Ok`
/// all of both is on the device. Such a log stands for the first of its operations
/// (`rga_exchange::laws::cut_logs_stand_for_their_first_operations`).
pub fn a_log_is_torn_only_at_its_end()
    ensures torn { (file : ℕ) (lines bytes found : List ℕ) (old now : History)
        → AddsFront file lines old now → IsOnDevice file old bytes
        → MaySurvive file now found → HasFrontOf lines bytes found }
    ensures added { (file : ℕ) (path lines bytes : List ℕ) (left longer : LeftLog)
        (old now : History) → IsAdded file path left lines longer old now
        → IsKnown file old bytes → IsOnDevice file now (bytes ++ lines) }
{}

/// If nobody else writes into a note's files, a call leaves of them what a port is held to (`mg_files`,
/// `Leaves`). What was read is what the log has; an append leaves all lines behind what it had, or a
/// beginning of them. A first log, one that is written anew, and a text have all that was put under
/// their names. A log that could not be made is not there, or has all of the lines; one that could not be
/// written anew is the old one, or has them. A text that could not be put leaves the log, unless that
/// is the file that is written in place; if it is put beside, it is the old one, or has all of the bytes.
pub fn calls_leave_what_a_port_is_held_to()
    ensures read { (file : ℕ) (path next read : List ℕ) (left : LeftLog) (now : History)
        → LoadsLog file path next read left now → IsKnown file now read }
    ensures added { (file : ℕ) (path lines bytes found : List ℕ) (left longer : LeftLog)
        (text : Option (List ℕ)) (old now : History)
        → IsAdded file path left lines longer old now → IsKnown file old bytes
        → OfTold (HasAfter file found) now → Leaves Append true lines
        (record { log = Some bytes; text = text }) (record { log = Some found; text = text }) }
    ensures failed { (file : ℕ) (lines bytes found : List ℕ) (text : Option (List ℕ))
        (old now : History) → AddsFront file lines old now → IsKnown file old bytes
        → OfTold (HasAfter file found) now → Leaves Append false lines
        (record { log = Some bytes; text = text }) (record { log = Some found; text = text }) }
    ensures known { (before : Option ℕ) (file : ℕ) (path name beside lines : List ℕ)
        (standing : Option Look) (left : LeftLog) (old now : History)
        → MakesLog before file path name beside standing lines left old now
        → IsKnown file now lines }
    ensures made { (stamp_of : ℕ → Stamp) (file : ℕ) (name beside lines found : List ℕ)
        (left : LeftLog) (text : Option (List ℕ)) (old now : History) → AreApart stamp_of
        → MakesLog None file (name ++ codes ".new") name beside None lines left old now
        → Holds stamp_of name found now → Leaves Append true lines
        (record { log = None; text = text }) (record { log = Some found; text = text }) }
    ensures replaced { (stamp_of : ℕ → Stamp) (before : Option ℕ) (file : ℕ)
        (name beside lines found : List ℕ) (standing : Option Look) (left : LeftLog)
        (log text : Option (List ℕ)) (old now : History) → AreApart stamp_of
        → MakesLog before file (name ++ codes ".new") name beside standing lines left old now
        → Holds stamp_of name found now → Leaves Replace true lines
        (record { log = log; text = text }) (record { log = Some found; text = text }) }
    ensures unmade { (stamp_of : ℕ → Stamp) (name beside lines found : List ℕ)
        (text : Option (List ℕ)) (old now : History) → AreApart stamp_of → (EndsInTilde name → ⊥)
        → LeavesLog None (name ++ codes ".new") name beside None lines
        (after (Follows name None) old) now → Holds stamp_of name found now → Leaves Append false lines
        (record { log = None; text = text }) (record { log = Some found; text = text }) }
    ensures unreplaced { (stamp_of : ℕ → Stamp) (before : Option ℕ) (file : ℕ)
        (name beside lines bytes found : List ℕ) (standing : Option Look)
        (text : Option (List ℕ)) (old now : History) → AreApart stamp_of
        → (EndsInTilde name → ⊥)
        → LeavesNext file before (name ++ codes ".new") name beside standing lines old now
        → (Stands stamp_of name file old → ⊥)
        → ((l : List ℕ) → Holds stamp_of name l old → l ≡ bytes)
        → Holds stamp_of name found now → Leaves Replace false lines
        (record { log = Some bytes; text = text }) (record { log = Some found; text = text }) }
    ensures put { (stamp_of : ℕ → Stamp) (dated held : Option ℕ) (name bytes found : List ℕ)
        (own now_own : Option Stamp) (log text : Option (List ℕ)) (old now : History)
        → AreApart stamp_of
        → PutsText dated held (name ++ codes ".ops.text") name bytes own now_own old now
        → Holds stamp_of name found now → Leaves PutText true bytes
        (record { log = log; text = text }) (record { log = log; text = Some found }) }
    ensures unput { (stamp_of : ℕ → Stamp) (over : ℕ) (dated : Option ℕ)
        (path name log bytes had found : List ℕ) (own : Option Stamp)
        (text other : Option (List ℕ)) (old now : History)
        → TriesText over dated path name bytes own old now
        → log ≢ path → log ≢ name → (EndsInTilde log → ⊥) → (Stands stamp_of log over now → ⊥)
        → ((l : List ℕ) → Holds stamp_of log l old → l ≡ had)
        → Holds stamp_of log found now → Leaves PutText false bytes
        (record { log = Some had; text = text }) (record { log = Some found; text = other }) }
    ensures beside { (stamp_of : ℕ → Stamp) (file : ℕ) (dated : Option ℕ) (is_there : Bool)
        (name bytes found : List ℕ) (own : Option Stamp) (seen made now : History)
        → AreApart stamp_of → (EndsInTilde name → ⊥)
        → MakesNextText file (name ++ codes ".ops.text") name is_there seen made
        → LeavesNextText file dated (name ++ codes ".ops.text") name bytes own made now
        → Holds stamp_of name found now → Holds stamp_of name found made ⊎ (found ≡ bytes) }
{}

/// A call that puts something under a name, and writes it at a path beside, leaves each other name to
/// the file that it stands for, and each other file its bytes, whatever it answers, if nobody else takes
/// part: so a text that is put leaves the log, and a log that is written anew the text.
pub fn what_stands_elsewhere_is_left()
    ensures name { (stamp_of : ℕ → Stamp) (written file : ℕ) (path name other : List ℕ)
        (old now : History) → PutsOnlyAt written path name old now
        → other ≢ path → other ≢ name → (EndsInTilde other → ⊥)
        → Stands stamp_of other file now → Stands stamp_of other file old }
    ensures bytes { (written file : ℕ) (path name bytes : List ℕ) (old now : History)
        → PutsOnlyAt written path name old now → file ≢ written
        → OfTold (HasAfter file bytes) now → OfTold (HasAfter file bytes) old }
    ensures early { (stamp_of : ℕ → Stamp) (path name bytes : List ℕ) (old now : History)
        → ChangesOnlyAt path old now → name ≢ path → (EndsInTilde name → ⊥)
        → Holds stamp_of name bytes now → Holds stamp_of name bytes old }
{}
