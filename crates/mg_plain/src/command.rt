//! Commands on a text.
use crate::chars::Chars;

/// A command on a text, named as mg(1) names it. Those that obey an argument say so; the others
/// ignore it. A place is carried where nothing else is said of it: it stays before what a splice
/// replaces, moves with what stands behind, and goes behind what is put where it stood within.
#[derive(Drop)]
pub enum Command {
    /// Inserts the character, so many times, and point goes behind.
    Insert(char),
    /// Inserts so many newlines, and point goes behind.
    Newline,
    /// Inserts so many newlines; point stays.
    OpenLine,
    /// Inserts a newline and the spaces and tabs that the line begins with, cut at point; point
    /// goes behind.
    NewlineAndIndent,
    /// Moves point so many characters on.
    ForwardChar,
    /// Moves point so many characters back.
    BackwardChar,
    /// Moves point to the begin of its line.
    BeginningOfLine,
    /// Moves point to the end of its line.
    EndOfLine,
    /// Moves point to 0.
    BeginningOfBuffer,
    /// Moves point to the end of the text.
    EndOfBuffer,
    /// Moves point so many lines on, to the goal column or the end of a shorter line.
    NextLine,
    /// Moves point so many lines back.
    PreviousLine,
    /// Moves point on by two lines less than the window's text rows, at least one, or as far as there are
    /// lines.
    ScrollUp { rows: usize },
    /// The same back.
    ScrollDown { rows: usize },
    /// Moves point on over so many ends of words.
    ForwardWord,
    /// Moves point back over so many begins of words.
    BackwardWord,
    /// Deletes so many characters behind point.
    DeleteChar,
    /// Deletes so many characters before point.
    DeleteBackwardChar,
    /// Kills the rest of the line, or the newline where point stands at it.
    KillLine,
    /// Kills up to where one step over words goes.
    KillWord,
    /// Kills what stands between point and mark.
    KillRegion,
    /// Makes what stands between point and mark the kill buffer.
    CopyRegionAsKill,
    /// Inserts the kill buffer, the mark at its begin and point at its end.
    Yank,
    /// Sets the mark at point.
    SetMarkCommand,
    /// Point and mark change places.
    ExchangePointAndMark,
    /// Point goes to 0 and the mark to the end of the text.
    MarkWholeBuffer,
    /// The characters on both sides of point change places, and point goes behind them.
    TransposeChars,
    /// ASCII letters from point to the end of a word become upper case; point goes there.
    UpcaseWord,
    /// The same with lower case.
    DowncaseWord,
    /// The first word character becomes upper case, all others lower case.
    CapitalizeWord,
    /// Point goes behind the first match from the start on; ASCII case makes no difference.
    SearchForward { pattern: Chars, start: usize },
    /// Point goes to the begin of the last match up to the start.
    SearchBackward { pattern: Chars, start: usize },
    /// Replaces the match that ends at point, and point goes behind.
    ReplaceOne { pattern: Chars, put: Chars },
    /// The same for this match and all that follow, each found from the end of the one before.
    ReplaceAll { pattern: Chars, put: Chars },
    /// Inserts the characters, and point goes behind them.
    InsertText(Chars),
    /// Replaces the characters from one place up to another, which are places of the text; point and
    /// mark are carried.
    ReplaceRange { lo: usize, hi: usize, put: Chars },
    /// Lays the words of point's paragraph out in lines of at most the fill column.
    FillParagraph,
}
