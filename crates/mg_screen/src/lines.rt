//! The lines of a text, and where a window stands over them.
ghost use Rattle.std.specs.Prelude.{◌≡◌, ℕ, ◌≤◌, ◌+◌, ◌-◌, List, length, drop, count_by};
ghost use Rattle.std.specs.List.{position_or_len};
ghost use Rattle.mg_screen.specs.declared.lines.TheConstants.{BLOCK};
ghost use Rattle.mg_screen.specs.Cursor.{place_line};
ghost use Rattle.mg_screen.specs.Lines as spec;

/// How many characters are looked at together, where newlines are counted or looked for: so many
/// are counted in 32 bits, several at a time.
const BLOCK: usize = 512;

/// How many newlines a block has.
fn newlines(block: &[char]) -> u32
    requires { length block.now ≤ BLOCK }
    ensures exact { result ≡ count_by spec.ends_line block.now }
    ensures bound { result ≤ length block.now }
{
    let mut count: u32 = 0;
    for c in block {
        if *c == '\n' {
            count += 1;
        }
    }
    count
}

/// A place of the same line, some whole blocks before.
fn blocks_before(text: &[char], place: usize) -> usize
    requires { place ≤ length text.now }
    ensures same_line { (place - result) + spec.column_of text.now result ≡
        spec.column_of text.now place }
    ensures within { result ≤ place }
{
    let mut begin = place;
    while begin >= BLOCK && newlines(&text[begin - BLOCK..begin]) == 0 {
        begin -= BLOCK;
    }
    begin
}

/// How many characters stand between the begin of its line and a place. Takes no memory.
pub fn column_of(text: &[char], place: usize) -> usize
    requires { place ≤ length text.now }
    ensures exact { result ≡ spec.column_of text.now place }
{
    let mut begin = blocks_before(text, place);
    while begin > 0 && text[begin - 1] != '\n' {
        begin -= 1;
    }
    place - begin
}

/// The first line of a window of so many text rows in whose middle a line stands (mg(1), recenter).
/// Lines count from 0. Takes no memory.
pub fn centred_line(line: usize, height: usize) -> usize
    ensures { result ≡ spec.centred line height }
{
    line.saturating_sub(height / 2)
}

/// The first line of a window before a frame: the old one, `first`, where the window shows point's
/// line then, else the one that puts point's line in its middle. `line` is that of point, in any
/// text. Lines count from 0. Takes no memory.
pub fn first_line(line: usize, first: usize, height: usize) -> usize
    ensures { (text : List ℕ) (point : ℕ) → line ≡ spec.line_index text point →
        result ≡ spec.first_line text point first height }
{
    if line < first || line - first >= height {
        centred_line(line, height)
    } else {
        first
    }
}

/// How many characters the first line of a text has.
fn front_len(text: &[char]) -> usize
    ensures exact { result ≡ position_or_len spec.ends_line text.now }
    ensures within { result ≤ length text.now }
{
    for (n, c) in text.iter().enumerate() {
        if *c == '\n' {
            return n;
        }
    }
    text.len()
}

/// A place of the same line, some whole blocks behind.
fn blocks_behind(text: &[char], place: usize) -> usize
    requires { place ≤ length text.now }
    ensures same_line { result + position_or_len spec.ends_line (drop result text.now) ≡
        place + position_or_len spec.ends_line (drop place text.now) }
    ensures within { result ≤ length text.now }
{
    let mut end = place;
    while text.len() - end >= BLOCK && newlines(&text[end..end + BLOCK]) == 0 {
        end += BLOCK;
    }
    end
}

/// The end of the line that begins at a place.
pub(crate) fn line_end(text: &[char], start: usize) -> usize
    requires { start ≤ length text.now }
    ensures exact { result ≡ start + position_or_len spec.ends_line (drop start text.now) }
    ensures within { result ≤ length text.now }
{
    let near = blocks_behind(text, start);
    near + front_len(&text[near..])
}

/// The line in which a place stands, with so many characters of it before that.
pub(crate) fn line_at(text: &[char], place: usize, count: usize) -> &[char]
    requires within { place ≤ length text.now }
    requires column { count ≡ spec.column_of text.now place }
    ensures exact { result.now ≡ place_line text.now place }
    ensures within { count ≤ length result.now }
{
    let start = place - count;
    let end = line_end(text, start);
    &text[start..end]
}

/// How many newlines a text has.
pub(crate) fn newlines_of(text: &[char]) -> usize
    ensures { result ≡ count_by spec.ends_line text.now }
{
    let mut count = 0;
    for c in text {
        if *c == '\n' {
            count += 1;
        }
    }
    count
}

/// Where the line begins in which a place stands.
fn line_begin(text: &[char], place: usize) -> usize
    requires { place ≤ length text.now }
    ensures begins { spec.column_of text.now result ≡ 0 }
    ensures line { spec.line_index text.now result ≡ spec.line_index text.now place }
    ensures within { result ≤ length text.now }
{
    place - column_of(text, place)
}

/// Where the line begins that is so many lines above the one that begins at a place.
fn begin_above(text: &[char], begin: usize, count: usize) -> usize
    requires within { begin ≤ length text.now }
    requires begins { spec.column_of text.now begin ≡ 0 }
    requires above { count ≤ spec.line_index text.now begin }
    ensures begins { spec.column_of text.now result ≡ 0 }
    ensures line { spec.line_index text.now result + count ≡ spec.line_index text.now begin }
    ensures within { result ≤ length text.now }
{
    let mut start = begin;
    for _i in 0..count {
        start = line_begin(text, start - 1);
    }
    start
}

/// Where the line begins that is so many lines below the one that begins at a place. A line that
/// the text has not begins behind its end.
fn begin_below(text: &[char], begin: usize, count: usize) -> usize
    requires { begin ≤ length text.now }
    ensures exact { spec.lines_on text.now result ≡ drop count (spec.lines_on text.now begin) }
    ensures within { result ≤ length text.now + 1 }
{
    let mut start = begin;
    for _i in 0..count {
        if start > text.len() {
            break;
        }
        start = line_end(text, start) + 1;
    }
    start
}

/// Where a line begins. It is looked for from a place on, whose line is `here`, so that no more of
/// the text is read than what stands between. A line that the text has not begins behind its end.
pub(crate) fn line_start(text: &[char], place: usize, here: usize, line: usize) -> usize
    requires within { place ≤ length text.now }
    requires here { here ≡ spec.line_index text.now place }
    ensures exact { spec.lines_on text.now result ≡ drop line (spec.lines text.now) }
    ensures within { result ≤ length text.now + 1 }
{
    let begin = line_begin(text, place);
    if line <= here {
        return begin_above(text, begin, here - line);
    }
    begin_below(text, begin, line - here)
}
