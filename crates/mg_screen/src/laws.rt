//! Laws of the definitions, each proved by a function with nothing to do.
ghost use Rattle.std.specs.Prelude.{◌≡◌, ℕ, ◌+◌, ◌-◌, ◌/◌, ◌<◌, ◌≤◌, List, [], ◌∷◌, Some, true};
ghost use Rattle.std.specs.Prelude.{length, take, get_or, slice_get};
ghost use Rattle.std.specs.List.{All};
ghost use Rattle.mg_screen.specs.declared.screen.Position.{Position};
ghost use Rattle.mg_screen.specs.Size.{least_columns};
ghost use Rattle.mg_screen.specs.Cells.{Cell, cell, cells, cells_within, width_of, IsLongest};
ghost use Rattle.mg_screen.specs.Lines.{line_index, column_of, first_line, shows_line};
ghost use Rattle.mg_screen.specs.Screen.{Pane, Screen};
ghost use Rattle.mg_screen.specs.Frame.{frame_rows};
ghost use Rattle.mg_screen.specs.Layout.{Layout, FillsRows, resized_layout};
ghost use Rattle.mg_screen.specs.Cursor.{cursor, echo_cursor, place_line, row_cells, ShowsAt};
ghost use Rattle.mg_screen.specs.Sideways.{left_of, rows_at_point};
ghost use Rattle.mg_screen.specs.Sideways.{cursor_at_point, cell_of_place, IsNear, IsWithin};

/// What is kept of cells that have too little room is their longest beginning: it fits, and each
/// longer one is too wide.
#[tactic(auto, using(crate::proofs::CellLaws::is_longest))]
pub fn a_beginning_is_the_longest()
    ensures { (most : ℕ) (all : List Cell) → IsLongest most all (cells_within most all) }
{}

/// A window shows the line of point, in one of its text rows, from its `first_line` on.
#[tactic(auto, using(crate::proofs::CursorLaws::placed_shows))]
pub fn a_window_shows_point()
    ensures { (text : List ℕ) (point first height : ℕ) → 0 < height →
        shows_line (first_line text point first height) height (line_index text point) ≡ true }
{}

/// The cursor stands in a row and a column of the frame, in the echo line in the last row.
#[tactic(auto, using(crate::proofs::CursorLaws::cursor_within, crate::proofs::CursorLaws::echo_within))]
pub fn the_cursor_is_in_the_frame()
    ensures window { (columns index : ℕ) (s : Screen) (at : Position) →
        0 < columns → cursor columns s index ≡ Some at →
        (at.row < length (frame_rows columns s)) × (at.column < columns) }
    ensures echo { (columns : ℕ) (s : Screen) → 0 < columns → let at = echo_cursor columns s in
        (at.row + 1 ≡ length (frame_rows columns s)) × (at.column < columns) }
{}

/// Where the row of the cursor shows the cell of the character at point, the cursor stands on it:
/// the frame shows that cell behind as many columns as the cursor's. A cell of no width right
/// behind the last column is left out.
pub fn the_cursor_is_on_points_cell()
    ensures { (columns index : ℕ) (s : Screen) (p : Pane) (at : Position) (x : Cell) →
        slice_get s.panes index ≡ Some p → cursor columns s index ≡ Some at →
        let shown = row_cells columns (place_line p.text p.point) in
        let before = column_of p.text p.point in
        slice_get shown before ≡ Some x → width_of (take before shown) < columns →
        ShowsAt (get_or (frame_rows columns s) at.row []) at.column x }
{}

/// Where point stands behind what is shown of a line that is cut, the cursor stands on its `$`.
pub fn the_cursor_is_on_the_sign_of_a_cut_line()
    ensures { (columns index : ℕ) (s : Screen) (p : Pane) (at : Position) →
        slice_get s.panes index ≡ Some p → cursor columns s index ≡ Some at →
        let line = place_line p.text p.point in
        columns < width_of (cells line) →
        length (row_cells columns line) ≤ column_of p.text p.point →
        ShowsAt (get_or (frame_rows columns s) at.row []) at.column (cell (36 ∷ []) 1) }
{}

/// A screen of as many rows as before leaves the windows as they are.
#[tactic(auto, using(crate::proofs::ResizeLaws::resized_same))]
pub fn the_same_rows_change_no_window<T: Copy>()
    ensures { (rows : ℕ) (l : Layout T) → FillsRows rows l → resized_layout rows l ≡ l }
{}

/// Where in each window the column of point is before the last one, the rows and the cursors are
/// those of a plain frame.
#[tactic(auto, using(crate::proofs::SidewaysCursorLaws::near_rows, crate::proofs::SidewaysCursorLaws::near_cursor))]
pub fn a_near_point_moves_nothing()
    ensures rows { (columns : ℕ) (s : Screen) → All (IsNear columns) s.panes →
        rows_at_point columns s ≡ frame_rows columns s }
    ensures cursor { (columns index : ℕ) (s : Screen) → All (IsNear columns) s.panes →
        cursor_at_point columns s index ≡ cursor columns s index }
{}

/// A row that begins further right has the column of point within its middle half: at least a
/// quarter of the columns stand before it, and at least one behind it.
#[tactic(auto, using(crate::proofs::SidewaysCursorLaws::middle_half))]
pub fn a_column_beyond_comes_into_the_middle()
    ensures { (columns column : ℕ) → least_columns ≤ columns → columns ≤ column + 1 →
        let at = column - left_of columns column in
        (columns / 4 ≤ at) × (at + 1 < columns) × (left_of columns column < column) }
{}

/// Each row shows cells that are together no wider than the screen.
#[tactic(auto, using(crate::proofs::SidewaysCellLaws::rows_have_room))]
pub fn each_row_has_room()
    ensures { (columns : ℕ) (s : Screen) → 1 < columns →
        All (IsWithin columns) (rows_at_point columns s) }
{}

/// The cursor at point and the cells of places stand in a row and a column of the frame.
pub fn the_cursor_at_point_is_in_the_frame()
    ensures cursor { (columns index : ℕ) (s : Screen) (at : Position) →
        least_columns ≤ columns → cursor_at_point columns s index ≡ Some at →
        (at.row < length (rows_at_point columns s)) × (at.column < columns) }
    ensures place { (columns index place : ℕ) (s : Screen) (at : Position) →
        least_columns ≤ columns → cell_of_place columns s index place ≡ Some at →
        (at.row < length (rows_at_point columns s)) × (at.column < columns) }
{}

/// The cell of point, where there is one, is that of the cursor.
pub fn the_cell_of_point_is_the_cursors()
    ensures { (columns index : ℕ) (s : Screen) (p : Pane) (at : Position) →
        slice_get s.panes index ≡ Some p → cell_of_place columns s index p.point ≡ Some at →
        cursor_at_point columns s index ≡ Some at }
{}

/// The frame shows in the cell of a place what stands behind that: the cell of that character, in
/// the row and behind as many columns. (One of no width has none of its own.)
pub fn the_cell_of_a_place_shows_its_character()
    ensures { (columns index place : ℕ) (s : Screen) (p : Pane) (at : Position) (x : Cell) →
        slice_get s.panes index ≡ Some p → cell_of_place columns s index place ≡ Some at →
        slice_get (cells (place_line p.text place)) (column_of p.text place) ≡ Some x →
        0 < x.width → ShowsAt (get_or (rows_at_point columns s) at.row []) at.column x }
{}
