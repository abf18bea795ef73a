//! The places of elements in the windows that show their buffer.
ghost use Rattle.std.specs.Prelude.{◌≡◌, ◌≤◌, ◌<◌, ◌++◌, Some, length, IfOk, OnOk};
ghost use Rattle.std.specs.Option.{option_to_list, ForSome};
ghost use Rattle.mg_screen.specs.Frame.{screen_rows};
ghost use Rattle.mg_screen.specs.Size.{most_rows, least_columns, most_columns};
ghost use Rattle.mg_workspace.specs.AtIndex.{state_at};
ghost use Rattle.mg_workspace.specs.Viewports.{shown_buffers};
ghost use Rattle.mg_editor.specs.LiveShowing as spec;

use mg_buffer::Buffer;
use mg_events::PlaceStatus;
use mg_screen::{Screen, cell_of_place};
use mg_workspace::Workspace;
use rga_ops::Id;
use rga_store::TextStore;
use std::alloc::{AllocError, Global};

/// The cell of an element's place in the window at an index. `None` if the element has no place, or
/// the window does not show it.
fn element_cell<S: TextStore>(
    columns: usize,
    screen: &Screen<'_>,
    window: usize,
    buffer: &Buffer<S>,
    element: Id,
) -> Option<PlaceStatus>
    requires rows_to { screen_rows screen.now ≤ most_rows }
    requires columns_from { least_columns ≤ columns }
    requires columns_to { columns ≤ most_columns }
    ensures { result ≡ spec.element_cell columns screen.now buffer.now.content window element }
{
    let place = buffer.place_of(element)?;
    let cell = cell_of_place(columns, screen, window, place)?;
    Some(PlaceStatus {
        element,
        row: cell.row,
        column: cell.column,
    })
}

fn push_cell(cells: &mut Vec<PlaceStatus>, cell: Option<PlaceStatus>) -> Result<(), AllocError>
    ensures { OnOk result (cells.new.items ≡ cells.old.items ++ option_to_list cell) }
{
    if let Some(cell) = cell {
        cells.push(cell)?;
    }
    Ok(())
}

/// The cells of elements in the window at an index more.
fn push_cells<S: TextStore>(
    columns: usize,
    screen: &Screen<'_>,
    window: usize,
    buffer: &Buffer<S>,
    elements: &[Id],
    cells: &mut Vec<PlaceStatus>,
) -> Result<(), AllocError>
    requires rows_to { screen_rows screen.now ≤ most_rows }
    requires columns_from { least_columns ≤ columns }
    requires columns_to { columns ≤ most_columns }
    ensures { let content = buffer.now.content in OnOk result (cells.new.items ≡ cells.old.items
        ++ spec.window_cells columns screen.now content elements.now window) }
{
    for element in elements {
        push_cell(
            cells,
            element_cell(columns, screen, window, buffer, *element),
        )?;
    }
    Ok(())
}

/// Whether the window at an index shows the buffer at an index.
fn shows_buffer<S: TextStore>(work: &Workspace<S>, index: usize, window: usize) -> bool
    requires { window < length work.now.windows.windows }
    ensures { let shown = shown_buffers work.now.windows.windows in
        result ≡ spec.shows_buffer shown index window }
{
    work.buffer_shown(window) == index
}

/// The cells of elements in a window more, if that shows the buffer at an index.
fn push_cells_over<S: TextStore>(
    work: &Workspace<S>,
    screen: &Screen<'_>,
    window: usize,
    index: usize,
    elements: &[Id],
    cells: &mut Vec<PlaceStatus>,
) -> Result<(), AllocError>
    requires rows_to { screen_rows screen.now ≤ most_rows }
    requires window { window < length work.now.windows.windows }
    requires index { index < length work.now.buffers.all }
    ensures { let content = (state_at index work.now).content in
        let shown = shown_buffers work.now.windows.windows in
        let window_cells = spec.window_cells work.now.columns screen.now content elements.now in
        OnOk result (cells.new.items ≡ cells.old.items
        ++ spec.cells_over shown index window_cells window) }
{
    if !shows_buffer(work, index, window) {
        return Ok(());
    }
    let buffer = &work.at(index).buffer;
    push_cells(work.columns(), screen, window, buffer, elements, cells)
}

/// The cells of elements of the live buffer, if there is one, in each window that shows it.
pub(crate) fn place_cells<S: TextStore>(
    alloc: Global,
    work: &Workspace<S>,
    screen: &Screen<'_>,
    live: Option<usize>,
    elements: &[Id],
) -> Result<Vec<PlaceStatus>, AllocError>
    requires rows_to { screen_rows screen.now ≤ most_rows }
    requires live { ForSome live (λ index. index < length work.now.buffers.all) }
    ensures { IfOk result (λ cells. cells.items
        ≡ spec.place_cells_in screen.now live elements.now work.now) }
{
    let mut cells = Vec::new(alloc);
    let Some(index) = live else {
        return Ok(cells);
    };
    for window in 0..work.heights().len() {
        push_cells_over(work, screen, window, index, elements, &mut cells)?;
    }
    Ok(cells)
}
