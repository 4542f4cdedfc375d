// Places of cells that have an offset each, and of rows that are added, worked by hand.
use room::Room;
use std::alloc::Global;
use std::test::Fail;
use window_counts::{
    CellCounts, Extent, OffsetExtent, OffsetRectangle, Rectangle, RectangleExtent, Window,
};

// Places for so many traces in these cells, each of which is at the offset of its last one.
fn places_of(
    alloc: Global,
    traces: usize,
    triples: &[(i32, i32, i32)],
) -> Result<OffsetRectangle, Fail> {
    let mut extent = OffsetExtent::none();
    for triple in triples {
        extent.include(*triple);
    }
    let window = OffsetRectangle::by_cell(&mut Room::new(alloc), &extent, traces)?;
    Ok(met(window, triples))
}

fn met(mut window: OffsetRectangle, triples: &[(i32, i32, i32)]) -> OffsetRectangle {
    for triple in triples {
        window.meet(*triple);
    }
    window
}

#[test]
fn gives_each_cell_the_offset_of_its_last_trace(rt: HostRuntime) -> Result<(), Fail> {
    let triples = [(10, 20, 100), (10, 21, 200), (10, 21, 300)];
    let window = places_of(rt.alloc(), 3, &triples)?;
    assert_eq!(rt; window.len(), 2);
    assert_eq!(rt; window.place_of((10, 20, 100)), Some(0));
    assert_eq!(rt; window.place_of((10, 21, 300)), Some(1));
    assert_eq!(rt; window.place_of((10, 21, 200)), None);
    assert_eq!(rt; window.place_of((11, 20, 100)), None);
    Ok(())
}

#[test]
fn leaves_a_triple_outside_alone(rt: HostRuntime) -> Result<(), Fail> {
    let mut window = places_of(rt.alloc(), 2, &[(10, 20, 100), (10, 21, 200)])?;
    window.meet((12, 20, 700));
    assert_eq!(rt; window.place_of((12, 20, 700)), None);
    assert_eq!(rt; window.place_of((10, 20, 100)), Some(0));
    Ok(())
}

// Two cells have no place where there are ten traces.
#[test]
fn has_no_place_for_many_traces_a_cell(rt: HostRuntime) -> Result<(), Fail> {
    let window = places_of(rt.alloc(), 10, &[(10, 20, 100), (10, 21, 200)])?;
    assert_eq!(rt; window.len(), 0);
    assert_eq!(rt; window.place_of((10, 20, 100)), None);
    Ok(())
}

// Adds a row that has a place for the triple, where one can be added.
fn grows(window: &mut OffsetRectangle, triple: (i32, i32, i32)) -> bool {
    let can = window.can_grow(triple);
    if can {
        window.grow(triple);
    }
    can
}

// A row above the last one, with its offsets, and as many as there were at first.
#[test]
fn adds_a_row_with_the_offsets_of_the_last(rt: HostRuntime) -> Result<(), Fail> {
    let mut window = places_of(rt.alloc(), 2, &[(10, 20, 100), (10, 21, 200)])?;
    let unready = grows(&mut window, (15, 21, 200));
    window.prepare(rt.alloc());
    let other_offset = grows(&mut window, (15, 21, 100));
    let beside = grows(&mut window, (15, 22, 200));
    let below = grows(&mut window, (9, 21, 200));
    let above = grows(&mut window, (15, 21, 200));
    let second = grows(&mut window, (16, 21, 200));
    assert_eq!(rt;
        (unready, other_offset, beside, below),
        (false, false, false, false)
    );
    assert_eq!(rt; (above, second), (true, false));
    assert_eq!(rt; (window.len(), window.added_len()), (4, 2));
    assert_eq!(rt; window.place_of((10, 20, 100)), Some(0));
    assert_eq!(rt; window.place_of((15, 20, 100)), Some(2));
    assert_eq!(rt; window.place_of((15, 21, 200)), Some(3));
    assert_eq!(rt; window.place_of((12, 20, 100)), None);
    Ok(())
}

// Counts of two inlines of the crosslines from 20 to the last, none yet.
fn counts_of(alloc: Global, last: i32) -> Result<CellCounts, Fail> {
    let mut extent = RectangleExtent::none();
    extent.include((10, 20));
    extent.include((11, last));
    Ok(CellCounts::within(&mut Room::new(alloc), Rectangle::over(&extent, 200))?)
}

// How many places there are once the cell was counted.
fn places_with(alloc: Global, cells: &mut CellCounts, cell: (i32, i32)) -> Result<usize, Fail> {
    if cells.count(cell) < 10 {
        cells.raise(&mut Room::new(alloc), cell)?;
    }
    Ok(cells.places())
}

// Rows are added for cells above the others, as many as there were at first, and not for those
// below, between or beside them.
#[test]
fn counts_cells_above_in_rows(rt: HostRuntime) -> Result<(), Fail> {
    let mut cells = counts_of(rt.alloc(), 21)?;
    let cells = &mut cells;
    assert_eq!(rt; cells.places(), 4);
    assert_eq!(rt; places_with(rt.alloc(), cells, (15, 20))?, 6);
    assert_eq!(rt; places_with(rt.alloc(), cells, (15, 21))?, 6);
    assert_eq!(rt; places_with(rt.alloc(), cells, (18, 21))?, 8);
    assert_eq!(rt; places_with(rt.alloc(), cells, (19, 20))?, 8);
    assert_eq!(rt; places_with(rt.alloc(), cells, (16, 20))?, 8);
    assert_eq!(rt; (cells.count((15, 21)), cells.count((19, 20))), (1, 1));
    assert_eq!(rt; cells.span(), Some(((15, 20), (19, 20))));
    Ok(())
}

// A row of 200 places with one cell is not in use, so that none follows.
#[test]
fn adds_no_row_behind_one_that_is_not_in_use(rt: HostRuntime) -> Result<(), Fail> {
    let mut cells = counts_of(rt.alloc(), 219)?;
    let cells = &mut cells;
    assert_eq!(rt; cells.places(), 400);
    assert_eq!(rt; places_with(rt.alloc(), cells, (15, 20))?, 600);
    assert_eq!(rt; places_with(rt.alloc(), cells, (16, 20))?, 600);
    assert_eq!(rt; (cells.count((15, 20)), cells.count((16, 20))), (1, 1));
    Ok(())
}
