use record_table::CellsIter;

// How many cells are read ahead at once.
const AHEAD: usize = 32;

// Reads the inline of each of the next records at once, before they are asked for. Records that
// wait in memory wait one after another where much is done between two reads; reads that directly
// follow each other wait together.
#[derive(Drop)]
pub(crate) struct CellsAhead<'a> {
    cells: CellsIter<'a>,
    left: usize,

    // All numbers that were read: what is not kept is not read.
    seen: i32,
}

impl<'a> CellsAhead<'a> {
    pub(crate) fn new(cells: CellsIter<'a>) -> CellsAhead<'a> {
        CellsAhead {
            cells,
            left: 0,
            seen: 0,
        }
    }

    // One cell more is asked for.
    #[inline(always)]
    pub(crate) fn step(&mut self) {
        if self.left == 0 {
            self.read();
            self.left = AHEAD;
        }
        self.left -= 1;
    }

    // Reads the next cells.
    #[inline(never)]
    fn read(&mut self) {
        for _ in 0..AHEAD {
            if let Some((inline, _)) = self.cells.next() {
                self.seen ^= inline;
            }
        }
    }
}
