ghost use Rattle.std.specs.Prelude.{◌≡◌, ◌<◌, ◌^◌, filter, fold, map, min, max, nat_lt};
ghost use Rattle.line_problems.specs.FoldProblems.{cells_of, usual_fold, uneven_fold_of};

use grid_live::FoldCount;

// Of ten cells so many have the usual fold, at least, where a fold is usual.
const USUAL_OF_TEN: u128 = 9;

/// A fold that at least nine cells of ten have, but not all: how many cells there are, the usual
/// fold, how many cells have less and how many have more, and the least and the greatest fold.
#[derive(Debug, Clone, Copy, PartialEq, Eq)]
pub struct UnevenFold {
    pub cells: u64,
    pub usual: u64,
    pub less: u64,
    pub more: u64,
    pub least: u64,
    pub greatest: u64,
}

/// The usual fold, where at least nine cells of ten have it, but not all. Takes no memory.
pub fn uneven_fold(folds: &[FoldCount]) -> Option<UnevenFold>
    requires { cells_of folds.now < 2 ^ 64 }
    ensures { result ≡ uneven_fold_of folds.now }
{
    let usual = find_usual(folds)?;
    let cells = count_cells(folds);
    let is_usual = u128::from(cells) * USUAL_OF_TEN <= u128::from(usual.cells) * 10;
    if !is_usual || cells <= usual.cells {
        return None;
    }
    Some(UnevenFold {
        cells,
        usual: usual.fold,
        less: cells_below(folds, usual.fold),
        more: cells_above(folds, usual.fold),
        least: least_fold(folds, usual.fold),
        greatest: greatest_fold(folds, usual.fold),
    })
}

// The fold that the most cells have, of several the first.
fn find_usual(folds: &[FoldCount]) -> Option<FoldCount>
    ensures { result ≡ usual_fold folds.now }
{
    let (first, others) = folds.split_first()?;
    let mut usual = *first;
    for fold in others {
        if usual.cells < fold.cells {
            usual = *fold;
        }
    }
    Some(usual)
}

fn count_cells(folds: &[FoldCount]) -> u64
    requires { cells_of folds.now < 2 ^ 64 }
    ensures { result ≡ cells_of folds.now }
{
    folds.iter().map(|f| f.cells).sum()
}

fn cells_below(folds: &[FoldCount], usual: u64) -> u64
    requires { cells_of folds.now < 2 ^ 64 }
    ensures { result ≡ cells_of (filter (λ f. nat_lt f.fold usual) folds.now) }
{
    folds
        .iter()
        .filter(|f| f.fold < usual)
        .map(|f| f.cells)
        .sum()
}

fn cells_above(folds: &[FoldCount], usual: u64) -> u64
    requires { cells_of folds.now < 2 ^ 64 }
    ensures { result ≡ cells_of (filter (λ f. nat_lt usual f.fold) folds.now) }
{
    folds
        .iter()
        .filter(|f| usual < f.fold)
        .map(|f| f.cells)
        .sum()
}

// The least of the folds and this one.
fn least_fold(folds: &[FoldCount], usual: u64) -> u64
    ensures { result ≡ fold min usual (map (λ f. f.fold) folds.now) }
{
    folds.iter().map(|f| f.fold).fold(usual, u64::min)
}

// The greatest of the folds and this one.
fn greatest_fold(folds: &[FoldCount], usual: u64) -> u64
    ensures { result ≡ fold max usual (map (λ f. f.fold) folds.now) }
{
    folds.iter().map(|f| f.fold).fold(usual, u64::max)
}
