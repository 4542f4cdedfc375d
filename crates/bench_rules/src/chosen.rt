use crate::condition::Condition;
use crate::items::Items;

/// Which traces of a volume an edit or a query is about: of those of a range, counted from 1, the
/// ones that meet all conditions; of no range, as of a file without traces, none.
#[derive(Drop)]
pub struct Chosen {
    pub traces: Option<(u32, u32)>,
    pub conditions: Items<Condition>,
}
