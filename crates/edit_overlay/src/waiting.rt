// What a save has yet to write.
ghost use Rattle.std.specs.Prelude.{◌≤◌};

// A range of the loaded bytes that waits to be written, and how many bytes the writer took before.
#[derive(Drop)]
pub struct Waiting {
    pub from: usize,
    pub to: usize,
    pub written: u64,
    pub ghost in_order: { from ≤ to },
}
