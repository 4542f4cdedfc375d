use bench_rules::{Edit, Query};

/// What a line of a script asks for.
#[derive(Drop)]
pub enum Command {
    /// A change of the volume.
    Apply(Edit),
    /// A question that changes nothing.
    Ask(Query),
}
