use frame_cut::Extent;

/// The bytes that a trace has under its runs: those of an extent of the loaded file, or its own.
#[derive(Drop)]
pub enum Base {
    Loaded(Extent),
    Added(Vec<u8>),
}
