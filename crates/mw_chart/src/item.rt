// What a chart's cells and rows consist of.
use crate::tree::Tree;

/// A text begun that has come to a state.
#[derive(Drop)]
pub struct ChartItem {
    pub state: usize,
    pub tree: Tree,
}

/// A whole text.
#[derive(Drop)]
pub struct Constituent {
    pub end: usize,
    pub state: usize,
    pub tree: Tree,
}
