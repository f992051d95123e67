// How long a tree is: so many nodes, and so many words of their bodies.
#[derive(Clone, Copy)]
pub struct Extent {
    pub nodes: usize,
    pub words: usize,
}
