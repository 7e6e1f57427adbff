// The plain engine of document 02, Four, as definitions (specs/), and its equality with the tree (proofs/).
#![tactic(auto)]

// The root of the plain engine: "a single surplus and a flag". It is closed where the flag is 1.
#[derive(Clone, Copy)]
pub struct Root {
    pub count: usize,
    pub closed: usize,
}
