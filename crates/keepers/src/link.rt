// A link of the parent-link keeper: where it leads, and a rank that rises along the links.
#[derive(Clone, Copy)]
pub struct Link {
    pub parent: u16,
    pub rank: u16,
}
