// The part of a layer's argument that is due, with how many of its variables have no coin yet.
// A part with no variables is never due; after all of them the two values below are.

#[derive(Clone, Copy, PartialEq, Eq)]
pub enum Due {
    Copies(u32),
    // the variables of x, and then those of y
    Left(u32),
    Right(u32),
    Values,
}
