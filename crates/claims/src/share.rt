// The shares of a claim as the sums see them: factors, and just the coordinates of their points.
// The sums are for numbers modulo anything, so that nothing is said here of being reduced.

#[derive(Clone, Copy)]
pub struct ShareView<'a> {
    pub factor: u32,
    pub point: &'a [u32],
}

// One share, or two.
#[derive(Clone, Copy)]
pub struct SharesView<'a> {
    pub first: ShareView<'a>,
    pub second: Option<ShareView<'a>>,
}
