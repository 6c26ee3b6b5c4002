// Small tables worked out by hand.
// The table 1, 2, 3, 4 is 1 + 2 x + y, and eq at (2, 3) is -1 or 2 times -2 or 3.
use crate::eq::{eq_at, eq_table};
use crate::halving::mle_at;
use arithmetic::mersenne::Mersenne31;
use std::test::Fail;

#[test]
fn looks_up_off_the_corners(rt: HostRuntime) -> Result<(), Fail> {
    let mut table = [1, 2, 3, 4];
    assert_eq!(rt; mle_at::<Mersenne31>(&mut table, &[2, 3]), 8);
    assert_eq!(rt; table, [8, 6, 3, 4]);
    Ok(())
}

#[test]
fn splits_eq_over_the_corners(rt: HostRuntime) -> Result<(), Fail> {
    let mut out = [0, 0, 0, 0, 7];
    eq_table::<Mersenne31>(&[2, 3], &mut out);
    assert_eq!(rt; out, [2, 2147483644, 2147483643, 6, 7]);
    assert_eq!(rt; eq_at::<Mersenne31>(&[2, 3], &[2, 3]), 65);
    Ok(())
}
